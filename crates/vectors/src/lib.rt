// What the programs that run vectors share: all cases asked, a case read, its memories laid out in lent rooms, its answer said.
#![tactic(auto)]

mod case;
mod element;
pub mod pieces;
pub mod rooms;
mod run;
pub mod said;

pub use case::{Case, part};
pub use element::{Element, fill};
pub use run::run_cases;

// How long a memory of a case may be.
pub const LONGEST: usize = 65600;

// How long all cases of a program together may be, and the longest listing.
pub const SHEET: usize = 524288;

// The C face of the texts, each answer as numbers: the listing of a program, the report on a rule pack.
#![tactic(auto)]

mod listings;
mod reports;

pub use listings::khx_list;
pub use reports::khx_report;

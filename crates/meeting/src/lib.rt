// The walk's single steps: an address is examined, and the addresses that it leads to are met.
#![tactic(auto)]

ghost use Rattle.std.specs.Prelude.{◌≡◌, List, [], ◌∷◌, ℕ, ◌<◌, ◌≤◌, length, get_or};
ghost use Rattle.paths.specs.Paths.{hop};
ghost use Rattle.look.specs.Look.{look_of};
ghost use Rattle.meeting.specs.Stands.{MeetsAny, InsideNew, WentAny, TurnedAny};

use basis::Refusal;
use look::Look;
use pending::Pending;
use shapes::Shapes;

// An address is met: for the first time, or again at the same depth.
#[derive(Clone, Copy)]
enum Meeting {
    New,
    Known,
}

// The address b is met at depth e.
// Stays: a depth's bound as a clause: a type for it is no plainer, it would be made of a `Look` and taken apart for the map's cell.
fn meet(map: &mut [u16], b: usize, e: usize) -> Result<Meeting, Refusal>
    requires { e ≤ 1024 }
    ensures { MeetsAny map.old b e result map.new × InsideNew (length map.old) b result }
{
    if b >= map.len() {
        return Err(Refusal::PastEnd);
    }
    let depth = map[b] as usize;
    // Stays: 65,535 for none: the C interface has it in the cells of the depth map.
    if depth == 65535 {
        map[b] = e as u16;
        return Ok(Meeting::New);
    }
    if depth == e {
        return Ok(Meeting::Known);
    }
    Err(Refusal::TwoDepths)
}

// One successor is met, with nothing beside the set: what then is, if anything.
fn meet_one(map: &mut [u16], b: usize, e: usize) -> Result<Option<usize>, Refusal>
    requires { e ≤ 1024 }
    ensures { (words : List ℕ) → WentAny map.old words (hop b e ∷ []) result map.new words }
{
    match meet(map, b, e)? {
        Meeting::New => Ok(Some(b)),
        Meeting::Known => Ok(None),
    }
}

// The next instruction and a target are met.
fn meet_two(
    map: &mut [u16],
    pending: &mut Pending,
    b: usize,
    x: usize,
    e: usize,
) -> Result<Option<usize>, Refusal>
    requires { (e ≤ 1024) × (length map.old ≤ 16384) }
    ensures { WentAny map.old pending.old.words (hop b e ∷ hop x e ∷ []) result map.new pending.new.words }
{
    let beside = meet_one(map, b, e)?;
    match meet(map, x, e)? {
        Meeting::New => pending.put(x),
        Meeting::Known => (),
    }
    Ok(beside)
}

// The address that is beside the set is examined, and what it leads to is met: the walk goes on, with the address, if any, that is
// then due beside the set.
pub fn examine(
    program: &[u8],
    cells: usize,
    map: &mut [u16],
    pending: &mut Pending,
    at: usize,
    shapes: Shapes,
) -> Result<Option<usize>, Refusal>
    requires { (cells ≤ 1024) × (at < length map.old) × (length map.old ≤ 16384) × (length map.old ≡ length program.now) }
    ensures { TurnedAny (look_of program.now cells) at (get_or map.old at 0) map.old pending.old.words result map.new pending.new.words }
{
    let depth = map[at] as usize;
    match glance::look_at(shapes, program, cells, at, depth)? {
        Look::Nowhere => Ok(None),
        Look::One(b, e) => meet_one(map, b, e),
        Look::Two(b, x, e) => meet_two(map, pending, b, x, e),
    }
}

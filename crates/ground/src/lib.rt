// What the other crates stand on and that knows nothing of routes: the numbers that a call returns, stretches of numbers, what a lent
// slice holds after a call, and the moves of one column. It is for this library's crates and not for callers.
#![tactic(auto)]

pub mod column;

ghost use Rattle.ground.specs.Numbers.{GivesNumber};

// Rule 5.1: what a call returns that did what it is for, where a number is asked for.
pub const DONE: u32 = 0;

// Rule 5.1: why a call is refused, each with the number that the rule gives it.
#[derive(Clone, Copy, Debug, PartialEq, Eq)]
pub enum Refusal {
    // What was handed in is ill-formed.
    IllFormed = 11,
    // There are more rows in the feed than bytes in the report.
    ReportShort = 12,
    // What would be written doesn't fit what was lent.
    NoRoom = 13,
    // The list has another run table than the one handed in.
    NotItsRuns = 14,
    // An edit names no prefix, or announces hop 0.
    BadEdit = 15,
    // A withdrawal names a prefix that has no row in the list.
    NotListed = 16,
    // A split has size 0, or a size greater than the count.
    BadSize = 17,
    // A split is handed a list without 0.0.0.0/0.
    NoDefault = 18,
    // A packed lookup has a width above 16, or would read outside a slice.
    OutsidePacked = 19,
}

// Rule 5.1: the number of a refusal; `specs/Numbers` has it as a definition.
impl From<Refusal> for u32 {
    ghost from_gives = { GivesNumber };

    fn from(refusal: Refusal) -> u32 {
        refusal as u32
    }
}

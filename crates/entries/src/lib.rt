// Entries for hints: one clue against a list's rows (`entry`), and lent clues in key order with their entries (`order`). It is a part of
// the hints, which `clue` has, and cites no law of the crates below.
#![tactic(auto)]

pub mod entry;
pub mod order;

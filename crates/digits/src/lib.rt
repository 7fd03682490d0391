// Numbers, addresses and rows as text: what puts them into a lent slice (`put`), and what measures them before (`size`). The list writer
// and the program's text stand above.
#![tactic(auto)]

pub mod put;
pub mod size;

// One prefix in a list: the nearest row around it, the rows inside it with the runs that they make there, and what changes where its row
// changes. An edit of a list and its run table stands on it. It is for this library's crates and asks things of them.
#![tactic(auto)]

pub mod inside;
pub mod parent;

// The polygon: its vertex list, its checks, and what may be said of a query. Here: the vertex list, the checks of
// document 01's lines 10 to 18, mixed grids. Each function is proved equal to its definition in specs/. Which edges are
// border is defined here, and worked out in crate corridors. The theorems about the verdict are here too; the judging
// call is in crate judging.
#![tactic(auto)]

pub mod checks;
pub mod grids;
mod quick;
pub mod vertices;

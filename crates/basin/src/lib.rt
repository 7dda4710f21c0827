// Document 02, P9: the basin profile. Pilot offices accept only simple outlines.
// Here: shared (two edges), pairs (the search over all pairs), profile (the call).
#![tactic(auto)]

pub mod pairs;
pub mod profile;
mod shared;

// Document 01's zone sheet. Here: opening one (20 to 24, 11 to 16, 19), reading, storing, writing. Each function is
// proved equal to its definition in specs/; both round trips are proved of the definitions.
#![tactic(auto)]

pub mod open;
pub mod read;
mod store;
pub mod write;

// Document 02, P7: the texts that can be imported, and their positions. Here: grammar (which texts they are, 30),
// number (numbers and positions, one byte after the other), decimals (up to seven at once), ring (31 to 33). Each
// function is proved equal to its definition in specs/.
#![tactic(auto)]

pub mod decimals;
pub mod grammar;
pub mod number;
pub mod ring;
mod tables;

// Document 02, P7: sine and cosine of whole ten-millionths of a degree, and the grid numbers of a position. Here:
// series (ten terms), pair (sine and cosine of one angle, as two f64), point (a position's grid numbers). Each function
// is proved equal to its definition in specs/, and the definitions are proved near the series as exact fractions.
#![tactic(auto)]

pub mod pair;
pub mod point;
mod series;

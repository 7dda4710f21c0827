// Directions about the reference point as numbers, azimuths, and the sector of an edge, the azimuths that it spans.
// What they tell: which edges a query does not notice, and which way others are crossed. Each function is proved equal
// to its definition in specs/.
#![tactic(auto)]

pub mod azimuth;
pub mod sectors;

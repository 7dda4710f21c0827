// How far a zone reaches, by its sheet's bytes: the verdict on its far side, and a box that holds all that is inside or
// boundary. Here, in order: sides (the box of a polygon), measure (an accepted polygon, then a sheet), boxes (the box
// in bytes).
#![tactic(auto)]

pub mod boxes;
pub mod measure;
mod sides;

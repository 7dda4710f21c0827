// Edges that join the same two directions, found, counted and marked: document 02's P3. Which edges are border is
// defined in crate polygon. Each function is proved equal to its definition in specs/.
#![tactic(auto)]

pub mod border;

// The search for the edges that matter to a query: boxes beside the polygon (document 02, P2), which edges are border
// (P3), and the walk over the edges, which hands back a tally. Each function is proved equal to its definition in
// specs/.
#![tactic(auto)]

pub mod arc;
pub mod border;
pub mod boxes;
pub mod looked;
mod scan;
mod spans;
pub mod walk;

// A zone, by its sheet's bytes: judging a query, judging a feed, and choosing a second point. Each function is proved
// equal to its definition in specs/.
#![tactic(auto)]

pub mod choose;
pub mod feeds;
pub mod judge;

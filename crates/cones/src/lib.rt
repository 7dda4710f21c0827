// The feed's index: cones about the reference point, each with a list of the edges that matter to the queries in it. A
// direction about the reference point is a number, its azimuth, and a cone is a range of them. A query in no cone goes by
// the boxes; so which cones there are, and which is tried, are hints, and any choice is right. What is said of a query is
// what a search by the boxes says.
#![tactic(auto)]

mod buckets;
pub mod build;
mod grow;
mod lists;
mod near;
pub mod query;
mod sure;
mod table;
mod told;
mod walk;

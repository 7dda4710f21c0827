// Big-endian numbers in slices of bytes: read, decoded in rows, and stored. A place that is read or stored lies within
// the slice: each caller shows that.
#![tactic(auto)]

pub mod read;
pub mod store;

// Document 02, P7: a sheet from a GeoJSON text. Here: ahead (decimals at once), scan (one pass over the
// text), import (the call).
#![tactic(auto)]

mod ahead;
pub mod import;
mod scan;

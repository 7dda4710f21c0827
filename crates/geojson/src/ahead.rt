// The decimals of a number at once. Here, in order: Reached, ahead.
ghost use Rattle.std.specs.Prelude.{◌≡◌, ◌≤◌, ◌<◌, length};
ghost use Rattle.positions.specs.Number.{Small};
ghost use Rattle.geojson.specs.Scan.{Past};

use positions::decimals::{Run, decimals};
use positions::grammar;
use positions::grammar::State;
use positions::number::Pending;

// The place that is read next, the grammar's state there, and the number that is being read.
#[derive(Clone, Copy)]
pub struct Reached {
    pub at: usize,
    pub state: State,
    pub pending: Pending,
}

// Past the decimals, if a point was read last: then the unit is that of whole degrees.
pub fn ahead(text: &[u8], i: usize, s: State, p: Pending) -> Reached
    requires { (i ≤ length text.now) × (s.at < 76) × (s.ring < 29) × Small p }
    ensures { Past text.now i s p result }
{
    if p.unit == 10000000 && grammar::is_point(s) {
        let Run { pending, count } = decimals(text, i, p);
        let state = State {
            at: s.at,
            ring: s.ring + count as u64,
        };
        return Reached {
            at: i + count,
            state,
            pending,
        };
    }
    Reached {
        at: i,
        state: s,
        pending: p,
    }
}

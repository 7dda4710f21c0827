// The first of two loops over a node's list: the entries whose edges span the query's azimuth are gathered, without a
// branch on it, which nobody can predict. Here: gather.
ghost use Rattle.std.specs.Prelude.{◌*◌, ◌-◌, ◌≤◌, length};
ghost use Rattle.azimuths.specs.Sectors.{is_missed_at};
ghost use Rattle.cones.specs.Lists.{Entries, Gathered};

use azimuths::sectors::is_missed_at;

// The entries before `to` whose edges span azimuth k, of n edges, from entry 0 on; the end of them.
pub fn gather(
    n: usize,
    sectors: &[u16],
    k: u16,
    list: &[u16],
    from: usize,
    to: usize,
    near: &mut [u16],
) -> usize
    requires n_in_bounds { (n * 2 ≤ length sectors.now) × Entries n list.now from to }
    requires from_le_to { (from ≤ to) × (to ≤ length list.now) × (to - from ≤ length near.old) }
    ensures { Gathered (is_missed_at sectors.now k) list.now near.new from to result }
{
    let mut end = 0;
    for e in from..to {
        let entry = list[e];
        near[end] = entry;
        if !is_missed_at(sectors, k, usize::from(entry)) {
            end += 1;
        }
    }
    end
}

// Parts of a list of edges: those that span an azimuth of a cone. Here, in order: Tail, filter; Part, sift; first_list.
ghost use Rattle.std.specs.Prelude.{◌+◌, ◌*◌, ◌-◌, ◌≤◌, length};
ghost use Rattle.azimuths.specs.Sectors.{is_missed, MissedIn};
ghost use Rattle.cones.specs.Cones.{Complete};
ghost use Rattle.cones.specs.Lists.{Entries, Filtered, Sifted};

use azimuths::sectors::{is_missed, is_passed};

// Where what is kept ends; and a hint, how many entries span the azimuth at hand and the next.
#[derive(Clone, Copy)]
pub struct Tail {
    pub end: usize,
    pub passed: usize,
}

// The entries before `to` that span an azimuth from lo to last, of n edges, from entry `to` on. The hint is of
// azimuth k.
fn filter(
    n: usize,
    sectors: &[u16],
    lo: u16,
    last: u16,
    k: u16,
    list: &mut [u16],
    from: usize,
    to: usize,
) -> Tail
    requires n_in_bounds { (n * 2 ≤ length sectors.now) × (lo ≤ last) }
    requires from_le_to { (from ≤ to) × (to + (to - from) ≤ length list.old) × Entries n list.old from to }
    ensures { Filtered (is_missed sectors.now lo last) list.old list.new from to
        result.end × (result.passed ≤ to - from) }
{
    let mut end = to;
    let mut passed = 0;
    for e in from..to {
        let entry = list[e];
        list[end] = entry;
        let i = usize::from(entry);
        if !is_missed(sectors, lo, last, i) {
            end += 1;
        }
        passed += usize::from(is_passed(sectors, k, i));
    }
    Tail { end, passed }
}

// Where a list stands on the stack of lists; and the same hint.
#[derive(Clone, Copy)]
pub struct Part {
    pub from: usize,
    pub to: usize,
    pub passed: usize,
}

// The same. Where all are kept the list itself will do, so that many such in a row take no room.
pub fn sift(
    n: usize,
    sectors: &[u16],
    lo: u16,
    last: u16,
    k: u16,
    list: &mut [u16],
    from: usize,
    to: usize,
) -> Part
    requires n_in_bounds { (n * 2 ≤ length sectors.now) × (lo ≤ last) }
    requires from_le_to { (from ≤ to) × (to + (to - from) ≤ length list.old) × Entries n list.old from to }
    ensures { Sifted (is_missed sectors.now lo last) list.old list.new from to result
        × (result.to - result.from ≤ to - from) × (result.passed ≤ to - from) }
{
    let tail = filter(n, sectors, lo, last, k, list, from, to);
    let end = tail.end;
    if end - to == to - from {
        return Part {
            from,
            to,
            passed: tail.passed,
        };
    }
    Part {
        from: to,
        to: end,
        passed: tail.passed,
    }
}

// All of n edges that span an azimuth from lo to last, from entry 0 on; the end of them.
pub fn first_list(n: usize, sectors: &[u16], lo: u16, last: u16, list: &mut [u16]) -> usize
    requires n_bound { (n ≤ 4096) × (n * 2 ≤ length sectors.now) × (lo ≤ last) }
    requires n_in_bounds { n ≤ length list.old }
    ensures { Complete (MissedIn sectors.now lo last) n list.new 0 result }
{
    let mut end = 0;
    for i in 0..n {
        list[end] = i as u16;
        if !is_missed(sectors, lo, last, i) {
            end += 1;
        }
    }
    end
}

// The number of edges looked at (document 02, P2). Here, in order: reach_of, looked_in, looked_before; is_counted,
// asks_boxes.
ghost use Rattle.std.specs.Prelude.{◌≡◌, ◌*◌, ◌-◌, ◌≤◌, ◌<◌};
ghost use Rattle.sphere.specs.Point.{limit_of};
ghost use Rattle.sphere.specs.Plane.{Sound};
ghost use Rattle.answer.specs.Search.{count_from};
ghost use Rattle.search.specs.Boxes.{run_count, run_end};
ghost use Rattle.search.specs.Spans.{Cornered};
ghost use Rattle.search.specs.Walk.{reach_of, Among, is_looked_by, is_counted, asks_boxes};

use crate::boxes;
use crate::walk::{Mode, Tally};
use sphere::plane::Plane;

// How many of n edges the search comes to, by what it said.
pub(crate) fn reach_of(tally: Tally, n: usize) -> usize
    requires { (n ≤ 4096) × Among tally n }
    ensures { result ≡ reach_of tally n }
{
    match tally {
        Tally::Held(edge) => edge + 1,
        Tally::Crossed(_, _) => n,
    }
}

// The edges of run r, of the first `reach`: all of them, or none.
fn looked_in(boxes: &[i32], plane: Plane, r: usize, reach: usize) -> u32
    requires sound { Sound plane × Cornered (limit_of plane.grid) boxes.now (run_count reach) }
    requires reach_bound { (reach ≤ 4096) × (r < run_count reach) }
    ensures { result ≡ count_from (is_looked_by boxes.now plane.normal) (r * 32)
        (run_end reach r - r * 32) }
{
    if boxes::is_apart(plane, boxes, r) {
        return 0;
    }
    (boxes::run_end(reach, r) - r * 32) as u32
}

// Of the first `reach` edges, those of runs that are not skipped.
pub(crate) fn looked_before(boxes: &[i32], plane: Plane, reach: usize) -> u32
    requires { Sound plane × Cornered (limit_of plane.grid) boxes.now (run_count reach) × (reach ≤ 4096) }
    ensures { result ≡ count_from (is_looked_by boxes.now plane.normal) 0 reach }
{
    let runs = boxes::run_count(reach);
    let mut count: u32 = 0;
    for r in 0..runs {
        count += looked_in(boxes, plane, r, reach);
    }
    count
}

// By the mode: whether it counts, and whether it asks the boxes.
pub(crate) fn is_counted(mode: Mode) -> bool
    ensures { result ≡ is_counted mode }
{
    matches!(mode, Mode::Counted)
}

pub fn asks_boxes(mode: Mode) -> bool
    ensures { result ≡ asks_boxes mode }
{
    matches!(mode, Mode::Boxed | Mode::Counted)
}

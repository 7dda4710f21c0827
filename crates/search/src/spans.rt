// Runs that are skipped and runs that are not (document 02, P2). Here, in order: next_run, run_start, Span, next_span.
ghost use Rattle.std.specs.Prelude.{◌≡◌, ◌-◌, ◌≤◌};
ghost use Rattle.sphere.specs.Point.{limit_of};
ghost use Rattle.sphere.specs.Plane.{Sound};
ghost use Rattle.search.specs.Arc.{Searchable};
ghost use Rattle.search.specs.Scan.{stop_from};
ghost use Rattle.search.specs.Spans.{run_start, Cornered, is_run, Spanned};

use crate::arc::Arc;
use crate::boxes;
use sphere::plane::Plane;

// The first run from r on that is skipped, or that is not: whose box lies strictly on one side of the plane, or not.
fn next_run(boxes: &[i32], plane: Plane, r: usize, runs: usize, skipped: bool) -> usize
    requires { Sound plane × Cornered (limit_of plane.grid) boxes.now runs }
    ensures { result ≡ stop_from (is_run boxes.now plane.normal skipped) r (runs - r) }
{
    for i in r..runs {
        if boxes::is_apart(plane, boxes, i) == skipped {
            return i;
        }
    }
    r.max(runs)
}

// The first edge of run r, or the end of n edges.
fn run_start(n: usize, r: usize) -> usize
    requires { r ≤ 130 }
    ensures { result ≡ run_start n r }
{
    n.min(r * 32)
}

// Edges that are walked together, and the run to go on from.
#[derive(Clone, Copy)]
pub struct Span {
    pub from: usize,
    pub to: usize,
    pub next: usize,
}

// From run r on: past the runs that are skipped, those that are not as far as they follow each other, so that no vertex
// between them is met twice. The run after them is skipped too. Where the boxes are not asked, all edges are one span.
pub fn next_span(vertices: &[i32], boxes: &[i32], arc: Arc, r: usize) -> Span
    requires { Searchable vertices.now boxes.now arc × (r ≤ 129) }
    ensures { Spanned vertices.now arc.from arc.to r result }
{
    let n = vertices.len() / 3;
    let runs = boxes::run_count(n);
    if arc.by_boxes {
        let first = next_run(boxes, arc.plane, r, runs, false);
        let end = next_run(boxes, arc.plane, first + 1, runs, true);
        return Span {
            from: run_start(n, first),
            to: run_start(n, end),
            next: end + 1,
        };
    }
    Span {
        from: run_start(n, r),
        to: n,
        next: runs + 1,
    }
}

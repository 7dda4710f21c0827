// One query by the feed's index. Here, in order: is_left_out, judge_indexed.
ghost use Rattle.std.specs.Prelude.{◌≡◌, ◌||◌, eqb};
ghost use Rattle.sphere.specs.Point.{limit_of, is_off_grid, Within};
ghost use Rattle.sphere.specs.Direction.{is_antipodal};
ghost use Rattle.polygon.specs.Pair.{judge_from, optional_check};
ghost use Rattle.polygon.specs.Verdict.{answer_of};
ghost use Rattle.search.specs.Boxes.{Boxed};
ghost use Rattle.cones.specs.Table.{IndexOn};

use answer::{Answer, Verdict};
use cones::build::Index;
use cones::query::tally_edges;
use judging::judge::{judge_boxed, verdict_on};
use search::walk::Mode;
use sphere::direction::antipodal;
use sphere::point::{Grid, Point, is_off_grid};

// The index is of the known point, and of queries on the grid that are not antipodal to it. Without nodes it is of none.
fn is_left_out(grid: Grid, nodes: usize, known: Point, query: Point) -> bool
    requires { Within (limit_of grid) known }
    ensures { result ≡ (eqb nodes 0 || (is_off_grid (limit_of grid) query || is_antipodal known query)) }
{
    nodes == 0 || is_off_grid(grid, query) || antipodal(known, query)
}

// Those that are left out are judged by the boxes.
pub fn judge_indexed(
    grid: Grid,
    vertices: &[i32],
    boxes: &[i32],
    sectors: &[u16],
    table: &[u16],
    buckets: &[u16],
    list: &[u16],
    near: &mut [u16],
    index: Index,
    known: Point,
    second: Point,
    query: Point,
    mode: Mode,
) -> Answer
    requires second_value { (optional_check (limit_of grid) vertices.now known second ≡ Ok tt)
        × Boxed vertices.now boxes.now }
    requires index_on { IndexOn vertices.now known sectors.now table.now list.now index }
    ensures { result ≡ answer_of (limit_of grid) vertices.now (judge_from known second query) query }
{
    if is_left_out(grid, index.nodes, known, query) {
        return judge_boxed(grid, vertices, boxes, known, second, query, mode).answer;
    }
    verdict_on(tally_edges(
        grid, vertices, boxes, sectors, table, buckets, list, near, index, known, query, mode,
    ))
}

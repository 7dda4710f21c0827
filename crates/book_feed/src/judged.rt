// Every query to an accepted polygon: by its planes, and what no plane separates from it by an index or the boxes. Here,
// in order: answer_for, add_judged. `indexed` says which of the two.
ghost use Rattle.std.specs.Prelude.{◌≡◌, ◌<◌};
ghost use Rattle.sphere.specs.Point.{limit_of};
ghost use Rattle.polygon.specs.Pair.{judge_from, optional_check};
ghost use Rattle.polygon.specs.Verdict.{answer_of};
ghost use Rattle.search.specs.Boxes.{Boxed};
ghost use Rattle.cones.specs.Table.{IndexOn};
ghost use Rattle.separation.specs.Separation.{away_of};
ghost use Rattle.separation.specs.Planes.{Sound};
ghost use Rattle.book_feed.specs.Adding.{Prepared, added_all, SameSets};

use crate::adding::add_to;
use answer::{Answer, Verdict};
use big_endian::read;
use cones::build::Index;
use feed::indexed::judge_indexed;
use feed::mode_for;
use separation::planes::{Planes, is_separated};
use sphere::point::{Grid, Point};

// An answer that names the single call's set: where a plane separates the query from the polygon, the one of all such.
fn answer_for(
    grid: Grid,
    vertices: &[i32],
    boxes: &[i32],
    sectors: &[u16],
    table: &[u16],
    buckets: &[u16],
    list: &[u16],
    near: &mut [u16],
    index: Index,
    planes: Planes,
    far: Answer,
    known: Point,
    second: Point,
    query: Point,
) -> Answer
    requires second_value { (optional_check (limit_of grid) vertices.now known second ≡ Ok tt)
        × Boxed vertices.now boxes.now }
    requires index_on { IndexOn vertices.now known sectors.now table.now list.now index }
    requires sound { Sound vertices.now planes × (far ≡ answer_of (limit_of grid) vertices.now
        (judge_from known second (away_of vertices.now)) (away_of vertices.now)) }
    ensures { SameSets result
        (answer_of (limit_of grid) vertices.now (judge_from known second query) query) }
{
    if is_separated(grid, vertices, planes, known, query) {
        return far;
    }
    let mode = mode_for(vertices.len());
    judge_indexed(
        grid, vertices, boxes, sectors, table, buckets, list, near, index, known, second, query,
        mode,
    )
}

// Every query.
pub fn add_judged(
    grid: Grid,
    vertices: &[i32],
    boxes: &[i32],
    sectors: &[u16],
    table: &[u16],
    buckets: &[u16],
    list: &[u16],
    near: &mut [u16],
    index: Index,
    planes: Planes,
    far: Answer,
    known: Point,
    second: Point,
    zone: u64,
    queries: &[u8],
    results: &mut [u8],
)
    requires second_value { (optional_check (limit_of grid) vertices.now known second ≡ Ok tt)
        × Boxed vertices.now boxes.now }
    requires index_on { IndexOn vertices.now known sectors.now table.now list.now index }
    requires sound { Sound vertices.now planes × (far ≡ answer_of (limit_of grid) vertices.now
        (judge_from known second (away_of vertices.now)) (away_of vertices.now)) }
    requires zone_bound { (zone < 64) × Prepared queries.now results.old zone }
    ensures { results.new ≡ added_all zone
        (λ P. answer_of (limit_of grid) vertices.now (judge_from known second P) P) queries.now
        results.old }
{
    let n = queries.len() / 12;
    for k in 0..n {
        let query = read::point_at(queries, k * 12);
        let answer = answer_for(
            grid, vertices, boxes, sectors, table, buckets, list, near, index, planes, far, known,
            second, query,
        );
        add_to(results, k * 24, zone, answer);
    }
}

// An index for the queries that are near a polygon, where there are enough of them. Here, in order: add_by_index;
// is_past, is_aside, near_one, near_at, is_worth (a guess); add_each.
ghost use Rattle.std.specs.Prelude.{◌≡◌, ◌≤◌, ◌<◌};
ghost use Rattle.sphere.specs.Point.{limit_of, fine, Within};
ghost use Rattle.polygon.specs.Pair.{judge_from, optional_check};
ghost use Rattle.polygon.specs.Verdict.{answer_of};
ghost use Rattle.search.specs.Boxes.{Boxed};
ghost use Rattle.feed.specs.Feed.{query_count};
ghost use Rattle.separation.specs.Separation.{away_of};
ghost use Rattle.separation.specs.Planes.{Sound};
ghost use Rattle.book_feed.specs.Adding.{Prepared, added_all};

use crate::judged::add_judged;
use answer::{Answer, Verdict};
use big_endian::read;
use cones::build::{build, no_index};
use separation::planes::Planes;
use sphere::orientation::dot;
use sphere::point::{Grid, Point, is_off_grid};

// Every query, by an index that is built first. Its arrays are on the stack here, where short feeds do not come.
fn add_by_index(
    grid: Grid,
    vertices: &[i32],
    boxes: &[i32],
    planes: Planes,
    far: Answer,
    known: Point,
    second: Point,
    zone: u64,
    queries: &[u8],
    results: &mut [u8],
)
    requires second_value { (optional_check (limit_of grid) vertices.now known second ≡ Ok tt)
        × Boxed vertices.now boxes.now }
    requires sound { Sound vertices.now planes × (far ≡ answer_of (limit_of grid) vertices.now
        (judge_from known second (away_of vertices.now)) (away_of vertices.now)) }
    requires zone_bound { (zone < 64) × Prepared queries.now results.old zone }
    ensures { results.new ≡ added_all zone
        (λ P. answer_of (limit_of grid) vertices.now (judge_from known second P) P) queries.now
        results.old }
{
    let mut sectors = [0u16; 8192];
    let mut table = [0u16; 2048];
    let mut buckets = [0u16; 1025];
    let mut list = [0u16; 9984];
    let mut stack = [0u16; 8192];
    let index = build(
        grid,
        vertices,
        known,
        &mut sectors,
        &mut table,
        &mut buckets,
        &mut list,
        &mut stack,
    );
    add_judged(
        grid, vertices, boxes, &sectors, &table, &buckets, &list, &mut stack, index, planes, far,
        known, second, zone, queries, results,
    )
}

// The guess tests the planes by functions of its own: one that is called in the loop over the pairs as well would no
// longer be compiled into it.
fn is_past(normal: Point, p: Point) -> bool
    requires { Within fine normal × Within fine p }
{
    dot(normal, p) < 0
}

fn is_aside(vertices: &[i32], planes: Planes, query: Point) -> bool
    requires { Sound vertices.now planes × Within fine query }
{
    let a = planes.a;
    let b = planes.b;
    let c = planes.c;
    let d = planes.d;
    if is_past(a, query) | is_past(b, query) {
        return true;
    }
    is_past(c, query) | is_past(d, query)
}

// 1 if the query is near the polygon, else 0.
fn near_one(grid: Grid, vertices: &[i32], planes: Planes, query: Point) -> usize
    requires { Sound vertices.now planes }
    ensures { result ≤ 1 }
{
    if is_off_grid(grid, query) {
        return 1;
    }
    if is_aside(vertices, planes, query) {
        return 0;
    }
    1
}

fn near_at(grid: Grid, vertices: &[i32], planes: Planes, queries: &[u8], k: usize) -> usize
    requires { Sound vertices.now planes × (k < query_count queries.now) }
    ensures { result ≤ 1 }
{
    let query = read::point_at(queries, k * 12);
    near_one(grid, vertices, planes, query)
}

// Whether so many queries are near the polygon that an index pays, as many as in a feed to one sheet: a guess, from at
// most 1,024 of them, spread over the feed. No result depends on it.
fn is_worth(grid: Grid, vertices: &[i32], planes: Planes, queries: &[u8]) -> bool
    requires { Sound vertices.now planes }
{
    let n = queries.len() / 12;
    let enough = vertices.len() / 24 + 128;
    if n < enough {
        return false;
    }
    let step = n / 1024 + 16;
    let mut near = 0;
    let mut k = 0;
    while k < n {
        near += near_at(grid, vertices, planes, queries, k);
        k += step;
    }
    near > (enough - 1) / step
}

// Every query, by the boxes beside the polygon or by an index. A case for each grid, as in a feed to one sheet: the
// compiler takes a function with one caller into that, and its arrays into the stack of short feeds.
pub fn add_each(
    grid: Grid,
    vertices: &[i32],
    boxes: &[i32],
    planes: Planes,
    far: Answer,
    known: Point,
    second: Point,
    zone: u64,
    queries: &[u8],
    results: &mut [u8],
)
    requires second_value { (optional_check (limit_of grid) vertices.now known second ≡ Ok tt)
        × Boxed vertices.now boxes.now }
    requires sound { Sound vertices.now planes × (far ≡ answer_of (limit_of grid) vertices.now
        (judge_from known second (away_of vertices.now)) (away_of vertices.now)) }
    requires zone_bound { (zone < 64) × Prepared queries.now results.old zone }
    ensures { results.new ≡ added_all zone
        (λ P. answer_of (limit_of grid) vertices.now (judge_from known second P) P) queries.now
        results.old }
{
    if is_worth(grid, vertices, planes, queries) {
        match grid {
            Grid::Coarse => {
                return add_by_index(
                    Grid::Coarse,
                    vertices,
                    boxes,
                    planes,
                    far,
                    known,
                    second,
                    zone,
                    queries,
                    results,
                );
            }
            Grid::Fine => {
                return add_by_index(
                    Grid::Fine,
                    vertices,
                    boxes,
                    planes,
                    far,
                    known,
                    second,
                    zone,
                    queries,
                    results,
                );
            }
        }
    }
    let none = [0u16; 1];
    let mut near = [0u16; 1];
    add_judged(
        grid,
        vertices,
        boxes,
        &none,
        &none,
        &none,
        &none,
        &mut near,
        no_index(),
        planes,
        far,
        known,
        second,
        zone,
        queries,
        results,
    )
}

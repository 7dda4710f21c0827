// The second of two loops over a node's list, over the entries whose edges span the query's azimuth alone. Here, in
// order: way_by, Told, tell (by sure sides); test_unsure, walk_near, tally_near (by all sides, where one is not sure).
ghost use Rattle.std.specs.Prelude.{◌≡◌, ◌-◌, ◌≤◌, ◌<◌, length};
ghost use Rattle.integers.specs.Sign.{unit_of};
ghost use Rattle.sphere.specs.Point.{limit_of, Within};
ghost use Rattle.polygon.specs.Checks.{accept_check};
ghost use Rattle.polygon.specs.Vertices.{vertices_count};
ghost use Rattle.polygon.specs.Verdict.{is_on_border, way_of};
ghost use Rattle.search.specs.Walk.{test_by, tally_from, NoneBefore};
ghost use Rattle.azimuths.specs.Sectors.{Idle, MissedIn, way_by, Telling};
ghost use Rattle.cones.specs.Cones.{Complete, Coming};

use crate::near::gather;
use crate::sure::sure_side;
use crate::walk::test_listed;
use answer::Verdict;
use azimuths::sectors::passage_at;
use polygon::vertices::{end_of, vertex_at};
use search::arc::arc_between;
use search::walk::{EdgeTest, Tally, counted, tally_by};
use sphere::plane::plane_through;
use sphere::point::{Grid, Point};

// Which way an edge is crossed whose ends lie on both sides of the arc: by whether the reference point is on its left,
// and whether the query is.
fn way_by(known: bool, query: bool) -> i32
    ensures { result ≡ unit_of (way_by known query) }
{
    if known == query {
        0
    } else if query {
        1
    } else {
        -1
    }
}

// How far a loop over a list has come, and the crossings of all edges up to there and their sum.
#[derive(Clone, Copy)]
pub struct Told {
    pub at: usize,
    pub crossed: u32,
    pub sum: i32,
}

// On from there, to the first entry of which a sure side and the azimuth do not tell. So this loop has no branch but to
// its end. The reference point is for the contract alone.
fn tell(
    grid: Grid,
    vertices: &[i32],
    known: Point,
    query: Point,
    sectors: &[u16],
    k: u16,
    list: &[u16],
    to: usize,
    mut told: Told,
) -> Told
    requires known_value { (accept_check (limit_of grid) vertices.now known ≡ Ok tt) × Within (limit_of grid) query }
    requires telling { Telling vertices.now known query sectors.now k }
    requires complete { Complete (Idle vertices.now known query) (vertices_count vertices.now) list.now 0 to
        × Coming vertices.now known query list.now to told }
    ensures { Coming vertices.now known query list.now to result × (told.at ≤ result.at) }
{
    while told.at < to {
        let i = usize::from(list[told.at]);
        let edge = plane_through(grid, vertex_at(vertices, i), end_of(vertices, i));
        let side = sure_side(edge, query);
        let passage = passage_at(sectors, k, i);
        let sure = side.sure & passage.inside;
        if !sure {
            break;
        }
        let way = way_by(passage.left, side.left);
        told.crossed += counted(way);
        told.sum += way;
        told.at += 1;
    }
    told
}

// One edge by all four sides. The arc is made here, so that the way to all other edges need not store it.
fn test_unsure(
    grid: Grid,
    vertices: &[i32],
    known: Point,
    query: Point,
    list: &[u16],
    to: usize,
    i: usize,
) -> EdgeTest
    requires known_value { (accept_check (limit_of grid) vertices.now known ≡ Ok tt) × Within (limit_of grid) query }
    requires i_bound { (i < vertices_count vertices.now) × NoneBefore vertices.now query i }
    requires complete { Complete (Idle vertices.now known query) (vertices_count vertices.now) list.now 0 to }
    ensures { result ≡ test_by (is_on_border vertices.now query i)
        (way_of vertices.now known query i) }
{
    let arc = arc_between(grid, known, query, true);
    test_listed(vertices, arc, list, to, i)
}

// What all edges say, by a list that is complete for the query.
fn walk_near(
    grid: Grid,
    vertices: &[i32],
    known: Point,
    query: Point,
    sectors: &[u16],
    k: u16,
    list: &[u16],
    to: usize,
) -> Tally
    requires known_value { (accept_check (limit_of grid) vertices.now known ≡ Ok tt) × Within (limit_of grid) query }
    requires telling { Telling vertices.now known query sectors.now k }
    requires complete { Complete (Idle vertices.now known query) (vertices_count vertices.now) list.now 0 to }
    ensures { result ≡ tally_from vertices.now known query 0 (vertices_count vertices.now) }
{
    let mut told = Told {
        at: 0,
        crossed: 0,
        sum: 0,
    };
    let found = loop {
        told = tell(grid, vertices, known, query, sectors, k, list, to, told);
        if told.at >= to {
            break None;
        }
        let i = usize::from(list[told.at]);
        let way = match test_unsure(grid, vertices, known, query, list, to, i) {
            EdgeTest::OnBorder => break Some(i),
            EdgeTest::Way(way) => way,
        };
        told.crossed += counted(way);
        told.sum += way;
        told.at += 1;
    };
    tally_by(found, told.crossed, told.sum)
}

// What all edges say, by the entries from `from` on before `to` of a list that is complete for azimuth k, which is the
// query's.
pub fn tally_near(
    grid: Grid,
    vertices: &[i32],
    known: Point,
    query: Point,
    sectors: &[u16],
    k: u16,
    list: &[u16],
    from: usize,
    to: usize,
    near: &mut [u16],
) -> Tally
    requires known_value { (accept_check (limit_of grid) vertices.now known ≡ Ok tt) × Within (limit_of grid) query
        × (to - from ≤ length near.old) }
    requires telling { Telling vertices.now known query sectors.now k }
    requires complete { Complete (MissedIn sectors.now k k) (vertices_count vertices.now) list.now from to }
    ensures { result ≡ tally_from vertices.now known query 0 (vertices_count vertices.now) }
{
    let end = gather(vertices.len() / 3, sectors, k, list, from, to, near);
    walk_near(grid, vertices, known, query, sectors, k, near, end)
}

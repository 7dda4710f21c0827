// The walk over a polygon's edges: document 01's 'When the arc crosses a side', and document 02's P2. Here, in order:
// EdgeTest, test_edge (one edge); counted, Tally, tally_by, walk_edges, walk_spans (some edges); tally_edges,
// Searched, uncounted, count_edges, Mode, search_edges (all). Which edges that hold the query are border: border.rt.
ghost use Rattle.std.specs.Prelude.{◌≡◌, cond, ◌-◌, ◌≤◌, ◌<◌};
ghost use Rattle.integers.specs.Sign.{sign_of, is_zero};
ghost use Rattle.sphere.specs.Point.{limit_of, Within};
ghost use Rattle.polygon.specs.Checks.{accept_check};
ghost use Rattle.polygon.specs.Vertices.{vertices_count};
ghost use Rattle.polygon.specs.Verdict.{way_of};
ghost use Rattle.search.specs.Arc.{AcceptedArc, Searchable};
ghost use Rattle.search.specs.Boxes.{Boxed};
ghost use Rattle.search.specs.Scan.{Sided, EndSides};
ghost use Rattle.search.specs.Walk.{test_by, tally_by, stops_at, tally_on, tally_from, looked_from};
ghost use Rattle.search.specs.Walk.{looked_in};

use crate::arc::{Arc, arc_between};
use crate::border::{stops_at, tally_arc, tally_held};
use crate::looked::{asks_boxes, is_counted, looked_before, reach_of};
use crate::scan::{Near, near_from, side_at};
use crate::spans::next_span;
use answer::Verdict;
use polygon::vertices::{end_of, vertex_at};
use sphere::crossing::{crossing_from, is_beside};
use sphere::plane::{plane_through, side_of};
use sphere::point::{Grid, Point};

// What one edge says of a query: it is border and holds it, or which way the arc crosses it (0: not at all). Here,
// where a walk asks for edges that hold the query, the first says so of any that does.
#[derive(Clone, Copy)]
pub enum EdgeTest {
    OnBorder,
    Way(i32),
}

// Its own two orientations are worked out only where its ends are not strictly on one side.
fn test_edge(vertices: &[i32], arc: Arc, stop: bool, near: Near) -> EdgeTest
    requires { AcceptedArc vertices.now arc × EndSides vertices.now arc.from arc.to near }
    ensures { result ≡ test_by (stops_at vertices.now arc.to stop near.edge)
        (way_of vertices.now arc.from arc.to near.edge) }
{
    if is_beside(near.start, near.end) {
        return EdgeTest::Way(0);
    }
    let i = near.edge;
    let plane = arc.plane;
    let grid = plane.grid;
    let edge = plane_through(grid, vertex_at(vertices, i), end_of(vertices, i));
    let side = side_of(edge, arc.to);
    if stops_at(vertices, arc, stop, i, side) {
        return EdgeTest::OnBorder;
    }
    EdgeTest::Way(crossing_from(edge, arc.from, near.start, near.end, side))
}

// What an edge adds to the count, by the way in which it is crossed.
pub fn counted(way: i32) -> u32
    ensures { result ≡ cond (is_zero (sign_of way)) 0 1 }
{
    u32::from(way != 0)
}

// What some edges say: the first that is border and holds the query, or by a walk any that holds it; or else the
// crossings and their sum.
#[derive(Clone, Copy)]
pub enum Tally {
    Held(usize),
    Crossed(u32, i32),
}

pub fn tally_by(found: Option<usize>, crossed: u32, sum: i32) -> Tally
    ensures { result ≡ tally_by found crossed sum }
{
    match found {
        None => Tally::Crossed(crossed, sum),
        Some(edge) => Tally::Held(edge),
    }
}

// One pass over the edges before `to`: the first that holds the query ends it, or none where `stop` says so, and the
// crossings are counted and summed on the way. `closing` is the side of vertex 0.
fn walk_edges(vertices: &[i32], arc: Arc, closing: i64, from: usize, to: usize, stop: bool) -> Tally
    requires accepted_arc { AcceptedArc vertices.now arc × Sided vertices.now arc.plane.normal 0 closing }
    requires from_lt_to { (from < to) × (to ≤ vertices_count vertices.now) }
    ensures { result ≡ tally_on (stops_at vertices.now arc.to stop) vertices.now arc.from
        arc.to from (to - from) }
{
    let mut i = from;
    let mut side = side_at(vertices, arc.plane, closing, from);
    let mut crossed: u32 = 0;
    let mut sum: i32 = 0;
    let found = loop {
        let near = near_from(vertices, arc, closing, i, side, to);
        if near.edge >= to {
            break None;
        }
        let way = match test_edge(vertices, arc, stop, near) {
            EdgeTest::OnBorder => break Some(near.edge),
            EdgeTest::Way(way) => way,
        };
        crossed += counted(way);
        sum += way;
        i = near.edge + 1;
        side = near.end;
    };
    tally_by(found, crossed, sum)
}

// All edges from `from` on but those of runs that are skipped, in order, as far as walk_edges goes.
pub(crate) fn walk_spans(
    vertices: &[i32],
    boxes: &[i32],
    arc: Arc,
    from: usize,
    stop: bool,
) -> Tally
    requires { Searchable vertices.now boxes.now arc × (from < vertices_count vertices.now) }
    ensures { result ≡ tally_on (stops_at vertices.now arc.to stop) vertices.now arc.from
        arc.to from (vertices_count vertices.now - from) }
{
    let closing = side_of(arc.plane, vertex_at(vertices, 0));
    let mut r = from / 32;
    let mut crossed: u32 = 0;
    let mut sum: i32 = 0;
    let found = loop {
        let span = next_span(vertices, boxes, arc, r);
        if span.from >= span.to {
            break None;
        }
        let begin = from.max(span.from);
        match walk_edges(vertices, arc, closing, begin, span.to, stop) {
            Tally::Held(edge) => break Some(edge),
            Tally::Crossed(more, ways) => {
                crossed += more;
                sum += ways;
            }
        }
        r = span.next;
    };
    tally_by(found, crossed, sum)
}

// What all edges say of a query: by the boxes beside the polygon, or by all of it. As tally_arc: so that tally_held has
// two callers, and the compiler leaves that rare path out of either.
fn tally_edges(
    grid: Grid,
    vertices: &[i32],
    boxes: &[i32],
    known: Point,
    query: Point,
    by_boxes: bool,
) -> Tally
    requires { (accept_check (limit_of grid) vertices.now known ≡ Ok tt) × Within (limit_of grid) query
        × Boxed vertices.now boxes.now }
    ensures { result ≡ tally_from vertices.now known query 0 (vertices_count vertices.now) }
{
    let arc = arc_between(grid, known, query, by_boxes);
    match walk_spans(vertices, boxes, arc, 0, true) {
        Tally::Held(edge) => tally_held(vertices, boxes, arc, edge),
        crossed => crossed,
    }
}

// The same, and how many edges are looked at for it (document 02, P2).
#[derive(Clone, Copy)]
pub struct Searched {
    pub tally: Tally,
    pub looked: u32,
}

fn uncounted(tally: Tally) -> Searched
    ensures { (result.tally ≡ tally) × (result.looked ≡ 0) }
{
    Searched { tally, looked: 0 }
}

fn count_edges(grid: Grid, vertices: &[i32], boxes: &[i32], known: Point, query: Point) -> Searched
    requires { (accept_check (limit_of grid) vertices.now known ≡ Ok tt) × Within (limit_of grid) query
        × Boxed vertices.now boxes.now }
    ensures { (result.tally ≡ tally_from vertices.now known query 0 (vertices_count vertices.now))
        × (result.looked ≡ looked_from vertices.now known query 0 (vertices_count vertices.now)) }
{
    let arc = arc_between(grid, known, query, true);
    let tally = tally_arc(vertices, boxes, arc);
    let looked = looked_before(boxes, arc.plane, reach_of(tally, vertices.len() / 3));
    Searched { tally, looked }
}

// How all edges are searched: every one; those that the boxes leave; or these, and their number is worked out.
#[derive(Clone, Copy)]
pub enum Mode {
    Plain,
    Boxed,
    Counted,
}

// With one call of tally_edges, which the compiler then takes in.
pub fn search_edges(
    grid: Grid,
    vertices: &[i32],
    boxes: &[i32],
    known: Point,
    query: Point,
    mode: Mode,
) -> Searched
    requires { (accept_check (limit_of grid) vertices.now known ≡ Ok tt) × Within (limit_of grid) query
        × Boxed vertices.now boxes.now }
    ensures { (result.tally ≡ tally_from vertices.now known query 0 (vertices_count vertices.now))
        × (result.looked ≡ looked_in mode (looked_from vertices.now known query 0
        (vertices_count vertices.now))) }
{
    if is_counted(mode) {
        return count_edges(grid, vertices, boxes, known, query);
    }
    uncounted(tally_edges(grid, vertices, boxes, known, query, asks_boxes(mode)))
}

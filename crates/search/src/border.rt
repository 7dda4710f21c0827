// Which edge that holds the query is border: document 02's P3. Here, in order: stops_at, mark_class, is_border (one
// edge); next_held, joins, next_other, is_new_border, first_border (those that hold it); tally_marked,
// tally_past, tally_held, tally_arc (what all edges say). Edges that join the same two directions, a class, hold the
// same points and are border together: each class is counted once, from its first edge on.
ghost use Rattle.std.specs.Prelude.{◌≡◌, true, false, ◌+◌, ◌-◌, ◌/◌, ◌<◌};
ghost use Rattle.integers.specs.Sign.{sign_of};
ghost use Rattle.sphere.specs.Orientation.{orientation_of};
ghost use Rattle.answer.specs.Search.{first_from, count_from};
ghost use Rattle.sphere.specs.Point.{fine, Within};
ghost use Rattle.polygon.specs.Accepted.{Gridded};
ghost use Rattle.polygon.specs.Vertices.{vertices_count, start_of, end_of};
ghost use Rattle.polygon.specs.Border.{is_coincident, is_border};
ghost use Rattle.polygon.specs.Verdict.{is_held_by, boundary_of};
ghost use Rattle.corridors.specs.Marked.{Marked};
ghost use Rattle.search.specs.Arc.{AcceptedArc, Searchable};
ghost use Rattle.search.specs.Spans.{run_start};
ghost use Rattle.search.specs.Walk.{tally_from, stops_at};
ghost use Rattle.search.specs.Border.{Foremost, ClassMarked, NextHeld};
ghost use Rattle.search.specs.Border.{NextOther, Settled};

use crate::arc::{Arc, arc_between};
use crate::spans::next_span;
use crate::walk::{Tally, walk_spans};
use answer::Verdict;
use corridors::border::mark_edges;
use polygon::vertices::{end_of, vertex_at};
use sphere::direction::same_direction;
use sphere::edge::on_edge_by;
use sphere::point::Point;

// Whether the walk ends at edge i: if it holds the query, and `stop` says so. By side, which has the sign of the
// orientation of its ends and the query.
pub(crate) fn stops_at(vertices: &[i32], arc: Arc, stop: bool, i: usize, side: i64) -> bool
    requires accepted_arc { AcceptedArc vertices.now arc × (i < vertices_count vertices.now) }
    requires side_value { sign_of side ≡ sign_of (orientation_of (start_of vertices.now i) (end_of vertices.now i) arc.to) }
    ensures { result ≡ stops_at vertices.now arc.to stop i }
{
    on_edge_by(vertex_at(vertices, i), end_of(vertices, i), arc.to, side) && stop
}

// How many edges from the run of edge i on join the same two directions. They are marked, as far as there are marks. A
// run that is skipped has none: one that is coincident with an edge that holds the query is not strictly on one side.
fn mark_class(vertices: &[i32], boxes: &[i32], arc: Arc, i: usize, marks: &mut [u8]) -> u32
    requires { Searchable vertices.now boxes.now arc × (i < vertices_count vertices.now)
        × (is_held_by vertices.now arc.to i ≡ true) }
    ensures { (result ≡ count_from (is_coincident vertices.now (start_of vertices.now i)
        (end_of vertices.now i)) (run_start (vertices_count vertices.now) (i / 32))
        (vertices_count vertices.now - run_start (vertices_count vertices.now) (i / 32)))
        × Marked (is_coincident vertices.now (start_of vertices.now i)
        (end_of vertices.now i)) (run_start (vertices_count vertices.now) (i / 32))
        (vertices_count vertices.now) marks.old marks.new }
{
    let c = vertex_at(vertices, i);
    let d = end_of(vertices, i);
    let mut r = i / 32;
    let mut count: u32 = 0;
    loop {
        let span = next_span(vertices, boxes, arc, r);
        if span.from >= span.to {
            return count;
        }
        count += mark_edges(vertices, c, d, span.from, span.to, marks);
        r = span.next;
    }
}

// Edge i is border, where it is the first of its class. All of the class are marked.
fn is_border(vertices: &[i32], boxes: &[i32], arc: Arc, i: usize, marks: &mut [u8]) -> bool
    requires { Searchable vertices.now boxes.now arc × (i < vertices_count vertices.now)
        × (is_held_by vertices.now arc.to i ≡ true) × Foremost vertices.now i }
    ensures { (result ≡ is_border vertices.now i)
        × ClassMarked vertices.now i marks.old marks.new }
{
    mark_class(vertices, boxes, arc, i, marks) % 2 == 1
}

// The first edge from `from` on that holds the query.
fn next_held(vertices: &[i32], boxes: &[i32], arc: Arc, from: usize) -> Option<usize>
    requires { Searchable vertices.now boxes.now arc × (from < vertices_count vertices.now) }
    ensures { NextHeld vertices.now arc.to from result }
{
    match walk_spans(vertices, boxes, arc, from, true) {
        Tally::Held(edge) => Some(edge),
        Tally::Crossed(_, _) => None,
    }
}

// Edge j joins the directions of c and d. As corridors::border::coincident, which the compiler takes into the walk over
// an index only while it has no third caller.
fn joins(vertices: &[i32], c: Point, d: Point, j: usize) -> bool
    requires { Gridded fine vertices.now × (j < vertices_count vertices.now) × Within fine c × Within fine d }
    ensures { result ≡ is_coincident vertices.now c d j }
{
    let a = vertex_at(vertices, j);
    let b = end_of(vertices, j);
    let straight = same_direction(c, a) & same_direction(d, b);
    let crossed = same_direction(c, b) & same_direction(d, a);
    straight | crossed
}

// The next one after edge `first` that is not of its class.
fn next_other(vertices: &[i32], boxes: &[i32], arc: Arc, first: usize) -> Option<usize>
    requires { Searchable vertices.now boxes.now arc × (first < vertices_count vertices.now) }
    ensures { NextOther vertices.now arc.to first result }
{
    let n = vertices.len() / 3;
    let c = vertex_at(vertices, first);
    let d = end_of(vertices, first);
    let mut i = first + 1;
    while i < n {
        let edge = next_held(vertices, boxes, arc, i)?;
        if !joins(vertices, c, d, edge) {
            return Some(edge);
        }
        i = edge + 1;
    }
    None
}

// Edge i, which holds the query, is border. One that is marked is not: its class was counted.
fn is_new_border(vertices: &[i32], boxes: &[i32], arc: Arc, i: usize, marks: &mut [u8]) -> bool
    requires { Searchable vertices.now boxes.now arc × (i < vertices_count vertices.now)
        × (is_held_by vertices.now arc.to i ≡ true) × Settled vertices.now arc.to i marks.old }
    ensures { (result ≡ is_border vertices.now i)
        × (result ≡ false → Settled vertices.now arc.to (i + 1) marks.new) }
{
    marks[i] != 1 && is_border(vertices, boxes, arc, i, marks)
}

// The first border edge that holds the query, by marks: one for each edge whose class was counted, and is no border.
fn first_border(vertices: &[i32], boxes: &[i32], arc: Arc) -> Option<usize>
    requires { Searchable vertices.now boxes.now arc }
    ensures { result ≡ boundary_of vertices.now arc.to }
{
    let n = vertices.len() / 3;
    let mut marks = [0u8; 4096];
    let mut i = 0;
    while i < n {
        let edge = next_held(vertices, boxes, arc, i)?;
        if is_new_border(vertices, boxes, arc, edge, &mut marks) {
            return Some(edge);
        }
        i = edge + 1;
    }
    None
}

// What all edges say, whichever of those that hold the query are border. Many may hold it, so the boxes are not asked
// again for each of them.
fn tally_marked(vertices: &[i32], boxes: &[i32], arc: Arc) -> Tally
    requires { Searchable vertices.now boxes.now arc }
    ensures { result ≡ tally_from vertices.now arc.from arc.to 0
        (vertices_count vertices.now) }
{
    let plane = arc.plane;
    let grid = plane.grid;
    let whole = arc_between(grid, arc.from, arc.to, false);
    match first_border(vertices, boxes, whole) {
        None => walk_spans(vertices, boxes, arc, 0, false),
        Some(edge) => Tally::Held(edge),
    }
}

// The same, where the first edge that holds the query is no border. Most often those that hold it are of one class, or
// of two of which the other is border, and no mark is needed.
fn tally_past(vertices: &[i32], boxes: &[i32], arc: Arc, first: usize) -> Tally
    requires searchable { Searchable vertices.now boxes.now arc × (is_border vertices.now first ≡ false) }
    requires vertices_value { first_from (stops_at vertices.now arc.to true) 0 (vertices_count vertices.now) ≡ Some first }
    ensures { result ≡ tally_from vertices.now arc.from arc.to 0
        (vertices_count vertices.now) }
{
    let Some(other) = next_other(vertices, boxes, arc, first) else {
        return walk_spans(vertices, boxes, arc, 0, false);
    };
    let mut unmarked = [0u8; 1];
    if is_border(vertices, boxes, arc, other, &mut unmarked) {
        return Tally::Held(other);
    }
    tally_marked(vertices, boxes, arc)
}

// The same, where `first` is the first edge that holds the query. Most often it is border.
pub(crate) fn tally_held(vertices: &[i32], boxes: &[i32], arc: Arc, first: usize) -> Tally
    requires searchable { Searchable vertices.now boxes.now arc }
    requires vertices_value { first_from (stops_at vertices.now arc.to true) 0 (vertices_count vertices.now) ≡ Some first }
    ensures { result ≡ tally_from vertices.now arc.from arc.to 0
        (vertices_count vertices.now) }
{
    let mut unmarked = [0u8; 1];
    if is_border(vertices, boxes, arc, first, &mut unmarked) {
        return Tally::Held(first);
    }
    tally_past(vertices, boxes, arc, first)
}

// What all edges say of a query, by the arc to it.
pub fn tally_arc(vertices: &[i32], boxes: &[i32], arc: Arc) -> Tally
    requires { Searchable vertices.now boxes.now arc }
    ensures { result ≡ tally_from vertices.now arc.from arc.to 0
        (vertices_count vertices.now) }
{
    match walk_spans(vertices, boxes, arc, 0, true) {
        Tally::Held(edge) => tally_held(vertices, boxes, arc, edge),
        crossed => crossed,
    }
}

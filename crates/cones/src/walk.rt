// One edge of a list that is complete for the query. Here, in order: is_border, is_on_border, test_listed. Edges that
// join the same two directions hold the same points: those that are coincident with an edge that holds the query are on
// the list too.
ghost use Rattle.std.specs.Prelude.{◌≡◌, false, ◌<◌};
ghost use Rattle.integers.specs.Sign.{sign_of};
ghost use Rattle.sphere.specs.Point.{fine};
ghost use Rattle.sphere.specs.Orientation.{orientation_of};
ghost use Rattle.polygon.specs.Accepted.{Listed, Gridded};
ghost use Rattle.polygon.specs.Border.{is_coincident, is_border};
ghost use Rattle.polygon.specs.Vertices.{vertices_count, start_of, end_of};
ghost use Rattle.polygon.specs.Verdict.{is_on_border, way_of};
ghost use Rattle.search.specs.Arc.{AcceptedArc};
ghost use Rattle.search.specs.Walk.{test_by, NoneBefore};
ghost use Rattle.azimuths.specs.Sectors.{Idle};
ghost use Rattle.cones.specs.Cones.{Complete, EarlierTell};

use corridors::border::coincident;
use polygon::vertices::{end_of, vertex_at};
use search::arc::Arc;
use search::walk::EdgeTest;
use sphere::crossing::{crossing_from, is_beside};
use sphere::edge::on_edge_by;
use sphere::plane::{plane_through, side_of};

// Edge i is border, where all edges that join the same two directions are listed. Where one of them is before it, the
// walk came past that one, so it is no border; nor is i, and nothing more is counted.
fn is_border(vertices: &[i32], list: &[u16], to: usize, i: usize) -> bool
    requires listed { Listed vertices.now × Gridded fine vertices.now × (i < vertices_count vertices.now)
        × EarlierTell vertices.now i }
    requires complete { Complete (λ j. is_coincident vertices.now (start_of vertices.now i) (end_of vertices.now i) j
        ≡ false) (vertices_count vertices.now) list.now 0 to }
    ensures { result ≡ is_border vertices.now i }
{
    let a = vertex_at(vertices, i);
    let b = end_of(vertices, i);
    let mut count: u32 = 0;
    for e in 0..to {
        let j = usize::from(list[e]);
        let more = coincident(vertices, a, b, j);
        if j < i && more == 1 {
            return false;
        }
        count += more;
    }
    count % 2 == 1
}

// Edge i holds the query and is border; by side, which has the sign of the orientation of its ends and the query.
fn is_on_border(vertices: &[i32], arc: Arc, list: &[u16], to: usize, i: usize, side: i64) -> bool
    requires accepted_arc { AcceptedArc vertices.now arc × (i < vertices_count vertices.now)
        × NoneBefore vertices.now arc.to i }
    requires complete { Complete (Idle vertices.now arc.from arc.to) (vertices_count vertices.now) list.now
        0 to }
    requires side_value { sign_of side ≡ sign_of (orientation_of (start_of vertices.now i) (end_of vertices.now i) arc.to) }
    ensures { result ≡ is_on_border vertices.now arc.to i }
{
    on_edge_by(vertex_at(vertices, i), end_of(vertices, i), arc.to, side)
        && is_border(vertices, list, to, i)
}

// What edge i says of the query. Its own two orientations are worked out only where its ends are not strictly on one
// side of the arc's plane.
pub(crate) fn test_listed(vertices: &[i32], arc: Arc, list: &[u16], to: usize, i: usize) -> EdgeTest
    requires accepted_arc { AcceptedArc vertices.now arc × (i < vertices_count vertices.now)
        × NoneBefore vertices.now arc.to i }
    requires complete { Complete (Idle vertices.now arc.from arc.to) (vertices_count vertices.now) list.now
        0 to }
    ensures { result ≡ test_by (is_on_border vertices.now arc.to i)
        (way_of vertices.now arc.from arc.to i) }
{
    let plane = arc.plane;
    let a = vertex_at(vertices, i);
    let b = end_of(vertices, i);
    let s1 = side_of(plane, a);
    let s2 = side_of(plane, b);
    if is_beside(s1, s2) {
        return EdgeTest::Way(0);
    }
    let grid = plane.grid;
    let edge = plane_through(grid, a, b);
    let side = side_of(edge, arc.to);
    if is_on_border(vertices, arc, list, to, i, side) {
        return EdgeTest::OnBorder;
    }
    EdgeTest::Way(crossing_from(edge, arc.from, s1, s2, side))
}

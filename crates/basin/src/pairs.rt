// The first pair of edges that offends. Here, in order: closes, offends, Near, next_near, first_pair.
// A row is an edge with those after it: its plane is made once, and the side of each vertex worked out once.
ghost use Rattle.std.specs.Prelude.{◌≡◌, ◌&&◌, ◌+◌, ◌≤◌, ◌<◌, eqb};
ghost use Rattle.integers.specs.Sign.{sign_of};
ghost use Rattle.sphere.specs.Point.{limit_of};
ghost use Rattle.sphere.specs.Plane.{Sound};
ghost use Rattle.polygon.specs.Accepted.{Gridded};
ghost use Rattle.polygon.specs.Checks.{polygon_check};
ghost use Rattle.polygon.specs.Vertices.{vertices_count};
ghost use Rattle.basin.specs.Pairs.{is_offending, first_pair_of, Sides, side_of, NearFrom};

use crate::shared::{Edge, shares, shares_beyond};
use polygon::vertices::{end_of, vertex_at};
use sphere::crossing::is_beside;
use sphere::plane::{Plane, plane_through, side_of};
use sphere::point::Grid;

// Edge i is the first of n and edge j the last, so that they are neighbours.
fn closes(n: usize, i: usize, j: usize) -> bool
    requires { j < n }
    ensures { result ≡ (eqb i 0 && eqb (j + 1) n) }
{
    i == 0 && j + 1 == n
}

// The full test of edge i and the later edge j, whose ends have the sides s1 and s2.
fn offends(grid: Grid, vertices: &[i32], i: usize, j: usize, s1: i64, s2: i64) -> bool
    requires vertices_value { polygon_check (limit_of grid) vertices.now ≡ Ok tt }
    requires i_lt_j { (i < j) × (j < vertices_count vertices.now) × Sides vertices.now i j s1 s2 }
    ensures { result ≡ is_offending vertices.now i j }
{
    let a = vertex_at(vertices, i);
    let b = end_of(vertices, i);
    let c = vertex_at(vertices, j);
    let d = end_of(vertices, j);
    if j == i + 1 {
        return shares_beyond(a, b, d, s2);
    }
    if closes(vertices.len() / 3, i, j) {
        return shares_beyond(c, a, b, s1);
    }
    shares(
        grid,
        Edge { start: a, end: b },
        Edge { start: c, end: d },
        s1,
        s2,
    )
}

// An edge where a scan stops, and the sides of its ends.
#[derive(Clone, Copy)]
struct Near {
    edge: usize,
    start: i64,
    end: i64,
}

// Past the edges from j on, before the last, whose ends are strictly on one side of the row's plane: most edges are, so
// this is the inner loop, a vertex a turn. `side` is that of vertex j. The last edge ends at vertex 0, whose side is
// `closing`. A loop of its own, so that the compiled one holds nothing of the full test.
fn next_near(vertices: &[i32], plane: Plane, closing: i64, j: usize, side: i64, last: usize) -> Near
    requires gridded { Gridded (limit_of plane.grid) vertices.now × Sound plane × (vertices_count vertices.now ≤ 4096) }
    requires j_le_last { (j ≤ last) × (last + 1 ≡ vertices_count vertices.now) }
    requires side_value { (sign_of side ≡ sign_of (side_of vertices.now plane.normal j))
        × (sign_of closing ≡ sign_of (side_of vertices.now plane.normal 0)) }
    ensures { NearFrom vertices.now plane.normal j last result }
{
    let mut start = side;
    for edge in j..last {
        let end = side_of(plane, vertex_at(vertices, edge + 1));
        if !is_beside(start, end) {
            return Near { edge, start, end };
        }
        start = end;
    }
    Near {
        edge: last,
        start,
        end: closing,
    }
}

// The lowest first edge, then the lowest second one; the search stops there. Vertex i + 1 lies in the plane of its row.
pub(crate) fn first_pair(grid: Grid, vertices: &[i32]) -> Option<(usize, usize)>
    requires { polygon_check (limit_of grid) vertices.now ≡ Ok tt }
    ensures { result ≡ first_pair_of vertices.now }
{
    let last = vertices.len() / 3 - 1;
    'pairs: {
        for i in 0..last {
            let plane = plane_through(grid, vertex_at(vertices, i), vertex_at(vertices, i + 1));
            let closing = side_of(plane, vertex_at(vertices, 0));
            let mut j = i + 1;
            let mut side = 0;
            while j <= last {
                let near = next_near(vertices, plane, closing, j, side, last);
                if offends(grid, vertices, i, near.edge, near.start, near.end) {
                    break 'pairs Some((i, near.edge));
                }
                side = near.end;
                j = near.edge + 1;
            }
        }
        None
    }
}

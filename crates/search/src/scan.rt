// Scans past edges that cannot matter: the inner loops of the walk. Here, in order: Near, past_sure, skip_fine, skip,
// next_near (by sides of a plane); last_inner, side_at, near_from (by an arc).
ghost use Rattle.std.specs.Prelude.{◌≡◌, ◌+◌, ◌-◌, ◌≤◌, ◌<◌};
ghost use Rattle.integers.specs.Sign.{sign_of};
ghost use Rattle.sphere.specs.declared.point.Grid.TheVariants.{Fine};
ghost use Rattle.sphere.specs.Point.{fine, limit_of};
ghost use Rattle.sphere.specs.Plane.{Sound};
ghost use Rattle.polygon.specs.Accepted.{Listed, Gridded};
ghost use Rattle.polygon.specs.Vertices.{vertices_count, next_of};
ghost use Rattle.search.specs.Arc.{AcceptedArc};
ghost use Rattle.search.specs.Scan.{side_of, Sided, Strict, is_near, Scanning, stop_from, last_inner};
ghost use Rattle.search.specs.Scan.{NearFrom};

use crate::arc::Arc;
use polygon::vertices::vertex_at;
use sphere::approximate::{float_dot, is_surely};
use sphere::crossing::is_beside;
use sphere::plane::{Plane, side_of};
use sphere::point::Grid;

// An edge where a scan stops, and the sides of its ends.
#[derive(Clone, Copy)]
pub struct Near {
    pub edge: usize,
    pub start: i64,
    pub end: i64,
}

// Past edges from i on, before `last`, whose ends are surely on the side that vertex i is on. By floats alone, as most
// vertices of the fine grid need no more; two a turn, which the machine works out together.
fn past_sure(vertices: &[i32], plane: Plane, above: bool, i: usize, last: usize) -> usize
    requires listed { Listed vertices.now × Gridded fine vertices.now × Sound plane × (plane.grid ≡ Fine) }
    requires i_bound { (i ≤ vertices_count vertices.now) × (last < vertices_count vertices.now)
        × Strict vertices.now plane.normal above i }
    ensures { Scanning (is_near vertices.now plane.normal) i last result
        × Strict vertices.now plane.normal above result }
{
    let mut edge = i;
    while edge + 1 < last {
        let first = float_dot(plane.floats, vertex_at(vertices, edge + 1));
        let second = float_dot(plane.floats, vertex_at(vertices, edge + 2));
        let sure = is_surely(first, above) & is_surely(second, above);
        if !sure {
            return edge;
        }
        edge += 2;
    }
    edge
}

// The same from vertex i with this side, on the fine grid.
fn skip_fine(vertices: &[i32], plane: Plane, i: usize, side: i64, last: usize) -> usize
    requires listed { Listed vertices.now × Gridded fine vertices.now × Sound plane × (plane.grid ≡ Fine) }
    requires i_bound { (i ≤ vertices_count vertices.now) × (last < vertices_count vertices.now)
        × Sided vertices.now plane.normal i side }
    ensures { Scanning (is_near vertices.now plane.normal) i last result
        × Sided vertices.now plane.normal result side }
{
    if side > 0 {
        return past_sure(vertices, plane, true, i, last);
    }
    if side < 0 {
        return past_sure(vertices, plane, false, i, last);
    }
    i
}

// On the coarse grid no float is worked out.
fn skip(vertices: &[i32], plane: Plane, i: usize, side: i64, last: usize) -> usize
    requires listed { Listed vertices.now × Gridded (limit_of plane.grid) vertices.now × Sound plane }
    requires i_bound { (i ≤ vertices_count vertices.now) × (last < vertices_count vertices.now)
        × Sided vertices.now plane.normal i side }
    ensures { Scanning (is_near vertices.now plane.normal) i last result
        × Sided vertices.now plane.normal result side }
{
    let grid = plane.grid;
    match grid {
        Grid::Coarse => i,
        Grid::Fine => skip_fine(vertices, plane, i, side, last),
    }
}

// Past the edges from i on, before `last`, whose ends are strictly on one side. Most edges of a run are, so this is the
// inner loop: a vertex a turn. `side` is that of vertex i. Only the edge after them may go back to vertex 0, whose side
// is `closing`.
fn next_near(vertices: &[i32], plane: Plane, closing: i64, i: usize, side: i64, last: usize) -> Near
    requires listed { Listed vertices.now × Gridded (limit_of plane.grid) vertices.now × Sound plane }
    requires i_bound { (i ≤ vertices_count vertices.now) × (last < vertices_count vertices.now) }
    requires sided { Sided vertices.now plane.normal i side × Sided vertices.now plane.normal 0 closing }
    ensures { (result.edge ≡ stop_from (is_near vertices.now plane.normal) i (last - i))
        × Sided vertices.now plane.normal result.edge result.start
        × Sided vertices.now plane.normal (next_of (last + 1) result.edge) result.end }
{
    let first = skip(vertices, plane, i, side, last);
    let mut s1 = side;
    for edge in first..last {
        let s2 = side_of(plane, vertex_at(vertices, edge + 1));
        if !is_beside(s1, s2) {
            return Near {
                edge,
                start: s1,
                end: s2,
            };
        }
        s1 = s2;
    }
    Near {
        edge: first.max(last),
        start: s1,
        end: closing,
    }
}

// The end of those of the edges before `to` that do not go back to vertex 0.
#[tactic(auto, unfolding(crate::specs::Scan::last_inner))]
fn last_inner(n: usize, to: usize) -> usize
    requires { 0 < n }
    ensures { result ≡ last_inner n to }
{
    to.min(n - 1)
}

// The side of vertex i, where that of vertex 0 is known.
pub fn side_at(vertices: &[i32], plane: Plane, closing: i64, i: usize) -> i64
    requires gridded { Gridded (limit_of plane.grid) vertices.now × Sound plane × (i < vertices_count vertices.now) }
    requires sided { Sided vertices.now plane.normal 0 closing }
    ensures { sign_of result ≡ sign_of (side_of vertices.now plane.normal i) }
{
    if i == 0 {
        return closing;
    }
    side_of(plane, vertex_at(vertices, i))
}

// The first edge from i on, before `to`, whose ends are not strictly on one side; or one that is not before `to`.
pub fn near_from(vertices: &[i32], arc: Arc, closing: i64, i: usize, side: i64, to: usize) -> Near
    requires accepted_arc { AcceptedArc vertices.now arc × Sided vertices.now arc.plane.normal 0 closing
        × Sided vertices.now arc.plane.normal i side }
    requires i_le_to { (i ≤ to) × (to ≤ vertices_count vertices.now) }
    ensures { NearFrom vertices.now arc.from arc.to i to result }
{
    let last = last_inner(vertices.len() / 3, to);
    next_near(vertices, arc.plane, closing, i, side, last)
}

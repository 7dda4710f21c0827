// Whether lines 16 and 11 pass, by quick passes over the list: most polygons are accepted. They say only yes or no;
// which line refuses, and where, is worked out in checks. Here, in order: is_level, is_on_circle, off_pairs,
// off_circles (16); far_at, count_far, is_near (11).
ghost use Rattle.std.specs.Prelude.{◌≡◌, false, cond, ◌-◌, ◌<◌, pos, length, get_or};
ghost use Rattle.integers.specs.Sign.{sign_of, is_zero};
ghost use Rattle.sphere.specs.Point.{limit_of, is_far, Within};
ghost use Rattle.sphere.specs.Orientation.{dot_of};
ghost use Rattle.sphere.specs.Plane.{Sound};
ghost use Rattle.answer.specs.Chain.{is_passed};
ghost use Rattle.polygon.specs.Checks.{beyond_check, circle_check};
ghost use Rattle.polygon.specs.Lines.{is_on_circle};
ghost use Rattle.polygon.specs.Vertices.{vertices_count};
ghost use Rattle.polygon.specs.Accepted.{Listed, Gridded, FarCount, IfPassed};

use crate::vertices::{end_of, number_at, vertex_at};
use sphere::edge::on_circle;
use sphere::plane::{Plane, plane_through, side_of};
use sphere::point::{Grid, Point, is_far};

// A point lies in the plane.
fn is_level(plane: Plane, p: Point) -> bool
    requires { Sound plane × Within (limit_of plane.grid) p }
    ensures { result ≡ is_zero (sign_of (dot_of plane.normal p)) }
{
    side_of(plane, p) == 0
}

// The great circle of edge i holds the point.
pub(crate) fn is_on_circle(grid: Grid, vertices: &[i32], i: usize, point: Point) -> bool
    requires { (i < vertices_count vertices.now) × Gridded (limit_of grid) vertices.now
        × Within (limit_of grid) point }
    ensures { result ≡ is_on_circle vertices.now point i }
{
    on_circle(grid, vertex_at(vertices, i), end_of(vertices, i), point)
}

// The point is off the great circle of each edge, if it is off those of the last two. Two edges a turn: it is off both
// circles where the far ends of the two are off the plane through it and the vertex between them, and that plane is
// made once.
fn off_pairs(grid: Grid, vertices: &[i32], point: Point) -> bool
    requires listed { Listed vertices.now × Gridded (limit_of grid) vertices.now × Within (limit_of grid) point }
    requires vertices_value { (is_on_circle vertices.now point (vertices_count vertices.now - 2) ≡ false)
        × (is_on_circle vertices.now point (vertices_count vertices.now - 1) ≡ false) }
    ensures { result ≡ is_passed (circle_check vertices.now point) }
{
    let n = vertices.len() / 3;
    let mut from = vertex_at(vertices, 0);
    let mut i = 0;
    while i + 2 < n {
        let middle = vertex_at(vertices, i + 1);
        let plane = plane_through(grid, middle, point);
        if is_level(plane, from) {
            return false;
        }
        let to = vertex_at(vertices, i + 2);
        if is_level(plane, to) {
            return false;
        }
        from = to;
        i = i + 2;
    }
    true
}

// The same for all edges, the closing one among them. The grid is written out, so that each has a compiled loop of its
// own.
pub(crate) fn off_circles(grid: Grid, vertices: &[i32], point: Point) -> bool
    requires { Listed vertices.now × Gridded (limit_of grid) vertices.now × Within (limit_of grid) point }
    ensures { result ≡ is_passed (circle_check vertices.now point) }
{
    let n = vertices.len() / 3;
    if is_on_circle(grid, vertices, n - 2, point) {
        return false;
    }
    if is_on_circle(grid, vertices, n - 1, point) {
        return false;
    }
    match grid {
        Grid::Coarse => off_pairs(Grid::Coarse, vertices, point),
        Grid::Fine => off_pairs(Grid::Fine, vertices, point),
    }
}

// 1 for a number of the list beyond the grid, and else 0.
fn far_at(grid: Grid, vertices: &[i32], k: usize) -> u32
    requires { k < length vertices.now }
    ensures { result ≡ cond (is_far (limit_of grid) (get_or vertices.now k (pos 0))) 1 0 }
{
    if is_far(grid, number_at(vertices, k)) {
        return 1;
    }
    0
}

// How many numbers are beyond the grid. A sum, and no answer at the first, so that the compiled loop takes several at
// once.
fn count_far(grid: Grid, vertices: &[i32]) -> u32
    requires { Listed vertices.now }
    ensures { FarCount (limit_of grid) vertices.now (length vertices.now) result }
{
    let mut far = 0u32;
    for k in 0..vertices.len() {
        far = far + far_at(grid, vertices, k);
    }
    far
}

// Line 11 passes, asked with the grid written out: the limit is then a constant of the compiled loop.
pub(crate) fn is_near(grid: Grid, vertices: &[i32]) -> bool
    requires { Listed vertices.now }
    ensures { IfPassed result (beyond_check (limit_of grid) vertices.now) }
{
    match grid {
        Grid::Coarse => count_far(Grid::Coarse, vertices) == 0,
        Grid::Fine => count_far(Grid::Fine, vertices) == 0,
    }
}

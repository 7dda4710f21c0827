// A bound along an axis e, beside the two other axes d and f: what is not behind a plane with the polygon ahead of it
// reaches at least `bound` along e, in units of 2^-30 of its greatest number. Here, in order: UNIT, LEAST, is_far,
// plane, clears, opposite, clears_all, clears_any, forward, beside, bound. What is tried is a hint; each plane is
// checked exactly.
ghost use Rattle.std.specs.Prelude.{◌≡◌, true, neg_ℤ};
ghost use Rattle.sphere.specs.Point.{fine, Fits, Within, is_far};
ghost use Rattle.polygon.specs.Accepted.{Gridded};
ghost use Rattle.separation.specs.Separation.{is_ahead};
ghost use Rattle.separation.specs.Planes.{steep};
ghost use Rattle.separation.specs.Axes.{unit, plane_of, Frame, Lower, AllClear, AnyClear};

use crate::hints::bound_hint;
use crate::planes::is_ahead;
use sphere::point::Point;

pub const UNIT: i64 = 1_073_741_824;

pub const LEAST: i64 = -UNIT;

fn is_far(l: i64) -> bool
    ensures { result ≡ is_far unit l }
{
    l < LEAST || UNIT < l
}

// The normal 2^30 e - l d.
fn plane(e: Point, d: Point, l: i64) -> Point
    requires { (Within 1 e × Within 1 d) × Fits unit l }
    ensures { (result ≡ plane_of e d l) × Within steep result }
{
    Point {
        x: UNIT * e.x - l * d.x,
        y: UNIT * e.y - l * d.y,
        z: UNIT * e.z - l * d.z,
    }
}

// All vertices are strictly ahead of it.
fn clears(vertices: &[i32], e: Point, d: Point, l: i64) -> bool
    requires { Gridded fine vertices.now × ((Within 1 e × Within 1 d) × Fits unit l) }
    ensures { result ≡ is_ahead vertices.now (plane_of e d l) }
{
    is_ahead(vertices, plane(e, d, l))
}

pub fn opposite(l: i64) -> i64
    requires { Fits unit l }
    ensures { (result ≡ neg_ℤ l) × Fits unit result }
{
    -l
}

// The four planes along e, by d and f one way and the other.
fn clears_all(vertices: &[i32], e: Point, d: Point, f: Point, l: i64) -> bool
    requires { Gridded fine vertices.now × (Frame e d f × Fits unit l) }
    ensures { result ≡ true → AllClear vertices.now e d f l }
{
    clears(vertices, e, d, l)
        && clears(vertices, e, d, opposite(l))
        && clears(vertices, e, f, l)
        && clears(vertices, e, f, opposite(l))
}

fn clears_any(vertices: &[i32], e: Point, d: Point, f: Point, l: i64) -> bool
    requires { Gridded fine vertices.now × (Frame e d f × Fits unit l) }
    ensures { result ≡ true → AnyClear vertices.now e d f l }
{
    clears(vertices, e, d, l)
        || clears(vertices, e, d, opposite(l))
        || clears(vertices, e, f, l)
        || clears(vertices, e, f, opposite(l))
}

// All vertices reach forward along e: the bound is 0 at least.
fn forward(vertices: &[i32], e: Point, d: Point, f: Point, l: i64) -> i64
    requires { Gridded fine vertices.now × (Frame e d f × (is_ahead vertices.now e ≡ true)) }
    ensures { Lower vertices.now e result }
{
    if !is_far(l) && 0 < l && clears_all(vertices, e, d, f, l) {
        l
    } else {
        0
    }
}

// Not all of them do: a plane beside the polygon, or no bound.
fn beside(vertices: &[i32], e: Point, d: Point, f: Point, l: i64) -> i64
    requires { Gridded fine vertices.now × Frame e d f }
    ensures { Lower vertices.now e result }
{
    if !is_far(l) && l <= 0 && clears_any(vertices, e, d, f, l) {
        l
    } else {
        LEAST
    }
}

pub fn bound(vertices: &[i32], e: Point, d: Point, f: Point) -> i64
    requires { Gridded fine vertices.now × Frame e d f }
    ensures { Lower vertices.now e result }
{
    let l = bound_hint(vertices, e, d, f);
    if is_ahead(vertices, e) {
        forward(vertices, e, d, f, l)
    } else {
        beside(vertices, e, d, f, l)
    }
}

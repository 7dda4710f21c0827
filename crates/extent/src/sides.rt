// The box of a polygon. Here, in order: Sides, whole, bounds (along the three axes, one way), turned, sides_of,
// is_fronted.
ghost use Rattle.std.specs.Prelude.{◌≡◌, nat_abs};
ghost use Rattle.sphere.specs.Point.{fine, Within};
ghost use Rattle.polygon.specs.Accepted.{Gridded};
ghost use Rattle.separation.specs.Separation.{reverse};
ghost use Rattle.separation.specs.Axes.{unit};
ghost use Rattle.extent.specs.Sides.{whole_sides, is_fronted, Bounds, Encloses};

use separation::axes::{LEAST, UNIT, bound, opposite};
use separation::planes::is_ahead;
use sphere::point::Point;

// The lower and the upper bounds of x, y and z, in units of 2^-30.
#[derive(Clone, Copy)]
pub struct Sides {
    pub low: Point,
    pub high: Point,
}

pub(crate) fn whole() -> Sides
    ensures { result ≡ whole_sides }
{
    Sides {
        low: Point {
            x: LEAST,
            y: LEAST,
            z: LEAST,
        },
        high: Point {
            x: UNIT,
            y: UNIT,
            z: UNIT,
        },
    }
}

// The bounds along x, y and z, forwards where the sign is 1 and backwards where it is -1.
fn bounds(vertices: &[i32], sign: i64) -> Point
    requires { Gridded fine vertices.now × (nat_abs sign ≡ 1) }
    ensures { Bounds vertices.now sign result }
{
    let x = Point { x: 1, y: 0, z: 0 };
    let y = Point { x: 0, y: 1, z: 0 };
    let z = Point { x: 0, y: 0, z: 1 };
    let along_x = Point {
        x: sign,
        y: 0,
        z: 0,
    };
    let along_y = Point {
        x: 0,
        y: sign,
        z: 0,
    };
    let along_z = Point {
        x: 0,
        y: 0,
        z: sign,
    };
    Point {
        x: bound(vertices, along_x, y, z),
        y: bound(vertices, along_y, z, x),
        z: bound(vertices, along_z, x, y),
    }
}

#[tactic(auto, unfolding(separation::specs::Separation::reverse))]
fn turned(p: Point) -> Point
    requires { Within unit p }
    ensures { result ≡ reverse p }
{
    Point {
        x: opposite(p.x),
        y: opposite(p.y),
        z: opposite(p.z),
    }
}

pub(crate) fn sides_of(vertices: &[i32]) -> Sides
    requires { Gridded fine vertices.now }
    ensures { Encloses vertices.now result }
{
    Sides {
        low: bounds(vertices, 1),
        high: turned(bounds(vertices, -1)),
    }
}

// All vertices are strictly on one side of a coordinate plane.
#[tactic(auto, unfolding(crate::specs::Sides::is_fronted))]
pub(crate) fn is_fronted(vertices: &[i32]) -> bool
    requires { Gridded fine vertices.now }
    ensures { result ≡ is_fronted vertices.now }
{
    is_ahead(vertices, Point { x: 1, y: 0, z: 0 })
        || is_ahead(vertices, Point { x: -1, y: 0, z: 0 })
        || is_ahead(vertices, Point { x: 0, y: 1, z: 0 })
        || is_ahead(vertices, Point { x: 0, y: -1, z: 0 })
        || is_ahead(vertices, Point { x: 0, y: 0, z: 1 })
        || is_ahead(vertices, Point { x: 0, y: 0, z: -1 })
}

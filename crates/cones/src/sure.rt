// On which side of a plane a point lies, where one product without a branch tells it. Here, in order: SureSide,
// whole_side, float_side, sure_side.
ghost use Rattle.sphere.specs.Point.{coarse, fine, limit_of, minors, Within};
ghost use Rattle.sphere.specs.Approximate.{Exactly};
ghost use Rattle.sphere.specs.Plane.{Sound};
ghost use Rattle.cones.specs.Sure.{Sure};

use sphere::approximate::{Vector, float_dot, is_surely};
use sphere::orientation::dot;
use sphere::plane::Plane;
use sphere::point::{Grid, Point};

// Whether it is sure, and if so whether the point is on the left, where the dot product with the normal is positive.
#[derive(Clone, Copy)]
pub struct SureSide {
    pub sure: bool,
    pub left: bool,
}

// Not sure in the plane alone.
fn whole_side(normal: Point, c: Point) -> SureSide
    requires { Within (minors coarse) normal × Within coarse c }
    ensures { Sure normal c result }
{
    let side = dot(normal, c);
    SureSide {
        sure: side != 0,
        left: side > 0,
    }
}

// Document 02, P8: by floats, where their sign is sure. The normal is for the contract alone.
fn float_side(normal: Point, floats: Vector, c: Point) -> SureSide
    requires { Within (minors fine) normal × Exactly floats normal × Within fine c }
    ensures { Sure normal c result }
{
    let side = float_dot(floats, c);
    let left = is_surely(side, true);
    let right = is_surely(side, false);
    SureSide {
        sure: left | right,
        left,
    }
}

pub fn sure_side(plane: Plane, c: Point) -> SureSide
    requires { Sound plane × Within (limit_of plane.grid) c }
    ensures { Sure plane.normal c result }
{
    match plane.grid {
        Grid::Coarse => whole_side(plane.normal, c),
        Grid::Fine => float_side(plane.normal, plane.floats, c),
    }
}

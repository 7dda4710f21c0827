// One edge crossed by the arc from the reference point to the query, and which way (document 02, P6).
// Here, in order: changes_side, is_beside, crossing_by, crossing_from. Document 01, 'When the arc crosses a
// side'. Only the signs of the four orientations matter, so a side is any number with the sign.
ghost use Rattle.std.specs.Prelude.{◌≡◌};
ghost use Rattle.integers.specs.Sign.{sign_of, unit_of};
ghost use Rattle.sphere.specs.Point.{limit_of, Within};
ghost use Rattle.sphere.specs.Orientation.{dot_of};
ghost use Rattle.sphere.specs.Plane.{Sound};
ghost use Rattle.sphere.specs.Crossing.{crossing_by, changes_side, is_beside};

use crate::plane::{Plane, side_of};
use crate::point::Point;

// The edge's ends lie on different sides of the arc's plane. If not, the edge is not crossed.
pub fn changes_side(s1: i64, s2: i64) -> bool
    ensures { result ≡ changes_side (sign_of s1) (sign_of s2) }
{
    if s1 < 0 {
        return s2 >= 0;
    }
    s2 < 0
}

// The edge's ends lie strictly on one side of the arc's plane. Then it is not crossed, and the query is not on it.
pub fn is_beside(s1: i64, s2: i64) -> bool
    ensures { result ≡ is_beside (sign_of s1) (sign_of s2) }
{
    if s1 > 0 {
        return s2 > 0;
    }
    if s1 < 0 {
        return s2 < 0;
    }
    false
}

// By the four orientations: 1 for document 01's first pattern, -1 for its second, and 0 otherwise.
pub fn crossing_by(s1: i64, s2: i64, s3: i64, s4: i64) -> i32
    ensures { result ≡ unit_of (crossing_by (sign_of s1) (sign_of s2) (sign_of s3) (sign_of s4)) }
{
    if s1 < 0 {
        if s2 < 0 {
            return 0;
        }
        if s3 > 0 {
            if s4 < 0 {
                return -1;
            }
        }
        return 0;
    }
    if s2 < 0 {
        if s3 < 0 {
            if s4 > 0 {
                return 1;
            }
        }
    }
    0
}

// By s1, s2, s4 and the edge's own plane. s3, the side of it on which x lies, is worked out only where the edge changes
// side.
pub fn crossing_from(edge: Plane, x: Point, s1: i64, s2: i64, s4: i64) -> i32
    requires { Sound edge × Within (limit_of edge.grid) x }
    ensures { result ≡ unit_of (crossing_by (sign_of s1) (sign_of s2) (sign_of (dot_of edge.normal x)) (sign_of s4)) }
{
    if changes_side(s1, s2) {
        return crossing_by(s1, s2, side_of(edge, x), s4);
    }
    0
}

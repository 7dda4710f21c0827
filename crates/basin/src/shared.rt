// Whether two edges share a point, by signs. Here, in order: opposed, meets_by, holds_end, Edge, shares,
// shares_beyond. A side is any number with the sign of an orientation, as in `sphere`.
ghost use Rattle.std.specs.Prelude.{◌≡◌, ◌||◌};
ghost use Rattle.integers.specs.Sign.{sign_of};
ghost use Rattle.sphere.specs.Point.{fine, limit_of, Within};
ghost use Rattle.sphere.specs.Orientation.{orientation_of};
ghost use Rattle.sphere.specs.OnEdge.{is_on_edge};
ghost use Rattle.basin.specs.Shared.{is_opposed, meets_by, is_shared, is_shared_beyond};

use sphere::edge::on_edge_by;
use sphere::plane::{plane_through, side_of};
use sphere::point::{Grid, Point};

// Strictly on different sides.
fn opposed(s: i64, t: i64) -> bool
    ensures { result ≡ is_opposed (sign_of s) (sign_of t) }
{
    s > 0 && t < 0 || s < 0 && t > 0
}

// Two arcs cross at a point amid both, by the sides of each one's ends.
fn meets_by(s1: i64, s2: i64, s3: i64, s4: i64) -> bool
    ensures { result ≡ meets_by (sign_of s1) (sign_of s2) (sign_of s3) (sign_of s4) }
{
    opposed(s1, s2) && opposed(s1, s3) && opposed(s3, s4)
}

// The edge from a to b holds an end of the edge from c to d, whose sides are s1 and s2.
fn holds_end(a: Point, b: Point, c: Point, d: Point, s1: i64, s2: i64) -> bool
    requires within { Within fine a × Within fine b × Within fine c × Within fine d }
    requires s1_value { (sign_of s1 ≡ sign_of (orientation_of a b c)) × (sign_of s2 ≡ sign_of (orientation_of a b d)) }
    ensures { result ≡ (is_on_edge a b c || is_on_edge a b d) }
{
    on_edge_by(a, b, c, s1) || on_edge_by(a, b, d, s2)
}

// An edge by its ends.
#[derive(Clone, Copy)]
pub(crate) struct Edge {
    pub start: Point,
    pub end: Point,
}

// Of the edges first and second, where s1 and s2 are the sides of the second one's ends: the plane of the first is the
// row's own.
#[tactic(auto, unfolding(crate::specs::Shared::is_shared))]
pub(crate) fn shares(grid: Grid, first: Edge, second: Edge, s1: i64, s2: i64) -> bool
    requires within { Within (limit_of grid) first.start × Within (limit_of grid) first.end
        × Within (limit_of grid) second.start × Within (limit_of grid) second.end }
    requires s1_value { (sign_of s1 ≡ sign_of (orientation_of first.start first.end second.start))
        × (sign_of s2 ≡ sign_of (orientation_of first.start first.end second.end)) }
    ensures { result ≡ is_shared first.start first.end second.start second.end }
{
    if holds_end(first.start, first.end, second.start, second.end, s1, s2) {
        return true;
    }
    let plane = plane_through(grid, second.start, second.end);
    let s3 = side_of(plane, first.start);
    let s4 = side_of(plane, first.end);
    holds_end(second.start, second.end, first.start, first.end, s3, s4) || meets_by(s1, s2, s3, s4)
}

// Neighbours from u to m and from m to w: the far end of one lies on the other. One side says it of both.
#[tactic(auto, unfolding(crate::specs::Shared::is_shared_beyond))]
pub(crate) fn shares_beyond(u: Point, m: Point, w: Point, side: i64) -> bool
    requires { Within fine u × Within fine m × Within fine w × (sign_of side ≡ sign_of (orientation_of u m w)) }
    ensures { result ≡ is_shared_beyond u m w }
{
    on_edge_by(u, m, w, side) || on_edge_by(m, w, u, side)
}

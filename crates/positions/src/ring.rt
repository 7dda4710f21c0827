// A ring of positions, one after the other: refusals 31 to 33.
// Here, in order: Ring, difference, is_apart, is_distant, is_zero, is_equal, is_same, earliest, none, added, ring_check.
ghost use Rattle.std.specs.Prelude.{◌≡◌, ◌+◌, ◌<◌, ◌≤◌, ◌-ℤ◌};
ghost use Rattle.integers.specs.Sign.{sign_of, is_zero};
ghost use Rattle.sphere.specs.Point.{is_far};
ghost use Rattle.positions.specs.Ring.{is_distant, is_same, earliest_of, empty_ring, added_of, check_of};

use angles::point::{Position, is_outside, is_past};
use answer::{Check, Reason};

// What is kept of the positions so far: how many, the first and the last of them, the first that is out of range, and
// the first that is too far from the next.
#[derive(Clone, Copy)]
pub struct Ring {
    pub count: usize,
    pub first: Position,
    pub last: Position,
    pub outside: Option<usize>,
    pub distant: Option<usize>,
}

fn difference(a: i32, b: i32) -> i64
    ensures { result ≡ a -ℤ b }
{
    i64::from(a) - i64::from(b)
}

fn is_apart(a: i32, b: i32) -> bool
    ensures { result ≡ is_far 10000000 (a -ℤ b) }
{
    is_past(10000000, difference(a, b))
}

fn is_distant(p: Position, q: Position) -> bool
    ensures { result ≡ is_distant p q }
{
    if is_apart(p.lon, q.lon) {
        return true;
    }
    is_apart(p.lat, q.lat)
}

fn is_zero(k: i64) -> bool
    ensures { result ≡ is_zero (sign_of k) }
{
    k == 0
}

fn is_equal(a: i32, b: i32) -> bool
    ensures { result ≡ is_zero (sign_of (a -ℤ b)) }
{
    is_zero(difference(a, b))
}

fn is_same(p: Position, q: Position) -> bool
    ensures { result ≡ is_same p q }
{
    if is_equal(p.lon, q.lon) {
        return is_equal(p.lat, q.lat);
    }
    false
}

// The place that was found before, or this one where the test holds.
#[tactic(auto, using(crate::proofs::RingLaws::or_earliest))]
fn earliest(before: Option<usize>, test: bool, place: usize) -> Option<usize>
    ensures { result ≡ earliest_of before test place }
{
    before.or(test.then_some(place))
}

pub fn none() -> Ring
    ensures { result ≡ empty_ring }
{
    let p = Position { lon: 0, lat: 0 };
    Ring {
        count: 0,
        first: p,
        last: p,
        outside: None,
        distant: None,
    }
}

// With one position more.
pub fn added(r: Ring, p: Position) -> Ring
    requires { r.count + 1 ≤ 18446744073709551615 }
    ensures { result ≡ added_of r p }
{
    let count = r.count;
    let before = r.outside;
    let outside = earliest(before, is_outside(p), count);
    if count == 0 {
        return Ring {
            count: 1,
            first: p,
            last: p,
            outside,
            distant: None,
        };
    }
    let first = r.first;
    let last = r.last;
    let found = r.distant;
    let distant = earliest(found, is_distant(last, p), count - 1);
    Ring {
        count: count + 1,
        first,
        last: p,
        outside,
        distant,
    }
}

// 31, 32 and 33, in this order.
#[tactic(auto, unfolding(crate::specs::Ring::check_of))]
pub fn ring_check(r: Ring) -> Check
    ensures { result ≡ check_of r }
{
    let outside = r.outside;
    if let Some(place) = outside {
        return Err(Reason::PositionOutside.at(place));
    }
    if r.count < 4 {
        return Err(Reason::OpenRing.at(0));
    }
    if !is_same(r.first, r.last) {
        return Err(Reason::OpenRing.at(0));
    }
    let distant = r.distant;
    if let Some(place) = distant {
        return Err(Reason::PositionDistant.at(place));
    }
    Ok(())
}

// The table of cones: a cone is halved, and its halves, as long as it pays. Here, in order: may_halve, is_worth, share,
// rest, half_of; lower, upper; grow. What to halve, and how many nodes, are hints: any choice is right.
ghost use Rattle.std.specs.Prelude.{◌≡◌, ◌+◌, ◌*◌, ◌≤◌, ◌<◌, length};
ghost use Rattle.cones.specs.Lists.{Framed};
ghost use Rattle.cones.specs.Table.{Indexed, ConeOn, Halvable, Allows, HalfOf, SplitOf};

use crate::lists::{Part, sift};
use crate::table::{Cone, Size, put_leaf};

// A list of up to 6 edges is short enough.
fn may_halve(cone: Cone, room: usize) -> bool
    requires { (cone.from ≤ cone.to) × (cone.to ≤ room) }
    ensures { Allows cone room result }
{
    let len = cone.to - cone.from;
    cone.depth > 0 && cone.lo < cone.last && cone.quota >= 2 && len > 6 && room - cone.to >= len
}

// Both halves together have at most three quarters of the edges more. Of more than 2048 edges, at most half of them:
// the lists of so many are short of room.
fn is_worth(n: usize, len: usize, both: usize) -> bool {
    if len > 65535 || both > 65535 {
        return false;
    }
    if n > 2048 {
        both * 2 <= len * 3
    } else {
        both * 4 <= len * 7
    }
}

// The lower half's part of the nodes, by its edges and those of both; at least one for each.
fn share(quota: usize, kept: usize, both: usize) -> usize {
    if quota > 65535 || kept > 65535 || both > 65535 {
        return 1;
    }
    (quota * kept / (both + 1)).max(1)
}

// What is left of a quota.
pub(crate) fn rest(quota: usize, before: usize, after: usize) -> usize {
    quota.saturating_sub(after.saturating_sub(before))
}

// One half of a cone, with its list.
fn half_of(cone: Cone, lo: u16, last: u16, part: Part, quota: usize) -> Cone
    requires { 0 < cone.depth }
    ensures { (result.from ≡ part.from) × (result.to ≡ part.to) × (result.lo ≡ lo) × (result.last ≡ last)
        × (result.depth + 1 ≡ cone.depth) }
{
    Cone {
        from: part.from,
        to: part.to,
        lo,
        last,
        quota,
        depth: cone.depth - 1,
    }
}

// The lower half, or none where the cone is not halved. It keeps the edges that span one of its azimuths. Of the cone's edges those that it drops are in the
// upper one, and those that span the last of its azimuths and the next are in both.
fn lower(n: usize, sectors: &[u16], stack: &mut [u16], cone: Cone) -> Option<Cone>
    requires { (n * 2 ≤ length sectors.now) × ConeOn n sectors.now stack.old cone }
    ensures { Framed stack.old stack.new cone.to
        × SplitOf n sectors.now stack.new cone result }
{
    let from = cone.from;
    let to = cone.to;
    let lo = cone.lo;
    if !may_halve(cone, stack.len()) {
        return None;
    }
    let mid = lo + (cone.last - lo) / 2;
    let part = sift(n, sectors, lo, mid, mid, stack, from, to);
    let len = to - from;
    let both = len + part.passed;
    if !is_worth(n, len, both) {
        return None;
    }
    let quota = share(cone.quota, part.to - part.from, both);
    Some(half_of(cone, lo, mid, part, quota))
}

// The upper half keeps those that span an azimuth after `mid`.
fn upper(n: usize, sectors: &[u16], stack: &mut [u16], cone: Cone, mid: u16, quota: usize) -> Cone
    requires n_in_bounds { (n * 2 ≤ length sectors.now) × ConeOn n sectors.now stack.old cone }
    requires halvable { Halvable cone (length stack.old) × (cone.lo ≤ mid) × (mid < cone.last) }
    ensures { Framed stack.old stack.new cone.to
        × HalfOf n sectors.now stack.new cone result }
{
    let from = cone.from;
    let to = cone.to;
    let lo = mid + 1;
    let last = cone.last;
    let part = sift(n, sectors, lo, last, lo, stack, from, to);
    half_of(cone, lo, last, part, quota)
}

// Depth first: the stack before the end of the cone's own list stays as it is.
pub fn grow(
    n: usize,
    sectors: &[u16],
    table: &mut [u16],
    list: &mut [u16],
    stack: &mut [u16],
    cone: Cone,
    size: Size,
) -> Size
    requires n_in_bounds { (n * 2 ≤ length sectors.now) × ConeOn n sectors.now stack.old cone }
    requires indexed { Indexed n sectors.now table.old list.old size.nodes size.top }
    ensures indexed_2 { Indexed n sectors.now table.new list.new result.nodes result.top }
    ensures framed { Framed stack.old stack.new cone.to }
{
    let Some(low) = lower(n, sectors, stack, cone) else {
        return put_leaf(n, sectors, table, list, stack, cone, size);
    };
    let first = grow(n, sectors, table, list, stack, low, size);
    let quota = rest(cone.quota, size.nodes, first.nodes);
    let high = upper(n, sectors, stack, cone, low.last, quota);
    grow(n, sectors, table, list, stack, high, first)
}

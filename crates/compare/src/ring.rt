// Two rings, by the directions of their vertices. They are read from their sheets' bytes, twelve to a vertex: two
// decoded polygons would not fit the stack. Here, in order: Placed (way, place); vertex_in, round, met_at, differs,
// is_met, meets, first_meeting, first_difference, place_ring. Points of either grid are points of the fine one, and
// their directions need no grid.
ghost use Rattle.std.specs.Prelude.{◌≡◌, not, ◌≤◌, ◌<◌};
ghost use Rattle.sphere.specs.Direction.{is_same_direction};
ghost use Rattle.polygon.specs.Vertices.{vertices_count, vertex_at};
ghost use Rattle.compare.specs.Ring.{way_of, place_of, ring_size, ring_of, Sound, round_of, met_at, differs_at};
ghost use Rattle.compare.specs.Ring.{is_meeting, first_meeting, difference_of, placed_of};

use big_endian::read::point_at;
use sphere::direction::same_direction;
use sphere::point::Point;

// Where the right ring's vertex is that meets the left's vertex 0, forward or backward; or, of rings that are not the
// same, the first vertex number whose points differ.
#[derive(Clone, Copy)]
pub enum Placed {
    Apart(usize),
    Forward(usize),
    Backward(usize),
}

impl Placed {
    pub fn way(self) -> u32
        ensures { result ≡ way_of self }
    {
        match self {
            Placed::Apart(_) => 0,
            Placed::Forward(_) => 1,
            Placed::Backward(_) => 2,
        }
    }

    pub fn place(self) -> usize
        ensures { result ≡ place_of self }
    {
        match self {
            Placed::Apart(place) | Placed::Forward(place) | Placed::Backward(place) => place,
        }
    }
}

#[tactic(auto, using(crate::proofs::Laws::Ring::ring_point))]
fn vertex_in(ring: &[u8], i: usize) -> Point
    requires { i < ring_size ring.now }
    ensures { result ≡ vertex_at (ring_of ring.now) i }
{
    point_at(ring, i * 12)
}

// The number j, below 2 n, of n that go round.
#[tactic(auto, using(std::proofs::lemmas::Bool::Decides::nat_tests), unfolding(crate::specs::Ring::round_of))]
fn round(n: usize, j: usize) -> usize
    ensures { result ≡ round_of n j }
{
    if j < n {
        return j;
    }
    j - n
}

// The right ring's vertex that meets the left's vertex i, where its vertex k meets vertex 0.
#[tactic(auto, unfolding(crate::specs::Ring::met_at))]
fn met_at(back: bool, n: usize, k: usize, i: usize) -> usize
    requires { (k < n) × (i < n) × (n ≤ 4096) }
    ensures { result ≡ met_at back n k i }
{
    if back {
        return round(n, k + (n - i));
    }
    round(n, k + i)
}

// Vertex i of the left ring and vertex j of the right one differ in direction.
fn differs(left: &[u8], right: &[u8], i: usize, j: usize) -> bool
    requires sound { Sound left.now × Sound right.now }
    requires i_bound { (i < ring_size left.now) × (j < ring_size right.now) }
    ensures { result ≡ not (is_same_direction (vertex_at (ring_of left.now) i)
        (vertex_at (ring_of right.now) j)) }
{
    !same_direction(vertex_in(left, i), vertex_in(right, j))
}

// Vertex i of the left ring meets the right's that it has to meet.
#[tactic(auto, using(crate::proofs::Laws::Ring::ring_count, crate::proofs::Laws::Ring::met_below))]
fn is_met(left: &[u8], right: &[u8], back: bool, k: usize, i: usize) -> bool
    requires sound { Sound left.now × Sound right.now }
    requires right_value { (ring_size right.now ≡ ring_size left.now) × (k < ring_size left.now) }
    requires i_bound { i < ring_size left.now }
    ensures { result ≡ not (differs_at (ring_of left.now) (ring_of right.now)
        (met_at back (vertices_count (ring_of left.now)) k) i) }
{
    !differs(left, right, i, met_at(back, left.len() / 12, k, i))
}

// All vertices meet.
fn meets(left: &[u8], right: &[u8], back: bool, k: usize) -> bool
    requires sound { Sound left.now × Sound right.now }
    requires right_value { (ring_size right.now ≡ ring_size left.now) × (k < ring_size left.now) }
    ensures { result ≡ is_meeting (ring_of left.now) (ring_of right.now) back k }
{
    (0..left.len() / 12).all(|i| is_met(left, right, back, k, i))
}

// The lowest vertex of the right ring from which all meet.
fn first_meeting(left: &[u8], right: &[u8], back: bool) -> Option<usize>
    requires sound { Sound left.now × Sound right.now }
    requires right_value { ring_size right.now ≡ ring_size left.now }
    ensures { result ≡ first_meeting (ring_of left.now) (ring_of right.now) back }
{
    (0..left.len() / 12).find(|k| meets(left, right, back, *k))
}

// The first vertex number whose points differ, a missing one included.
fn first_difference(left: &[u8], right: &[u8]) -> usize
    requires { Sound left.now × Sound right.now }
    ensures { result ≡ difference_of (ring_of left.now) (ring_of right.now) }
{
    let n = (left.len() / 12).min(right.len() / 12);
    (0..n).find(|i| differs(left, right, *i, *i)).unwrap_or(n)
}

// Where the right ring stands, and which way it runs. Backward is searched only where forward found nothing.
#[tactic(auto, using(crate::proofs::Laws::Ring::ring_count, std::proofs::lemmas::Bool::Decides::nat_tests), unfolding(crate::specs::Ring::placed_of))]
pub(crate) fn place_ring(left: &[u8], right: &[u8]) -> Placed
    requires { Sound left.now × Sound right.now }
    ensures { result ≡ placed_of (ring_of left.now) (ring_of right.now) }
{
    if right.len() / 12 != left.len() / 12 {
        return Placed::Apart(first_difference(left, right));
    }
    if let Some(k) = first_meeting(left, right, false) {
        return Placed::Forward(k);
    }
    if let Some(k) = first_meeting(left, right, true) {
        return Placed::Backward(k);
    }
    Placed::Apart(first_difference(left, right))
}

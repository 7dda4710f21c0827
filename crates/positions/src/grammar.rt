// Which texts a GeoJSON polygon can be, one byte after the other. Here, in order: State, class_table,
// ring_table, class_of, word_at, gap_at, row_at, ring_next, literal_next, is_ring, is_point, next. The texts and
// the ring's states are tables.
ghost use Rattle.std.specs.Prelude.{◌≡◌, ℕ, ◌+◌, ◌*◌, ◌/◌, ◌≤◌, ◌<◌, eqb, get_or};
ghost use Rattle.positions.specs.Text.{words, gaps, rows, class_table, class_of, next_of, ring_next};
ghost use Rattle.positions.specs.Text.{literal, is_point};

use crate::tables::{CLASSES, GAPS, RING, WORDS};

#[derive(Clone, Copy)]
pub struct State {
    pub at: u64,
    pub ring: u64,
}

// The two large tables. A constant is laid out anew wherever it is named, so a caller has them laid out once and lends
// them.
pub fn class_table() -> [u64; 256]
    ensures { result ≡ class_table }
{
    CLASSES
}

pub fn ring_table() -> [u64; 261]
    ensures { result ≡ rows }
{
    RING
}

fn class_of(classes: &[u64; 256], b: u8) -> u64
    requires { classes.now ≡ class_table }
    ensures { (result ≡ class_of b) × (result < 9) }
{
    classes[b as usize]
}

fn word_at(at: u64) -> u64
    requires { at < 76 }
    ensures { result ≡ get_or words at 0 }
{
    WORDS[at as usize]
}

fn gap_at(at: u64) -> u64
    requires { at < 76 }
    ensures { (result ≡ get_or gaps at 0) × (result ≤ 1) }
{
    GAPS[at as usize]
}

fn row_at(ring: &[u64; 261], i: u64) -> u64
    requires { (i < 261) × (ring.now ≡ rows) }
    ensures { result ≡ get_or rows i 0 }
{
    ring[i as usize]
}

fn ring_next(ring: &[u64; 261], s: State, c: u64) -> State
    requires { (s.at < 76) × (s.ring < 29) × (c < 9) × (ring.now ≡ rows) }
    ensures { result ≡ ring_next s c }
{
    let t = row_at(ring, s.ring * 9 + c);
    if t < 29 {
        return State { at: s.at, ring: t };
    }
    if t == 29 {
        return State {
            at: s.at + 1,
            ring: 0,
        };
    }
    State { at: 76, ring: 0 }
}

fn literal_next(s: State, b: u64, c: u64) -> State
    requires { (s.at < 76) × (b < 256) × (c < 9) }
    ensures { result ≡ literal s b c }
{
    let at = s.at;
    if word_at(at) == b {
        return State {
            at: at + 1,
            ring: 0,
        };
    }
    if at * 256 + b == 611 {
        return State { at: 41, ring: 0 };
    }
    if gap_at(at) * c == 1 {
        return s;
    }
    State { at: 76, ring: 0 }
}

// Where the ring stands in the two texts.
fn is_ring(at: u64) -> bool
    requires { at < 76 }
    ensures { result ≡ eqb (get_or words at 0) 256 }
{
    if at == 34 {
        return true;
    }
    at == 55
}

// After a number's point, where up to seven decimals follow.
pub fn is_point(s: State) -> bool
    requires { s.at < 76 }
    ensures { result ≡ is_point s }
{
    if is_ring(s.at) {
        if s.ring == 7 {
            return true;
        }
        return s.ring == 20;
    }
    false
}

pub fn next(classes: &[u64; 256], ring: &[u64; 261], s: State, byte: u8) -> State
    requires { (s.at < 76) × (s.ring < 29) × (classes.now ≡ class_table) × (ring.now ≡ rows) }
    ensures { result ≡ next_of s byte }
{
    if is_ring(s.at) {
        return ring_next(ring, s, class_of(classes, byte));
    }
    literal_next(s, u64::from(byte), class_of(classes, byte))
}

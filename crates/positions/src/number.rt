// Numbers and positions, one byte after the other. Here, in order: Pending, capped, digit, is_digit, next, ends,
// whole. A number is in ten-millionths of a degree; no more of its size is held than 200 degrees.
ghost use Rattle.std.specs.Prelude.{◌≡◌, ◌≤◌, min};
ghost use Rattle.positions.specs.Number.{digit_of, is_digit, pending_of, is_end, position_of, held, Small};

use angles::point::{Position, signed};

// The number that is being read, its size at most 200 degrees, and the one before it in its position.
// `unit` is what the last digit counts: 0 before the point.
#[derive(Clone, Copy)]
pub struct Pending {
    pub size: u64,
    pub unit: u64,
    pub lon: i32,
    pub negative: bool,
    pub digits: bool,
}

fn capped(n: u64) -> u64
    ensures { result ≡ min n 2000000000 }
{
    n.min(2000000000)
}

// One digit more: before the point ten times as much and whole degrees, after it a tenth of the unit before.
fn digit(p: Pending, d: u64) -> Pending
    requires { Small p × (d ≤ 9) }
    ensures { result ≡ digit_of held p d }
{
    let unit = p.unit;
    if unit == 0 {
        return Pending {
            negative: p.negative,
            digits: true,
            size: capped(p.size * 10 + d * 10000000),
            unit: 0,
            lon: p.lon,
        };
    }
    let tenth = unit / 10;
    Pending {
        negative: p.negative,
        digits: true,
        size: capped(p.size + d * tenth),
        unit: tenth,
        lon: p.lon,
    }
}

pub fn is_digit(b: u8) -> bool
    ensures { result ≡ is_digit b }
{
    b.is_ascii_digit()
}

// After one byte more that ends no position.
pub fn next(p: Pending, b: u8) -> Pending
    requires { Small p }
    ensures { result ≡ pending_of held p b }
{
    if is_digit(b) {
        return digit(p, u64::from(b) - 48);
    }
    if b == 45 {
        return Pending {
            negative: true,
            digits: p.digits,
            size: p.size,
            unit: p.unit,
            lon: p.lon,
        };
    }
    if b == 46 {
        return Pending {
            negative: p.negative,
            digits: p.digits,
            size: p.size,
            unit: 10000000,
            lon: p.lon,
        };
    }
    if b == 44 {
        return Pending {
            negative: false,
            digits: false,
            size: 0,
            unit: 0,
            lon: signed(p.negative, p.size),
        };
    }
    p
}

// A `]` after a number.
pub fn ends(p: Pending, b: u8) -> bool
    ensures { result ≡ is_end p b }
{
    if b == 93 { p.digits } else { false }
}

pub fn whole(p: Pending) -> Position
    requires { Small p }
    ensures { result ≡ position_of p }
{
    Position {
        lon: p.lon,
        lat: signed(p.negative, p.size),
    }
}

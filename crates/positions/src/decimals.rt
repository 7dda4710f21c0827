// The decimals of a number at once: most bytes of a text are such. Here, in order: Run, is_more, decimals.
ghost use Rattle.std.specs.Prelude.{◌≡◌, ◌&&◌, ◌≤◌, ltb, length, get_or};
ghost use Rattle.positions.specs.Number.{is_digit, Small, onward, DigitRun};

use crate::number::{Pending, is_digit, next};

// What is read after `count` decimals.
#[derive(Clone, Copy)]
pub struct Run {
    pub pending: Pending,
    pub count: usize,
}

fn is_more(text: &[u8], at: usize) -> bool
    ensures { result ≡ (ltb at (length text.now) && is_digit (get_or text.now at 0)) }
{
    if at < text.len() {
        return is_digit(text[at]);
    }
    false
}

// From the byte after the point. Seven and the unit are written out, so that each digit's unit is a constant.
pub fn decimals(text: &[u8], from: usize, point: Pending) -> Run
    requires { Small point × (point.unit ≡ 10000000) × (from ≤ length text.now) }
    ensures pending_value { result.pending ≡ onward text.now from point result.count }
    ensures digit_run { DigitRun text.now from result.count }
{
    let mut p = Pending {
        negative: point.negative,
        digits: point.digits,
        size: point.size,
        unit: 10000000,
        lon: point.lon,
    };
    let mut k = 0;
    while k < 7 {
        let at = from + k;
        if !is_more(text, at) {
            return Run {
                pending: p,
                count: k,
            };
        }
        p = next(p, text[at]);
        k += 1;
    }
    Run {
        pending: p,
        count: 7,
    }
}

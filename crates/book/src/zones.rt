// Sets, zone by zone, and what is made of them. Inside this crate only.
// Here, in order: set_bit, with_zone, found, broken, broken_by.
ghost use Rattle.std.specs.Prelude.{◌≡◌, ◌+◌, ◌^◌, ◌<◌};
ghost use Rattle.book.specs.Sets.{Below, added_to, found_of, broken_at, broken_by};

use crate::sets::{Sets, Which};
use answer::{Answer, Refusal, Verdict};

// Bit i, above all that are set.
fn set_bit(mask: u64, i: u64) -> u64
    requires { (i < 64) × (mask < 2 ^ i) }
    ensures { result ≡ 2 ^ i + mask }
{
    mask | (1u64 << i)
}

// Zone i, in the one set that its answer names, or in none.
pub fn with_zone(sets: Sets, i: u64, answer: Answer) -> Sets
    requires { (i < 64) × Below i sets }
    ensures { result ≡ added_to sets i answer }
{
    let inside = sets.inside;
    let boundary = sets.boundary;
    let refused = sets.refused;
    match answer {
        Ok(Verdict::Done(_)) => sets,
        Ok(Verdict::Inside(_, _)) => Sets {
            inside: set_bit(inside, i),
            boundary,
            refused,
        },
        Ok(Verdict::Outside(_, _)) => sets,
        Ok(Verdict::Boundary(_)) => Sets {
            inside,
            boundary: set_bit(boundary, i),
            refused,
        },
        Err(_) => Sets {
            inside,
            boundary,
            refused: set_bit(refused, i),
        },
    }
}

// How many zones hold the query, counted from the bits.
pub fn found(sets: Sets) -> Which
    ensures { result ≡ found_of sets }
{
    let count = u64::count_ones(sets.inside) + u64::count_ones(sets.boundary);
    Which {
        number: 0,
        place: 0,
        count,
        sets,
    }
}

// A book that is refused.
pub fn broken(number: u32, place: usize) -> Which
    ensures { result ≡ broken_at number place }
{
    Which {
        number,
        place,
        count: 0,
        sets: Sets {
            inside: 0,
            boundary: 0,
            refused: 0,
        },
    }
}

// The same, of a refusal.
pub(crate) fn broken_by(refusal: Refusal) -> Which
    ensures { result ≡ broken_by refusal }
{
    broken(refusal.reason.number(), refusal.place)
}

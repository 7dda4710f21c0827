// Document 02, P11: did the redraw change anything? Two sheets, by their bytes: which fields differ, and where and
// which way round the right ring meets the left one. Here, in order: Comparison, refused, compare_read, compare. Each
// function is proved equal to its definition in specs/.
#![tactic(auto)]

ghost use Rattle.std.specs.Prelude.{◌≡◌};
ghost use Rattle.compare.specs.Differences.{Accepted};
ghost use Rattle.compare.specs.Comparison.{refused_comparison, compared_after, comparison_of};

pub mod differences;
pub mod ring;

use crate::differences::{all_differences, ring_in};
use crate::ring::place_ring;
use answer::Refusal;
use sheet::read::{Sheet, read};

// Number and place as everywhere; the count is the number of fields that differ, and `fields` names them in order, 0
// after the last. The way is 1 where the right ring runs as the left one does, 2 where it runs backwards, and 0 where
// it is another ring. Beside a refusal all but number and place are 0.
#[derive(Clone, Copy)]
pub struct Comparison {
    pub number: u32,
    pub place: usize,
    pub count: u32,
    pub way: u32,
    pub fields: [u8; 7],
}

fn refused(refusal: Refusal) -> Comparison
    ensures { result ≡ refused_comparison refusal }
{
    Comparison {
        number: refusal.reason.number(),
        place: refusal.place,
        count: 0,
        way: 0,
        fields: [0; 7],
    }
}

// Two sheets that were read.
#[tactic(auto, using(crate::proofs::Laws::Sheets::accepted_name, crate::proofs::Laws::Noted::differing_bound))]
fn compare_read(left: &[u8], right: &[u8], first: Sheet, second: Sheet) -> Comparison
    requires { Accepted left.now first × Accepted right.now second }
    ensures { result ≡ compared_after (Ok tt) left.now right.now }
{
    let ring = place_ring(
        ring_in(left, first.name_len, first.vertex_count),
        ring_in(right, second.name_len, second.vertex_count),
    );
    let d = all_differences(left, right, first, second, ring);
    let numbers = d.numbers;
    Comparison {
        number: 0,
        place: ring.place(),
        count: d.count as u32,
        way: ring.way(),
        fields: numbers,
    }
}

// Any bytes. Each sheet is checked once, the left one first.
#[tactic(auto, using(crate::proofs::Laws::Sheets::reads), unfolding(crate::specs::Comparison::comparison_of))]
pub fn compare(left: &[u8], right: &[u8]) -> Comparison
    ensures { result ≡ comparison_of left.now right.now }
{
    let first = read(left);
    if let Err(refusal) = first.answer {
        return refused(refusal);
    }
    let second = read(right);
    if let Err(refusal) = second.answer {
        return refused(refusal);
    }
    compare_read(left, right, first, second)
}

// One field: a tag, two bytes of length, the body. Here, in order: field_body, field_check.
ghost use Rattle.std.specs.Prelude.{◌≡◌, ◌+◌, ◌≤◌, ◌<◌, length};
ghost use Rattle.big_endian.specs.Bytes.{short_at};
ghost use Rattle.fields.specs.Fields.{is_allowed, field_check};
ghost use Rattle.fields.specs.Parts.{value_after};

use crate::is_allowed;
use answer::{Check, Reason, Refusal};
use big_endian::read;

// One field: its head, its tag, its length and its body, in this order. How many bytes the body has.
#[tactic(auto, using(std::proofs::lemmas::Bool::Decides::nat_tests), unfolding(crate::specs::Fields::field_check, crate::specs::Fields::field_end))]
pub(crate) fn field_body(
    b: &[u8],
    at: usize,
    tag: u8,
    least: usize,
    most: usize,
    step: usize,
) -> Result<usize, Refusal>
    requires { (at ≤ length b.now) × (0 < step) }
    ensures { result
        ≡ value_after (field_check tag (is_allowed least most step) b.now at)
        (short_at b.now (at + 1)) }
{
    if b.len() - at < 3 {
        return Err(Reason::FieldCut.at(at));
    }
    if b[at] != tag {
        return Err(Reason::FieldTag.at(at));
    }
    let n = read::short_at(b, at + 1) as usize;
    if !is_allowed(n, least, most, step) {
        return Err(Reason::FieldLength.at(at));
    }
    if b.len() - at - 3 < n {
        return Err(Reason::FieldCut.at(at));
    }
    Ok(n)
}

// The same of a field with one length.
#[tactic(auto, using(crate::proofs::Laws::Parts::values))]
pub(crate) fn field_check(b: &[u8], at: usize, tag: u8, size: usize) -> Check
    requires { at ≤ length b.now }
    ensures { result ≡ field_check tag (is_allowed size size 1) b.now at }
{
    field_body(b, at, tag, size, size, 1)?;
    Ok(())
}

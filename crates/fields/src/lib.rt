// The fields of a sheet, by bytes alone: refusals 20 to 24 with their places.
// Here, in order: Parts, with second_start, end; is_allowed, is_charset, charset_check, grid_at, tag, starts_second,
// from_known, five_fields, known_start, grid, second_field, sheet_fields (20 to 23), fields_check (20 to 24). One field
// is in `field`.
// A later field is looked at only where those before it have passed. The lengths that say where the fields begin and
// end are read once and handed on: read again they might be others, where somebody writes to the bytes meanwhile.
#![tactic(auto)]

ghost use Rattle.std.specs.Prelude.{◌≡◌, ◌+◌, ◌≤◌, ◌<◌, eqb, length};
ghost use Rattle.big_endian.specs.Bytes.{byte_at, short_at};
ghost use Rattle.answer.specs.Chain.{◌then◌};
ghost use Rattle.fields.specs.Fields.{is_allowed, known_start, grid_at, grid_of, tag_of, is_charset};
ghost use Rattle.fields.specs.Fields.{charset_check, name_check, known_check, vertices_check, five_fields};
ghost use Rattle.fields.specs.Fields.{second_field, sheet_fields, fields_check};
ghost use Rattle.fields.specs.Parts.{parts_of, parts_after, second_of_parts, end_of_parts};

mod field;

use crate::field::{field_body, field_check};
use answer::{Check, Reason, Refusal};
use big_endian::read;
use sphere::point::Grid;

// What bounds a part of the bytes in a sheet whose fields pass: the lengths of the name and of the vertices, the grid,
// and whether there is a second point.
#[derive(Clone, Copy)]
pub struct Parts {
    pub name: usize,
    pub row: usize,
    pub grid: Grid,
    pub has_second: bool,
}

impl Parts {
    // Where the vertices end. The second point's field begins there, if there is one.
    pub fn second_start(self) -> usize
        requires { (self.name ≤ 120) × (self.row ≤ 49152) }
        ensures { result ≡ second_of_parts self }
    {
        self.name + 32 + self.row
    }

    // Where a sheet ends whose fields are sound.
    pub fn end(self) -> usize
        requires { (self.name ≤ 120) × (self.row ≤ 49152) }
        ensures { result ≡ end_of_parts self }
    {
        let at = self.second_start();
        if self.has_second { at + 15 } else { at }
    }
}

// Where the fields begin that always begin at one place.
pub const CHARSET_START: usize = 7;

pub const NAME_START: usize = 11;

// A length from `least` to `most`, in whole steps.
#[tactic(auto, using(std::proofs::lemmas::Bool::Decides::nat_tests), unfolding(crate::specs::Fields::is_allowed))]
pub fn is_allowed(n: usize, least: usize, most: usize, step: usize) -> bool
    requires { 0 < step }
    ensures { result ≡ is_allowed least most step n }
{
    least <= n && n <= most && n % step == 0
}

// Document 01: 1 UTF-8, 2 ISO 8859-7, 3 windows-1253.
#[tactic(auto, using(std::proofs::lemmas::Bool::Decides::nat_tests), unfolding(crate::specs::Fields::is_charset))]
pub fn is_charset(n: u32) -> bool
    ensures { result ≡ is_charset n }
{
    1 <= n && n <= 3
}

// The one field whose body is looked at here.
#[tactic(auto, using(crate::proofs::Laws::Fields::passed_sound), unfolding(crate::specs::Fields::charset_check))]
fn charset_check(b: &[u8]) -> Check
    requires { 7 ≤ length b.now }
    ensures { result ≡ charset_check b.now }
{
    field_check(b, CHARSET_START, 2, 1)?;
    if !is_charset(read::byte_at(b, CHARSET_START + 3)) {
        return Err(Reason::Charset.at(CHARSET_START));
    }
    Ok(())
}

// Document 02, P8: 7 in place of 5 says that the sheet is on the fine grid.
#[tactic(auto, unfolding(crate::specs::Fields::grid_at))]
fn grid_at(b: &[u8], at: usize) -> Grid
    ensures { result ≡ grid_at b.now at }
{
    match b.get(at) {
        Some(7) => Grid::Fine,
        _ => Grid::Coarse,
    }
}

// The tag of the vertices.
pub fn tag(grid: Grid) -> u8
    ensures { result ≡ tag_of grid }
{
    match grid {
        Grid::Coarse => 5,
        Grid::Fine => 7,
    }
}

// A byte 6 after the vertices starts the second point's field.
fn starts_second(b: &[u8], at: usize) -> bool
    ensures { result ≡ eqb (byte_at b.now at) 6 }
{
    matches!(b.get(at), Some(6))
}

// The known point's field and the vertices', after a name of so many bytes.
#[tactic(auto, using(crate::proofs::Laws::Parts::values, crate::proofs::Laws::Fields::passed_sound), unfolding(crate::specs::Fields::field_end, crate::specs::Fields::has_second_point))]
fn from_known(b: &[u8], name: usize) -> Result<Parts, Refusal>
    requires { (name_check b.now ≡ Ok tt) × (name ≡ short_at b.now 12) }
    ensures { result
        ≡ parts_after (known_check b.now then vertices_check b.now) b.now }
{
    let known = NAME_START + 3 + name;
    field_check(b, known, 4, 12)?;
    let at = known + 15;
    let grid = grid_at(b, at);
    let row = field_body(b, at, tag(grid), 36, 49152, 12)?;
    Ok(Parts {
        name,
        row,
        grid,
        has_second: starts_second(b, at + 3 + row),
    })
}

// The five fields that every sheet has, in order. Bytes may follow.
#[tactic(auto, using(crate::proofs::Laws::Parts::values, crate::proofs::Laws::Fields::passed_sound, crate::proofs::Laws::Fields::charset_ends), unfolding(crate::specs::Fields::five_fields))]
fn five_fields(b: &[u8]) -> Result<Parts, Refusal>
    ensures { result ≡ parts_after (five_fields b.now) b.now }
{
    field_check(b, 0, 1, 4)?;
    charset_check(b)?;
    let name = field_body(b, NAME_START, 3, 1, 120, 1)?;
    from_known(b, name)
}

// Where the known point's field begins.
#[tactic(auto, unfolding(crate::specs::Fields::field_end))]
fn known_start(b: &[u8]) -> usize
    requires { 14 ≤ length b.now }
    ensures { result ≡ known_start b.now }
{
    NAME_START + 3 + read::short_at(b, NAME_START + 1) as usize
}

// The grid of the sheet's points.
#[tactic(auto, using(crate::proofs::Laws::Fields::known_within))]
pub fn grid(b: &[u8]) -> Grid
    requires { five_fields b.now ≡ Ok tt }
    ensures { result ≡ grid_of b.now }
{
    grid_at(b, known_start(b) + 15)
}

// The second point's field, if there is one.
#[tactic(auto, using(crate::proofs::Laws::Fields::passed_spans, crate::proofs::Laws::Parts::parts_second, crate::proofs::Laws::Parts::parts_few), unfolding(crate::specs::Fields::second_field))]
fn second_field(b: &[u8], parts: Parts) -> Check
    requires { (five_fields b.now ≡ Ok tt) × (parts ≡ parts_of b.now) }
    ensures { result ≡ second_field b.now }
{
    if parts.has_second {
        return field_check(b, parts.second_start(), 6, 12);
    }
    Ok(())
}

// All fields. Bytes may follow.
#[tactic(auto, using(crate::proofs::Laws::Parts::values), unfolding(crate::specs::Fields::sheet_fields))]
pub fn sheet_fields(b: &[u8]) -> Result<Parts, Refusal>
    ensures { result ≡ parts_after (sheet_fields b.now) b.now }
{
    let parts = five_fields(b)?;
    second_field(b, parts)?;
    Ok(parts)
}

// All fields, and nothing after them.
#[tactic(auto, using(crate::proofs::Laws::Parts::values, crate::proofs::Laws::Parts::ends, std::proofs::lemmas::Bool::Decides::nat_tests), unfolding(crate::specs::Fields::fields_check, crate::specs::Fields::rest_check))]
pub fn fields_check(b: &[u8]) -> Result<Parts, Refusal>
    ensures { result ≡ parts_after (fields_check b.now) b.now }
{
    let parts = sheet_fields(b)?;
    let end = parts.end();
    if end < b.len() {
        return Err(Reason::TrailingBytes.at(end));
    }
    Ok(parts)
}

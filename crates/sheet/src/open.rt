// Opening a sheet: its checks, and what it says of its points, by value. Here, in order: Opened; known_point,
// second_point, points, vertices_in, decode_vertices; plain_into, open_into. They decode into scratch space of the
// callers; what users lend is written by `read::load` and by nothing here. Where a part of the bytes begins and ends
// follows from what the fields' check handed on; no length is read again.
ghost use Rattle.std.specs.Prelude.{◌≡◌, ◌++◌, ◌+◌, ◌*◌, ◌≤◌, length, take, drop};
ghost use Rattle.fields.specs.Fields.{vertices_start, five_fields, sheet_fields};
ghost use Rattle.fields.specs.Parts.{parts_of};
ghost use Rattle.judging.specs.Accept.{boxed_after};
ghost use Rattle.sheet.specs.Sheet.{name_length, known_of, vertex_count_of, vertices_of, second_of, plain_check};
ghost use Rattle.sheet.specs.Sheet.{sheet_check};
ghost use Rattle.sheet.specs.Open.{opened_of, opened_after, room_for, BoxesFor, decoded_of};

use answer::Refusal;
use big_endian::read;
use fields::Parts;
use judging::accept::{accept_boxed, no_second};
use judging::second::second_check;
use sphere::point::{Grid, Point};

// The points of a sheet that passed: the second is all zero where the sheet has none, as all who judge by it take it, and
// `has_second` tells one that is there and all zero, which is refused. `count` is the number of vertices, `name` the
// name's length.
#[derive(Clone, Copy)]
pub struct Opened {
    pub grid: Grid,
    pub known: Point,
    pub second: Point,
    pub has_second: bool,
    pub count: usize,
    pub name: usize,
}

// After a name of so many bytes.
#[tactic(auto, using(crate::proofs::Laws::Places::known_stands))]
fn known_point(b: &[u8], name: usize) -> Point
    requires { (five_fields b.now ≡ Ok tt) × (name ≡ name_length b.now) }
    ensures { result ≡ known_of b.now }
{
    read::point_at(b, fields::NAME_START + 6 + name)
}

#[tactic(auto, using(fields::proofs::Laws::Fields::five_passed, crate::proofs::Laws::Places::second_stands, fields::proofs::Laws::Parts::parts_second, fields::proofs::Laws::Parts::parts_few, crate::proofs::Laws::Reads::second_present, crate::proofs::Laws::Reads::second_absent))]
fn second_point(b: &[u8], parts: Parts) -> Point
    requires { (sheet_fields b.now ≡ Ok tt) × (parts ≡ parts_of b.now) }
    ensures { result ≡ second_of b.now }
{
    if parts.has_second {
        return read::point_at(b, parts.second_start() + 3);
    }
    no_second()
}

// A sheet whose fields are sound.
#[tactic(auto, using(fields::proofs::Laws::Fields::five_passed))]
fn points(b: &[u8], parts: Parts) -> Opened
    requires { (sheet_fields b.now ≡ Ok tt) × (parts ≡ parts_of b.now) }
    ensures { result ≡ opened_of b.now }
{
    Opened {
        grid: parts.grid,
        known: known_point(b, parts.name),
        second: second_point(b, parts),
        has_second: parts.has_second,
        count: parts.row / 12,
        name: parts.name,
    }
}

// The bytes of the vertices: count, after a name of so many bytes.
#[tactic(auto, using(crate::proofs::Laws::Places::vertices_stand))]
pub fn vertices_in(b: &[u8], name: usize, count: usize) -> &[u8]
    requires b_value { (five_fields b.now ≡ Ok tt) × (name ≡ name_length b.now) }
    requires count_value { count ≡ vertex_count_of b.now }
    ensures { result.now
        ≡ take (vertex_count_of b.now * 12) (drop (vertices_start b.now + 3) b.now) }
{
    let at = fields::NAME_START + 21 + name;
    &b[at..at + count * 12]
}

// The vertices go to the front of `out`: n, after a name of so many bytes.
#[tactic(auto, using(crate::proofs::Laws::Places::vertices_stand))]
pub(crate) fn decode_vertices(b: &[u8], name: usize, n: usize, out: &mut [i32])
    requires b_value { (five_fields b.now ≡ Ok tt) × (name ≡ name_length b.now) }
    requires n_value { (n ≡ vertex_count_of b.now) × (n * 3 ≤ length out.old) }
    ensures { out.new ≡ vertices_of b.now ++ drop (n * 3) out.old }
{
    read::decode(b, fields::NAME_START + 21 + name, n * 3, out)
}

// The checks of a sheet without its second point. The polygon is decoded to the front of `scratch`, also one that is
// then refused; the boxes are those of one that is not.
#[tactic(auto, using(fields::proofs::Laws::Parts::values, crate::proofs::Laws::Reads::fields_sound, fields::proofs::Laws::Fields::five_passed, crate::proofs::Laws::Places::vertices_stand, crate::proofs::Laws::Places::row_room, crate::proofs::Laws::Reads::loaded_row, crate::proofs::Laws::Reads::taken), unfolding(crate::specs::Open::decoded_of, crate::specs::Sheet::plain_check))]
pub fn plain_into(b: &[u8], scratch: &mut [i32], boxes: &mut [i32]) -> Result<Opened, Refusal>
    requires { (room_for b.now ≤ length scratch.old) × BoxesFor b.now boxes.old }
    ensures value { result ≡ opened_after (plain_check b.now) b.now }
    ensures scratch_after { (scratch.new ≡ decoded_of b.now scratch.old)
        × (boxes.new ≡ boxed_after (plain_check b.now) (vertices_of b.now)
        boxes.old) }
{
    let parts = fields::fields_check(b)?;
    let sheet = points(b, parts);
    decode_vertices(b, sheet.name, sheet.count, scratch);
    let size = sheet.count * 3;
    accept_boxed(sheet.grid, &scratch[..size], boxes, sheet.known)?;
    Ok(sheet)
}

// All checks of a sheet: the second point beside the known one too, if there is a second.
#[tactic(auto, using(fields::proofs::Laws::Parts::values, crate::proofs::Laws::Reads::plain_five, crate::proofs::Laws::Places::vertices_stand, crate::proofs::Laws::Opened::polygon, crate::proofs::Laws::Reads::taken), unfolding(crate::specs::Sheet::sheet_check, crate::specs::Sheet::sheet_second_check))]
pub fn open_into(b: &[u8], scratch: &mut [i32], boxes: &mut [i32]) -> Result<Opened, Refusal>
    requires { (room_for b.now ≤ length scratch.old) × BoxesFor b.now boxes.old }
    ensures value { result ≡ opened_after (sheet_check b.now) b.now }
    ensures scratch_after { (scratch.new ≡ decoded_of b.now scratch.old)
        × (boxes.new ≡ boxed_after (plain_check b.now) (vertices_of b.now)
        boxes.old) }
{
    let sheet = plain_into(b, scratch, boxes)?;
    if sheet.has_second {
        let size = sheet.count * 3;
        second_check(
            sheet.grid,
            &scratch[..size],
            boxes,
            sheet.known,
            sheet.second,
        )?;
    }
    Ok(sheet)
}

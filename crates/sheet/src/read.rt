// Reading a sheet. Here, in order: Sheet, refused, accepted, opened, sheet_check, read, load. Any bytes.
ghost use Rattle.std.specs.Prelude.{◌≡◌};
ghost use Rattle.fields.specs.Fields.{sheet_fields};
ghost use Rattle.sheet.specs.Sheet.{sheet_check, refused_sheet, read_after, read_of, loaded_of};
ghost use Rattle.sheet.specs.Open.{opened_of, opened_after};

use crate::open::{Opened, decode_vertices, open_into};
use answer::{Answer, Check, Refusal, Verdict};
use big_endian::read;
use judging::accept::no_second;
use sphere::point::{Grid, Point};

// What reading hands back: document 01's answer, and the parts of the sheet, all zero on a refusal, and the coarse
// grid. The second point is all zero too where the sheet has none.
#[derive(Clone, Copy)]
pub struct Sheet {
    pub answer: Answer,
    pub zone: u32,
    pub charset: u32,
    pub name_at: usize,
    pub name_len: usize,
    pub known: Point,
    pub vertex_count: usize,
    pub second: Point,
    pub grid: Grid,
}

fn refused(refusal: Refusal) -> Sheet
    ensures { result ≡ refused_sheet refusal }
{
    Sheet {
        answer: Err(refusal),
        zone: 0,
        charset: 0,
        name_at: 0,
        name_len: 0,
        known: Point { x: 0, y: 0, z: 0 },
        vertex_count: 0,
        second: no_second(),
        grid: Grid::Coarse,
    }
}

// A sheet that passed every check.
#[tactic(auto, using(crate::proofs::Laws::Places::known_stands, fields::proofs::Laws::Fields::five_passed))]
fn accepted(b: &[u8], sheet: Opened) -> Sheet
    requires { (sheet_fields b.now ≡ Ok tt) × (sheet ≡ opened_of b.now) }
    ensures { result ≡ read_after (Ok tt) b.now }
{
    Sheet {
        answer: Ok(Verdict::Done(b.len())),
        zone: read::word_at(b, 3),
        charset: read::byte_at(b, fields::CHARSET_START + 3),
        name_at: fields::NAME_START + 3,
        name_len: sheet.name,
        known: sheet.known,
        vertex_count: sheet.count,
        second: sheet.second,
        grid: sheet.grid,
    }
}

// A sheet, opened in scratch space for any.
pub fn opened(b: &[u8]) -> Result<Opened, Refusal>
    ensures { result ≡ opened_after (sheet_check b.now) b.now }
{
    let mut scratch = [0i32; 12288];
    let mut boxes = [0i32; 768];
    open_into(b, &mut scratch, &mut boxes)
}

// All checks of a sheet: 20 to 24, then 11 to 16, then 19.
#[tactic(auto, using(fields::proofs::Laws::Parts::values))]
pub fn sheet_check(b: &[u8]) -> Check
    ensures { result ≡ sheet_check b.now }
{
    opened(b)?;
    Ok(())
}

// Reads a sheet, and hands back its parts.
#[tactic(auto, using(fields::proofs::Laws::Parts::values, crate::proofs::Laws::Reads::sheet_sound), unfolding(crate::specs::Sheet::read_of))]
pub fn read(b: &[u8]) -> Sheet
    ensures { result ≡ read_of b.now }
{
    match opened(b) {
        Ok(sheet) => accepted(b, sheet),
        Err(refusal) => refused(refusal),
    }
}

// The same, and the vertices go to the front of `out`. A refusal leaves it as it was.
#[tactic(auto, using(fields::proofs::Laws::Parts::values, crate::proofs::Laws::Reads::sheet_sound, crate::proofs::Laws::Reads::sheet_five, crate::proofs::Laws::Places::vertices_stand), unfolding(crate::specs::Sheet::read_of, crate::specs::Sheet::loaded_of))]
pub fn load(b: &[u8], out: &mut [i32; 12288]) -> Sheet
    ensures { (result ≡ read_of b.now)
        × (out.new ≡ loaded_of b.now out.old) }
{
    match opened(b) {
        Ok(sheet) => {
            decode_vertices(b, sheet.name, sheet.count, out);
            accepted(b, sheet)
        }
        Err(refusal) => refused(refusal),
    }
}

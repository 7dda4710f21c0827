// The vertices of a sheet for C, twelve bytes each, as they stand there. Here, in order: fillable; the exported
// functions, of which spg_vertices_number alone writes.
ghost use Rattle.std.specs.Prelude.{◌≡◌, length};
ghost use Rattle.answer.specs.Answer.{number_of, place_of};
ghost use Rattle.fields.specs.Parts.{value_after};
ghost use Rattle.sheet.specs.Open.{opened_of};
ghost use Rattle.spargolutta.specs.Reading.{fill_check, fill_of, filled_to};

use answer::{Reason, Refusal};
use big_endian::store::put_bytes;
use sheet::open::{Opened, vertices_in};
use sheet::read::opened;

// The sheet's refusal, then 27.
#[tactic(auto, using(crate::proofs::Read::opened_fill, crate::proofs::Read::refused_fill, crate::proofs::Read::short_fill, crate::proofs::Read::whole_fill))]
fn fillable(sheet: &[u8], room: usize) -> Result<Opened, Refusal>
    ensures { result ≡ value_after (fill_check sheet.now room) (opened_of sheet.now) }
{
    let zone = opened(sheet)?;
    let needed = zone.count * 12;
    if room < needed {
        return Err(Reason::ResultRoom.at(needed));
    }
    Ok(zone)
}

// Bytes are written if and only if the number is 0.
#[unsafe(no_mangle)]
pub extern "C" fn spg_vertices_number(sheet: &[u8], vertices: &mut [u8]) -> u32
    ensures value { result ≡ number_of (fill_of sheet.now (length vertices.old)) }
    ensures vertices_after { vertices.new ≡ filled_to sheet.now vertices.old }
{
    match fillable(sheet, vertices.len()) {
        Ok(zone) => {
            put_bytes(vertices, 0, vertices_in(sheet, zone.name, zone.count));
            0
        }
        Err(refusal) => refusal.reason.number(),
    }
}

#[unsafe(no_mangle)]
pub extern "C" fn spg_vertices_place(sheet: &[u8], room: usize) -> usize
    ensures { result ≡ place_of (fill_of sheet.now room) }
{
    match fillable(sheet, room) {
        Ok(_) => 0,
        Err(refusal) => refusal.place,
    }
}

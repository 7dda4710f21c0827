// How far a zone reaches, for C. Here, in order: the exported functions, of which spg_box_number alone writes.
ghost use Rattle.std.specs.Prelude.{◌≡◌, length};
ghost use Rattle.answer.specs.Answer.{number_of, place_of};
ghost use Rattle.extent.specs.Extent.{FarNumber};
ghost use Rattle.extent.specs.Boxes.{box_of, box_count_of, BoxAfter};

use extent::boxes::{count, place, put_box};
use extent::measure::far;

// The verdict on the far side where a plane was found that has all vertices strictly ahead, or 0; the sheet's refusal.
#[unsafe(no_mangle)]
pub extern "C" fn spg_far_number(sheet: &[u8]) -> u32
    ensures { FarNumber sheet.now result }
{
    far(sheet)
}

// The box is written if and only if the number is 0.
#[unsafe(no_mangle)]
pub extern "C" fn spg_box_number(sheet: &[u8], out: &mut [u8]) -> u32
    ensures value { result ≡ number_of (box_of sheet.now (length out.old)) }
    ensures box_after { BoxAfter sheet.now out.old out.new }
{
    put_box(sheet, out)
}

#[unsafe(no_mangle)]
pub extern "C" fn spg_box_place(sheet: &[u8], room: usize) -> usize
    ensures { result ≡ place_of (box_of sheet.now room) }
{
    place(sheet, room)
}

// 1 where the zone has a box of its own.
#[unsafe(no_mangle)]
pub extern "C" fn spg_box_count(sheet: &[u8], room: usize) -> u32
    ensures { result ≡ box_count_of sheet.now room }
{
    count(sheet, room)
}

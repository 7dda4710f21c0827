// The box of a sheet's zone, in bytes. Here, in order: box_check (27, then the sheet's refusal), place, count,
// store, put_box.
ghost use Rattle.std.specs.Prelude.{◌≡◌, length, ◌≤◌};
ghost use Rattle.sphere.specs.Point.{Within};
ghost use Rattle.answer.specs.Answer.{number_of, place_of};
ghost use Rattle.answer.specs.Buffer.{buffer_after};
ghost use Rattle.extent.specs.Sides.{box_bytes};
ghost use Rattle.extent.specs.Boxes.{box_check, box_of, box_count_of, BoxAfter};

use crate::measure::measure;
use crate::sides::{Sides, whole};
use answer::{Check, Reason};
use big_endian::store::put_point;
use sheet::read::sheet_check;

#[tactic(auto, using(std::proofs::lemmas::Bool::Decides::nat_tests), unfolding(crate::specs::Boxes::box_check))]
fn box_check(sheet: &[u8], room: usize) -> Check
    ensures { result ≡ box_check sheet.now room }
{
    if room < 24 {
        return Err(Reason::ResultRoom.at(24));
    }
    sheet_check(sheet)
}

pub fn place(sheet: &[u8], room: usize) -> usize
    ensures { result ≡ place_of (box_of sheet.now room) }
{
    match box_check(sheet, room) {
        Ok(()) => 0,
        Err(refusal) => refusal.place,
    }
}

// 1 where the zone has a box of its own.
#[tactic(auto, using(std::proofs::lemmas::Bool::Decides::nat_tests, crate::proofs::Reach::told_bounded), unfolding(crate::specs::Boxes::box_check))]
pub fn count(sheet: &[u8], room: usize) -> u32
    ensures { result ≡ box_count_of sheet.now room }
{
    if room < 24 {
        return 0;
    }
    match measure(sheet) {
        Ok(extent) => u32::from(extent.own.is_some()),
        Err(_) => 0,
    }
}

#[tactic(auto, using(crate::proofs::Reach::box_stored_lem))]
fn store(out: &mut [u8], sides: Sides)
    requires { (24 ≤ length out.old) × (Within 2147483647 sides.low × Within 2147483647 sides.high) }
    ensures { out.new ≡ buffer_after (Ok tt) (box_bytes sides) out.old }
{
    put_point(out, 0, sides.low);
    put_point(out, 12, sides.high);
}

// The box is written if and only if the number is 0.
#[tactic(auto, using(std::proofs::lemmas::Bool::Decides::nat_tests, crate::proofs::Reach::told_range), unfolding(crate::specs::Boxes::box_check))]
pub fn put_box(sheet: &[u8], out: &mut [u8]) -> u32
    ensures value { result ≡ number_of (box_of sheet.now (length out.old)) }
    ensures box_after { BoxAfter sheet.now out.old out.new }
{
    if out.len() < 24 {
        return Reason::ResultRoom.number();
    }
    match measure(sheet) {
        Ok(extent) => {
            store(out, extent.own.unwrap_or(whole()));
            0
        }
        Err(refusal) => refusal.reason.number(),
    }
}

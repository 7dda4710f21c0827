// Writing a sheet, from any input into any buffer.
// Here, in order: input_check (23, 22, 10, 28, 11 to 16, 19), second_size, bytes_needed, write_answer (25 too; nothing
// is written), write. A second point of all zero is none, and has no grid.
ghost use Rattle.std.specs.Prelude.{◌≡◌, ◌≤◌, length};
ghost use Rattle.sheet.specs.Write.{second_size, bytes_needed, input_check, write_of, written_to};

use crate::store;
use answer::{Answer, Check, Reason, Verdict};
use judging::second::optional_check;
use polygon::grids::{grid_check, grid_of_second, is_mixed};
use sphere::point::{Grid, GridPoint, Point, is_null};

#[tactic(auto, unfolding(crate::specs::Write::input_check))]
fn input_check(
    charset: u32,
    name: &[u8],
    known: GridPoint,
    grid: Grid,
    vertices: &[i32],
    second: GridPoint,
) -> Check
    ensures { result ≡ input_check charset name.now known grid vertices.now second }
{
    if !fields::is_charset(charset) {
        return Err(Reason::Charset.at(0));
    }
    if !fields::is_allowed(name.len(), 1, 120, 1) {
        return Err(Reason::FieldLength.at(0));
    }
    grid_check(
        vertices,
        is_mixed(grid, known.grid, grid_of_second(grid, second)),
    )?;
    optional_check(grid, vertices, known.point, second.point)
}

// The bytes of the second point's field.
#[tactic(auto, unfolding(crate::specs::Write::second_size))]
fn second_size(second: Point) -> usize
    ensures { (result ≡ second_size second) × (result ≤ 15) }
{
    if is_null(second) { 0 } else { 15 }
}

// The bytes that a sheet takes.
fn bytes_needed(name: &[u8], vertices: &[i32], second: Point) -> usize
    requires { (length name.now ≤ 120) × (length vertices.now ≤ 12288) }
    ensures { result ≡ bytes_needed name.now vertices.now second }
{
    32 + name.len() + vertices.len() * 4 + second_size(second)
}

// What `write` would answer with `room` bytes for the sheet.
#[tactic(auto, using(crate::proofs::Laws::Writes::input_sizes, std::proofs::lemmas::Bool::Decides::nat_tests), unfolding(crate::specs::Write::write_of, crate::specs::Write::write_check))]
pub fn write_answer(
    charset: u32,
    name: &[u8],
    known: GridPoint,
    grid: Grid,
    vertices: &[i32],
    second: GridPoint,
    room: usize,
) -> Answer
    ensures { result ≡ write_of charset name.now known grid vertices.now second room }
{
    input_check(charset, name, known, grid, vertices, second)?;
    let needed = bytes_needed(name, vertices, second.point);
    if room < needed {
        return Err(Reason::SheetRoom.at(needed));
    }
    Ok(Verdict::Done(needed))
}

// Writes a sheet into the first bytes of the buffer. A refusal changes none.
#[tactic(auto, using(crate::proofs::Laws::Writes::answered, crate::proofs::Laws::Writes::refused_kept, crate::proofs::Laws::Writes::passed_stored))]
pub fn write(
    zone: u32,
    charset: u32,
    name: &[u8],
    known: GridPoint,
    grid: Grid,
    vertices: &[i32],
    second: GridPoint,
    buffer: &mut [u8],
) -> Answer
    ensures value { result
        ≡ write_of charset name.now known grid vertices.now second
        (length buffer.old) }
    ensures buffer_after { buffer.new
        ≡ written_to zone charset name.now known grid vertices.now second
        buffer.old }
{
    let written = write_answer(charset, name, known, grid, vertices, second, buffer.len())?;
    store::put_sheet(
        buffer,
        zone,
        charset,
        name,
        known.point,
        grid,
        vertices,
        second.point,
    );
    Ok(written)
}

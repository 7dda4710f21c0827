// Writing the octant's sheet, and what is not written. A refusal is met while those that come after it hold too: one
// fault after another is mended, and every byte of the buffer has to stay. Here, in order: is_kept, write_octant,
// longest_name, past_fine, nowhere, head, heads, list, lists, run.
ghost use Rattle.std.specs.Prelude.{◌≤◌, length};

use crate::given::{coarse, fine, inner, none, octant, on, point};
use crate::lines;
use crate::reading::octant_on;
use sheet::{read, write};
use sphere::point::Grid;

// Whether the octant's 69 bytes are the sheet's, and the three behind them stayed.
fn is_kept(buffer: &[u8], sheet: &[u8]) -> bool
    requires { (72 ≤ length buffer.now) × (69 ≤ length sheet.now) }
{
    if buffer[0..69] == sheet[0..69] {
        return buffer[69..72] == b"\xee\xee\xee"[..];
    }
    false
}

// None has no grid: one that says another is no mixture.
fn write_octant(rt: &impl Print, label: &[u8], grid: Grid) {
    let known = on(grid, inner());
    let mut buffer = [238u8; 72];
    let written = write::write(
        7,
        1,
        b"A",
        known,
        grid,
        &octant(),
        coarse(none()),
        &mut buffer,
    );
    lines::print_kept(rt, label, written, is_kept(&buffer, &octant_on(grid)))
}

// 32 bytes, the name, and 12 for each vertex, whose numbers are at the fine grid's limit.
fn longest_name(rt: &impl Print) {
    let largest = [67108864, 0, 0, 0, 67108864, 0, 0, 0, 67108864];
    let known = fine(inner());
    let mut buffer = [238u8; 188];
    let _ = write::write(
        7,
        2,
        &[65; 120],
        known,
        Grid::Fine,
        &largest,
        fine(none()),
        &mut buffer,
    );
    lines::print_sheet(rt, b"write_188", read::read(&buffer))
}

// Vertex 2 is past the fine grid's limit.
fn past_fine(rt: &impl Print) {
    let past = [1, 0, 0, 0, 1, 0, 0, 0, 67108865];
    let known = fine(inner());
    let mut buffer = [238u8; 69];
    let written = write::write(
        7,
        1,
        b"A",
        known,
        Grid::Fine,
        &past,
        fine(none()),
        &mut buffer,
    );
    lines::print_kept(rt, b"write_fine_11", written, buffer == [238; 69])
}

// No room at all.
fn nowhere(rt: &impl Print) {
    let known = coarse(inner());
    let mut buffer = [238u8; 0];
    let written = write::write(
        7,
        1,
        b"A",
        known,
        Grid::Coarse,
        &octant(),
        coarse(none()),
        &mut buffer,
    );
    lines::print_answer(rt, b"write_room_0", written)
}

// The first n numbers of a list past the limit, and points that fail.
fn head(rt: &impl Print, charset: u32, name: &[u8], n: usize, known: Grid, second: Grid)
    requires { n ≤ 9 }
{
    let beyond = [1048577, 0, 0, 0, 1, 0, 0, 0, 1];
    let first = on(known, none());
    let other = on(second, inner());
    let mut buffer = [238u8; 84];
    let written = write::write(
        7,
        charset,
        name,
        first,
        Grid::Coarse,
        &beyond[0..n],
        other,
        &mut buffer,
    );
    lines::print_kept(rt, b"write_head", written, buffer == [238; 84])
}

// 23, 23, 22, 22, 10; 28 for either point; 11.
fn heads(rt: &impl Print) {
    head(rt, 0, b"", 6, Grid::Fine, Grid::Fine);
    head(rt, 4, b"", 6, Grid::Fine, Grid::Fine);
    head(rt, 1, b"", 6, Grid::Fine, Grid::Fine);
    head(rt, 2, &[65; 121], 6, Grid::Fine, Grid::Fine);
    head(rt, 3, b"A", 6, Grid::Fine, Grid::Fine);
    head(rt, 3, b"A", 9, Grid::Fine, Grid::Coarse);
    head(rt, 3, b"A", 9, Grid::Coarse, Grid::Fine);
    head(rt, 3, b"A", 9, Grid::Coarse, Grid::Coarse);
}

// From (x, 2, z) and (1, 2, w). The sheet has 32 + 1 + 72 + 15 bytes.
fn list(rt: &impl Print, vertices: &[i32; 18], x: i64, z: i64, w: i64) {
    let known = coarse(point(x, 2, z));
    let second = coarse(point(1, 2, w));
    let mut buffer = [238u8; 119];
    let written = write::write(
        7,
        1,
        b"A",
        known,
        Grid::Coarse,
        vertices,
        second,
        &mut buffer,
    );
    lines::print_kept(rt, b"write_list", written, buffer == [238; 119])
}

// 11 for vertex 1, 12 for vertex 2, 13 for edge 3, which joins (0, 0, 1) to (0, 0, 2), 14 for edge 5, which joins
// (-1, 0, 0) to (1, 0, 0). The planes of the edges are then z = 0, z = 0, y = 0, x = 0, 2x - 2y + z = 0 and z = 0: 15
// for a known point past the limit, 16 with edge 0 for (1, 2, 0), 19 for (1, 2, 3) twice. (1, 2, 4) is on its side of
// each plane, so it passes: 25.
fn lists(rt: &impl Print) {
    let mut vertices = [1, 0, 0, 0, 1048577, 0, 0, 0, 0, 0, 0, 1, 0, 0, 2, -1, 0, 0];
    list(rt, &vertices, 1048577, 0, 3);
    vertices[4] = 1;
    list(rt, &vertices, 1048577, 0, 3);
    vertices[6] = -1;
    list(rt, &vertices, 1048577, 0, 3);
    vertices[13] = 1;
    list(rt, &vertices, 1048577, 0, 3);
    vertices[16] = -1;
    list(rt, &vertices, 1048577, 0, 3);
    list(rt, &vertices, 1, 0, 3);
    list(rt, &vertices, 1, 3, 3);
    list(rt, &vertices, 1, 3, 4);
}

pub(crate) fn run(rt: &impl Print) {
    write_octant(rt, b"write_69", Grid::Coarse);
    write_octant(rt, b"write_fine_69", Grid::Fine);
    longest_name(rt);
    past_fine(rt);
    nowhere(rt);
    heads(rt);
    lists(rt);
}

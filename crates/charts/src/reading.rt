// What reading hands back, which no call from C does. Here, in order: octant_sheet, tag, octant_on, front, again, run.
ghost use Rattle.std.specs.Prelude.{◌≡◌, ◌≤◌, length};

use crate::given::{octant, on};
use crate::lines;
use sheet::{read, write};
use sphere::point::Grid;

// Document 01's octant: zone 7, UTF-8, the name 0x41. A line for each field, and for each vertex of the fifth. Its 69
// bytes are followed by the field of a second point (document 02, P4), (1, 1, 2).
fn octant_sheet() -> [u8; 84]
    ensures { 84 ≡ length result }
{
    *b"\x01\x00\x04\x00\x00\x00\x07\
       \x02\x00\x01\x01\
       \x03\x00\x01\x41\
       \x04\x00\x0c\x00\x00\x00\x01\x00\x00\x00\x01\x00\x00\x00\x01\
       \x05\x00\x24\
       \x00\x00\x00\x01\x00\x00\x00\x00\x00\x00\x00\x00\
       \x00\x00\x00\x00\x00\x00\x00\x01\x00\x00\x00\x00\
       \x00\x00\x00\x00\x00\x00\x00\x00\x00\x00\x00\x01\
       \x06\x00\x0c\x00\x00\x00\x01\x00\x00\x00\x01\x00\x00\x00\x02"
}

fn tag(grid: Grid) -> u8 {
    match grid {
        Grid::Coarse => 5,
        Grid::Fine => 7,
    }
}

// The same on any grid (document 02, P8): the fifth field begins at 30.
pub(crate) fn octant_on(grid: Grid) -> [u8; 84]
    ensures { 84 ≡ length result }
{
    let mut sheet = octant_sheet();
    sheet[30] = tag(grid);
    sheet
}

// Its first n bytes.
fn front(rt: &impl Print, label: &[u8], grid: Grid, n: usize)
    requires { n ≤ 84 }
{
    let sheet = octant_on(grid);
    lines::print_sheet(rt, label, read::read(&sheet[0..n]))
}

// What was read is written again, its points and its grid too: the same bytes.
fn again(rt: &impl Print, label: &[u8], grid: Grid) {
    let bytes = octant_on(grid);
    let sheet = read::read(&bytes);
    let own = sheet.grid;
    let known = sheet.known;
    let second = sheet.second;
    let mut buffer = [238u8; 84];
    let written = write::write(
        sheet.zone,
        sheet.charset,
        b"A",
        on(own, known),
        own,
        &octant(),
        on(own, second),
        &mut buffer,
    );
    lines::print_kept(rt, label, written, buffer == bytes)
}

// A refused sheet has no parts and the coarse grid, whatever its tag.
pub(crate) fn run(rt: &impl Print) {
    front(rt, b"sheet_69", Grid::Coarse, 69);
    front(rt, b"sheet_fine_84", Grid::Fine, 84);
    front(rt, b"sheet_fine_68", Grid::Fine, 68);
    again(rt, b"again_84", Grid::Coarse);
    again(rt, b"again_fine_84", Grid::Fine);
}

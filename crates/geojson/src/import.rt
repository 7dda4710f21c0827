// A sheet from a text: document 02's P7, on either grid. Any bytes and numbers.
// Here, in order: list_size, on_grid, answer_plain, write_plain; import_answer (nothing is written), import.
ghost use Rattle.std.specs.Prelude.{◌≡◌, ◌*◌, ◌≤◌, min, length};
ghost use Rattle.polygon.specs.GridClaims.{on};
ghost use Rattle.geojson.specs.Import.{plain_write_of, plain_written_to, import_on, imported_on};

use crate::scan::scan;
use answer::Answer;
use sheet::write::{write, write_answer};
use sphere::point::{Grid, GridPoint, Point};

// The numbers of at most 4,097 vertices.
fn list_size(n: usize) -> usize
    ensures { (result ≡ min n 4097 * 3) × (result ≤ 12291) }
{
    n.min(4097) * 3
}

fn on_grid(grid: Grid, p: Point) -> GridPoint
    ensures { result ≡ on grid p }
{
    GridPoint { grid, point: p }
}

fn answer_plain(
    grid: Grid,
    charset: u32,
    name: &[u8],
    known: Point,
    vertices: &[i32],
    room: usize,
) -> Answer
    ensures { result ≡ plain_write_of grid charset name.now known vertices.now room }
{
    let known = on_grid(grid, known);
    let second = on_grid(grid, Point { x: 0, y: 0, z: 0 });
    write_answer(charset, name, known, grid, vertices, second, room)
}

fn write_plain(
    grid: Grid,
    zone: u32,
    charset: u32,
    name: &[u8],
    known: Point,
    vertices: &[i32],
    buffer: &mut [u8],
) -> Answer
    ensures value { result
        ≡ plain_write_of grid charset name.now known vertices.now (length buffer.old) }
    ensures buffer_after { buffer.new
        ≡ plain_written_to grid zone charset name.now known vertices.now buffer.old }
{
    let known = on_grid(grid, known);
    let second = on_grid(grid, Point { x: 0, y: 0, z: 0 });
    write(zone, charset, name, known, grid, vertices, second, buffer)
}

// What `import` would answer with `room` bytes for the sheet.
#[tactic(auto, using(crate::proofs::Imports::import_refused, crate::proofs::Imports::import_kept))]
pub fn import_answer(
    grid: Grid,
    text: &[u8],
    charset: u32,
    name: &[u8],
    known: Point,
    room: usize,
) -> Answer
    ensures { result ≡ import_on grid text.now charset name.now known room }
{
    let mut list = [0i32; 12291];
    let n = scan(grid, text, &mut list)?;
    answer_plain(grid, charset, name, known, &list[..list_size(n)], room)
}

// Writes the sheet of the text's positions. A refusal changes no byte of the buffer.
#[tactic(auto, using(crate::proofs::Imports::import_refused, crate::proofs::Imports::import_kept, crate::proofs::Imports::buffer_refused, crate::proofs::Imports::buffer_kept))]
pub fn import(
    grid: Grid,
    text: &[u8],
    zone: u32,
    charset: u32,
    name: &[u8],
    known: Point,
    buffer: &mut [u8],
) -> Answer
    ensures value { result ≡ import_on grid text.now charset name.now known (length buffer.old) }
    ensures buffer_after { buffer.new
        ≡ imported_on grid zone text.now charset name.now known buffer.old }
{
    let mut list = [0i32; 12291];
    let n = scan(grid, text, &mut list)?;
    write_plain(
        grid,
        zone,
        charset,
        name,
        known,
        &list[..list_size(n)],
        buffer,
    )
}

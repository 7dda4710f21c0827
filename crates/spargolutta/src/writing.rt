// A sheet written from C: vertices of twelve bytes each, and the number of the grid that all points are on. Here, in
// order: point_grid, placed, list_size, write_list, answer_list; the exported functions, of which spg_write_number
// alone writes. A second point of all zero is none.
ghost use Rattle.std.specs.Prelude.{◌≡◌, ◌*◌, ◌≤◌, length};
ghost use Rattle.answer.specs.Answer.{number_of, place_of};
ghost use Rattle.polygon.specs.GridClaims.{on};
ghost use Rattle.spargolutta.specs.Query.{query_of};
ghost use Rattle.spargolutta.specs.Writing.{point_grid, bytes_write_of, bytes_written_to, list_size};

use crate::query;
use answer::{Answer, number, place};
use big_endian::read::decode;
use sheet::write::{write, write_answer};
use sphere::point::{Grid, GridPoint, Point, grid_numbered};

fn point_grid(grid: u32) -> Grid
    ensures { result ≡ point_grid grid }
{
    if grid == 1 {
        return Grid::Fine;
    }
    Grid::Coarse
}

fn placed(grid: u32, p: Point) -> GridPoint
    ensures { result ≡ on (point_grid grid) p }
{
    GridPoint {
        grid: point_grid(grid),
        point: p,
    }
}

// How many numbers there are to decode: none where 10 is certain.
fn list_size(n: usize) -> usize
    ensures { (result ≡ list_size n) × ((result * 4 ≤ n) × (result ≤ 12288)) }
{
    if n % 12 != 0 {
        return 0;
    }
    if n > 49152 {
        return 0;
    }
    n / 12 * 3
}

fn write_list(
    zone: u32,
    charset: u32,
    name: &[u8],
    known: Point,
    second: Point,
    vertices: &[u8],
    grid: u32,
    sheet: &mut [u8],
) -> Answer
    ensures value { result
        ≡ bytes_write_of charset name.now known second vertices.now grid
        (length sheet.old) }
    ensures sheet_after { sheet.new
        ≡ bytes_written_to zone charset name.now known second vertices.now grid
        sheet.old }
{
    let known = placed(grid, known);
    let second = placed(grid, second);
    let own = grid_numbered(grid);
    let size = list_size(vertices.len());
    let mut scratch = [0i32; 12288];
    decode(vertices, 0, size, &mut scratch);
    write(
        zone,
        charset,
        name,
        known,
        own,
        &scratch[..size],
        second,
        sheet,
    )
}

// What `write_list` would answer with `room` bytes for the sheet.
fn answer_list(
    charset: u32,
    name: &[u8],
    known: Point,
    second: Point,
    vertices: &[u8],
    grid: u32,
    room: usize,
) -> Answer
    ensures { result ≡ bytes_write_of charset name.now known second vertices.now grid room }
{
    let known = placed(grid, known);
    let second = placed(grid, second);
    let own = grid_numbered(grid);
    let size = list_size(vertices.len());
    let mut scratch = [0i32; 12288];
    decode(vertices, 0, size, &mut scratch);
    write_answer(charset, name, known, own, &scratch[..size], second, room)
}

// The sheet is written if and only if the number is 0.
#[unsafe(no_mangle)]
pub extern "C" fn spg_write_number(
    zone: u32,
    charset: u32,
    name: &[u8],
    x: i32,
    y: i32,
    z: i32,
    u: i32,
    v: i32,
    w: i32,
    vertices: &[u8],
    grid: u32,
    sheet: &mut [u8],
) -> u32
    ensures value { result
        ≡ number_of (bytes_write_of charset name.now (query_of x y z)
        (query_of u v w) vertices.now grid (length sheet.old)) }
    ensures sheet_after { sheet.new
        ≡ bytes_written_to zone charset name.now (query_of x y z)
        (query_of u v w) vertices.now grid sheet.old }
{
    let known = query(x, y, z);
    let second = query(u, v, w);
    number(write_list(zone, charset, name, known, second, vertices, grid, sheet))
}

#[unsafe(no_mangle)]
pub extern "C" fn spg_write_place(
    _zone: u32,
    charset: u32,
    name: &[u8],
    x: i32,
    y: i32,
    z: i32,
    u: i32,
    v: i32,
    w: i32,
    vertices: &[u8],
    grid: u32,
    room: usize,
) -> usize
    ensures { result
        ≡ place_of (bytes_write_of charset name.now (query_of x y z)
        (query_of u v w) vertices.now grid room) }
{
    let known = query(x, y, z);
    let second = query(u, v, w);
    place(answer_list(charset, name, known, second, vertices, grid, room))
}

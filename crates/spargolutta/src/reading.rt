// The parts of a sheet, read from C. Here, in order: narrow, numbers, known, second; the exported functions, each of
// which hands out one part of what reading says: zeros on a refusal, and of a second point where there is none. Nothing
// is written.
ghost use Rattle.std.specs.Prelude.{◌≡◌};
ghost use Rattle.sphere.specs.Point.{Fits, Within};
ghost use Rattle.answer.specs.Answer.{number_of, place_of};
ghost use Rattle.book.specs.Which.{grid_number_of};
ghost use Rattle.sheet.specs.Sheet.{read_of};
ghost use Rattle.spargolutta.specs.Reading.{point_numbers};

use angles::point::GridNumbers;
use answer::{number, place};
use book::which::grid_number;
use sheet::read::read;
use sphere::point::Point;

// A number of a point, which is on a grid.
fn narrow(k: i64) -> i32
    requires { Fits 2147483647 k }
    ensures { result ≡ k }
{
    k as i32
}

// A point's three numbers.
fn numbers(p: Point) -> GridNumbers
    requires { Within 2147483647 p }
    ensures { result ≡ point_numbers p }
{
    GridNumbers {
        x: narrow(p.x),
        y: narrow(p.y),
        z: narrow(p.z),
    }
}

fn known(sheet: &[u8]) -> GridNumbers
    ensures { result ≡ point_numbers (read_of sheet.now).known }
{
    let s = read(sheet);
    let p = s.known;
    numbers(p)
}

fn second(sheet: &[u8]) -> GridNumbers
    ensures { result ≡ point_numbers (read_of sheet.now).second }
{
    let s = read(sheet);
    let p = s.second;
    numbers(p)
}

#[unsafe(no_mangle)]
pub extern "C" fn spg_sheet_number(sheet: &[u8]) -> u32
    ensures { result ≡ number_of (read_of sheet.now).answer }
{
    let s = read(sheet);
    let answer = s.answer;
    number(answer)
}

#[unsafe(no_mangle)]
pub extern "C" fn spg_sheet_place(sheet: &[u8]) -> usize
    ensures { result ≡ place_of (read_of sheet.now).answer }
{
    let s = read(sheet);
    let answer = s.answer;
    place(answer)
}

#[unsafe(no_mangle)]
pub extern "C" fn spg_sheet_zone(sheet: &[u8]) -> u32
    ensures { result ≡ (read_of sheet.now).zone }
{
    read(sheet).zone
}

#[unsafe(no_mangle)]
pub extern "C" fn spg_sheet_charset(sheet: &[u8]) -> u32
    ensures { result ≡ (read_of sheet.now).charset }
{
    read(sheet).charset
}

#[unsafe(no_mangle)]
pub extern "C" fn spg_sheet_name_place(sheet: &[u8]) -> usize
    ensures { result ≡ (read_of sheet.now).name_at }
{
    read(sheet).name_at
}

#[unsafe(no_mangle)]
pub extern "C" fn spg_sheet_name_length(sheet: &[u8]) -> usize
    ensures { result ≡ (read_of sheet.now).name_len }
{
    read(sheet).name_len
}

#[unsafe(no_mangle)]
pub extern "C" fn spg_sheet_known_x(sheet: &[u8]) -> i32
    ensures { result ≡ (read_of sheet.now).known.x }
{
    let p = known(sheet);
    p.x
}

#[unsafe(no_mangle)]
pub extern "C" fn spg_sheet_known_y(sheet: &[u8]) -> i32
    ensures { result ≡ (read_of sheet.now).known.y }
{
    let p = known(sheet);
    p.y
}

#[unsafe(no_mangle)]
pub extern "C" fn spg_sheet_known_z(sheet: &[u8]) -> i32
    ensures { result ≡ (read_of sheet.now).known.z }
{
    let p = known(sheet);
    p.z
}

#[unsafe(no_mangle)]
pub extern "C" fn spg_sheet_second_x(sheet: &[u8]) -> i32
    ensures { result ≡ (read_of sheet.now).second.x }
{
    let p = second(sheet);
    p.x
}

#[unsafe(no_mangle)]
pub extern "C" fn spg_sheet_second_y(sheet: &[u8]) -> i32
    ensures { result ≡ (read_of sheet.now).second.y }
{
    let p = second(sheet);
    p.y
}

#[unsafe(no_mangle)]
pub extern "C" fn spg_sheet_second_z(sheet: &[u8]) -> i32
    ensures { result ≡ (read_of sheet.now).second.z }
{
    let p = second(sheet);
    p.z
}

// 0 for the coarse grid, 1 for the fine one.
#[unsafe(no_mangle)]
pub extern "C" fn spg_sheet_grid(sheet: &[u8]) -> u32
    ensures { result ≡ grid_number_of (read_of sheet.now).grid }
{
    let s = read(sheet);
    let grid = s.grid;
    grid_number(grid)
}

#[unsafe(no_mangle)]
pub extern "C" fn spg_sheet_vertices(sheet: &[u8]) -> usize
    ensures { result ≡ (read_of sheet.now).vertex_count }
{
    read(sheet).vertex_count
}

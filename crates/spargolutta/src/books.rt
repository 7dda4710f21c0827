// Document 02, P10, from C: one query to a book of sheets, and the steps of a reader over its bytes. Each function
// hands out one number; nothing is written. A step keeps no state: the caller keeps the place.
ghost use Rattle.std.specs.Prelude.{◌≡◌};
ghost use Rattle.book.specs.Step.{step_number_of, step_place_of, step_count_of, step_at};
ghost use Rattle.book.specs.Which.{which_of};
ghost use Rattle.spargolutta.specs.Query.{query_of};

use crate::query;
use book::reader::step_from;
use book::sets::Which;
use book::step::{count, number, place};
use book::which::which;

// All that a book answers. Each exported function hands out one number of it.
fn which_zones(book: &[u8], grid: u32, x: i32, y: i32, z: i32) -> Which
    ensures { result ≡ which_of book.now grid (query_of x y z) }
{
    which(book, grid, query(x, y, z))
}

#[unsafe(no_mangle)]
pub extern "C" fn spg_book_number(book: &[u8], grid: u32, x: i32, y: i32, z: i32) -> u32
    ensures { result ≡ (which_of book.now grid (query_of x y z)).number }
{
    which_zones(book, grid, x, y, z).number
}

#[unsafe(no_mangle)]
pub extern "C" fn spg_book_place(book: &[u8], grid: u32, x: i32, y: i32, z: i32) -> usize
    ensures { result ≡ (which_of book.now grid (query_of x y z)).place }
{
    which_zones(book, grid, x, y, z).place
}

#[unsafe(no_mangle)]
pub extern "C" fn spg_book_count(book: &[u8], grid: u32, x: i32, y: i32, z: i32) -> u32
    ensures { result ≡ (which_of book.now grid (query_of x y z)).count }
{
    which_zones(book, grid, x, y, z).count
}

#[unsafe(no_mangle)]
pub extern "C" fn spg_book_inside(book: &[u8], grid: u32, x: i32, y: i32, z: i32) -> u64
    ensures { result ≡ (which_of book.now grid (query_of x y z)).sets.inside }
{
    which_zones(book, grid, x, y, z).sets.inside
}

#[unsafe(no_mangle)]
pub extern "C" fn spg_book_boundary(book: &[u8], grid: u32, x: i32, y: i32, z: i32) -> u64
    ensures { result ≡ (which_of book.now grid (query_of x y z)).sets.boundary }
{
    which_zones(book, grid, x, y, z).sets.boundary
}

#[unsafe(no_mangle)]
pub extern "C" fn spg_book_refused(book: &[u8], grid: u32, x: i32, y: i32, z: i32) -> u64
    ensures { result ≡ (which_of book.now grid (query_of x y z)).sets.refused }
{
    which_zones(book, grid, x, y, z).sets.refused
}

// One step of the reader from `at`: by number, place and count.
#[unsafe(no_mangle)]
pub extern "C" fn spg_book_next_number(book: &[u8], at: usize) -> u32
    ensures { result ≡ step_number_of (step_at book.now at) }
{
    number(step_from(book, at))
}

#[unsafe(no_mangle)]
pub extern "C" fn spg_book_next_place(book: &[u8], at: usize) -> usize
    ensures { result ≡ step_place_of (step_at book.now at) }
{
    place(step_from(book, at))
}

#[unsafe(no_mangle)]
pub extern "C" fn spg_book_next_count(book: &[u8], at: usize) -> usize
    ensures { result ≡ step_count_of (step_at book.now at) }
{
    count(step_from(book, at))
}

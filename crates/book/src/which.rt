// Which zones of a book hold a query. Here, in order: grid_number, zone_answer, zone_at, which.
ghost use Rattle.std.specs.Prelude.{◌≡◌, ◌+◌, ◌≤◌, length};
ghost use Rattle.fields.specs.Fields.{five_fields};
ghost use Rattle.book.specs.Split.{part_of};
ghost use Rattle.book.specs.Which.{grid_number_of, zone_answer, which_of};

use crate::sets::{Sets, Which};
use crate::step::step_at;
use crate::zones::{broken_by, found, with_zone};
use answer::{Answer, Reason};
use sphere::point::{Grid, Point};
use zone::judge::judge;

// The number that names a grid.
pub fn grid_number(grid: Grid) -> u32
    ensures { result ≡ grid_number_of grid }
{
    match grid {
        Grid::Coarse => 0,
        Grid::Fine => 1,
    }
}

// The single call on a sheet's own bytes, if the named grid is the sheet's.
fn zone_answer(part: &[u8], grid: u32, query: Point) -> Answer
    requires { five_fields part.now ≡ Ok tt }
    ensures { result ≡ zone_answer grid query part.now }
{
    if grid != grid_number(fields::grid(part)) {
        return Err(Reason::OtherGrid.at(0));
    }
    judge(part, query)
}

// The same, of the sheet that stands in the book at `at`.
fn zone_at(book: &[u8], at: usize, size: usize, grid: u32, query: Point) -> Answer
    requires { (at + size ≤ length book.now) × (five_fields (part_of book.now at size) ≡ Ok tt) }
    ensures { result ≡ zone_answer grid query (part_of book.now at size) }
{
    let end = at + size;
    zone_answer(&book[at..end], grid, query)
}

// The sets, and as count how many zones hold the query; or the book's refusal, with empty sets.
pub fn which(book: &[u8], grid: u32, query: Point) -> Which
    ensures { result ≡ which_of book.now grid query }
{
    let mut at = 0;
    let mut zones = Sets {
        inside: 0,
        boundary: 0,
        refused: 0,
    };
    for i in 0..64 {
        match step_at(book, at) {
            Ok(Some((_, size))) => {
                zones = with_zone(zones, i, zone_at(book, at, size, grid, query));
                at += size;
            }
            Ok(None) => return found(zones),
            Err(refusal) => return broken_by(refusal),
        }
    }
    if at < book.len() {
        return broken_by(Reason::ManySheets.at(at));
    }
    found(zones)
}

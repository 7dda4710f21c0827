// One pass over a text: refusals 30 to 33, and the grid numbers of the first 4,097 positions.
// Here, in order: Reader, put, fresh, step, finish, scan_with, scan.
ghost use Rattle.std.specs.Prelude.{◌≡◌, ◌+◌, ◌<◌, ◌≤◌, length};
ghost use Rattle.positions.specs.Number.{fresh, Small};
ghost use Rattle.positions.specs.Text.{class_table, rows};
ghost use Rattle.geojson.specs.Scan.{put_of, step_of, out_of, finish_of, scanned_of, Listed};

use crate::ahead::{Reached, ahead};
use angles::point::{GridNumbers, Position, numbers_on};
use answer::{Reason, Refusal};
use positions::grammar::State;
use positions::number::Pending;
use positions::ring::Ring;
use positions::{grammar, number, ring};
use sphere::point::Grid;

#[derive(Clone, Copy)]
pub struct Reader {
    pub pending: Pending,
    pub ring: Ring,
}

// The grid numbers of position k, if it is among the first 4,097.
#[tactic(auto, using(std::proofs::lemmas::Bool::Decides::nat_tests), unfolding(crate::specs::Scan::put_of, crate::specs::Scan::list_on))]
fn put(grid: Grid, out: &mut [i32; 12291], k: usize, p: Position)
    ensures { out.new ≡ put_of grid out.old k p }
{
    if k < 4097 {
        let GridNumbers { x, y, z } = numbers_on(grid, p);
        let at = k * 3;
        out[at] = x;
        out[at + 1] = y;
        out[at + 2] = z;
    }
}

// No number yet.
fn fresh() -> Pending
    ensures { result ≡ fresh }
{
    Pending {
        negative: false,
        digits: false,
        size: 0,
        unit: 0,
        lon: 0,
    }
}

// One byte more. Most are digits, so this is asked first.
#[tactic(auto, using(positions::proofs::Numbers::digit_no_end), unfolding(crate::specs::Scan::step_of, crate::specs::Scan::out_of))]
fn step(grid: Grid, r: Reader, b: u8, out: &mut [i32; 12291]) -> Reader
    requires { Small r.pending × (r.ring.count + 1 ≤ 18446744073709551615) }
    ensures value { result ≡ step_of r b }
    ensures out_after { out.new ≡ out_of grid r b out.old }
{
    let Reader { pending, ring } = r;
    if !number::is_digit(b) && number::ends(pending, b) {
        let p = number::whole(pending);
        put(grid, out, ring.count, p);
        return Reader {
            pending: fresh(),
            ring: ring::added(ring, p),
        };
    }
    Reader {
        pending: number::next(pending, b),
        ring,
    }
}

#[tactic(auto, using(crate::proofs::Laws::passed_count), unfolding(crate::specs::Scan::finish_of))]
fn finish(r: Reader) -> Result<usize, Refusal>
    ensures { result ≡ finish_of r }
{
    ring::ring_check(r.ring)?;
    Ok(r.ring.count - 1)
}

// The whole text, with the text machine's two tables. The index jumps, as `ahead` takes several bytes at once.
#[tactic(auto, using(crate::proofs::Loop::keeping))]
fn scan_with(
    classes: &[u64; 256],
    table: &[u64; 261],
    grid: Grid,
    text: &[u8],
    out: &mut [i32; 12291],
) -> Result<usize, Refusal>
    requires { (classes.now ≡ class_table) × (table.now ≡ rows) }
    ensures value { result ≡ scanned_of text.now }
    ensures listed { Listed grid result text.now out.new }
{
    let mut s = State { at: 0, ring: 0 };
    let mut r = Reader {
        pending: fresh(),
        ring: ring::none(),
    };
    let mut i = 0;
    while i < text.len() {
        let b = text[i];
        s = grammar::next(classes, table, s, b);
        // No text goes on so.
        if s.at == 76 {
            return Err(Reason::PolygonText.at(i));
        }
        r = step(grid, r, b, out);
        let Reached { at, state, pending } = ahead(text, i + 1, s, r.pending);
        s = state;
        r.pending = pending;
        i = at;
    }
    // The ends of the two texts.
    if s.at == 37 || s.at == 75 {
        return finish(r);
    }
    Err(Reason::PolygonText.at(i))
}

// The tables are laid out once.
pub fn scan(grid: Grid, text: &[u8], out: &mut [i32; 12291]) -> Result<usize, Refusal>
    ensures value { result ≡ scanned_of text.now }
    ensures listed { Listed grid result text.now out.new }
{
    scan_with(
        &grammar::class_table(),
        &grammar::ring_table(),
        grid,
        text,
        out,
    )
}

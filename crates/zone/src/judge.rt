// Judging by a sheet's bytes, from its known point or, for a query opposite that, from its second point. Any bytes and
// any query; nothing is written. Here, in order: judged_in, judged_sized; judged (by the sheet's size); judge,
// looked (document 02, P2).
ghost use Rattle.std.specs.Prelude.{◌≡◌, ◌≤◌, length};
ghost use Rattle.search.specs.Walk.{looked_in};
ghost use Rattle.sheet.specs.Open.{room_for, BoxesFor, decoded_of};
ghost use Rattle.zone.specs.Judge.{sheet_answer_of, sheet_looked_of, boxed_of, RoomIn};

use answer::Answer;
use judging::judge::{Judgement, judge_boxed, unjudged};
use search::walk::Mode;
use sheet::open::open_into;
use sphere::point::Point;

// The vertices are decoded to the front of `scratch`, and their boxes beside them.
#[tactic(auto, using(sheet::proofs::Laws::Opened::opened, judging::proofs::Laws::Judge::none_looked), unfolding(crate::specs::Judge::sheet_answer_of, crate::specs::Judge::sheet_looked_of))]
fn judged_in(
    b: &[u8],
    query: Point,
    scratch: &mut [i32],
    boxes: &mut [i32],
    mode: Mode,
) -> Judgement
    requires { (room_for b.now ≤ length scratch.old) × BoxesFor b.now boxes.old }
    ensures answer_value { (result.answer ≡ sheet_answer_of b.now query)
        × (result.looked ≡ looked_in mode (sheet_looked_of b.now query)) }
    ensures scratch_after { (scratch.new ≡ decoded_of b.now scratch.old)
        × (boxes.new ≡ boxed_of b.now boxes.old) }
{
    match open_into(b, scratch, boxes) {
        Ok(sheet) => {
            let size = sheet.count * 3;
            judge_boxed(
                sheet.grid,
                &scratch[..size],
                boxes,
                sheet.known,
                sheet.second,
                query,
                mode,
            )
        }
        Err(refusal) => unjudged(refusal),
    }
}

// Scratch space for so many numbers, and for so many boxes.
fn judged_sized<const NUMBERS: usize, const BOXES: usize>(
    b: &[u8],
    query: Point,
    mode: Mode,
) -> Judgement
    requires { RoomIn NUMBERS BOXES b.now }
    ensures { (result.answer ≡ sheet_answer_of b.now query)
        × (result.looked ≡ looked_in mode (sheet_looked_of b.now query)) }
{
    let mut scratch = [0i32; NUMBERS];
    let mut boxes = [0i32; BOXES];
    judged_in(b, query, &mut scratch, &mut boxes, mode)
}

// Scratch space by the sheet's size, since clearing it would be most of the call for a short sheet: 255 vertices, 1,365,
// or any. Each size is a function of its own, so that the stack holds one of them.
fn judged(b: &[u8], query: Point, mode: Mode) -> Judgement
    ensures { (result.answer ≡ sheet_answer_of b.now query)
        × (result.looked ≡ looked_in mode (sheet_looked_of b.now query)) }
{
    if b.len() <= 3072 {
        return judged_sized::<768, 48>(b, query, mode);
    }
    if b.len() <= 16384 {
        return judged_sized::<4096, 258>(b, query, mode);
    }
    judged_sized::<12288, 768>(b, query, mode)
}

pub fn judge(b: &[u8], query: Point) -> Answer
    ensures { result ≡ sheet_answer_of b.now query }
{
    judged(b, query, Mode::Boxed).answer
}

// How many edges `judge` looks at.
pub fn looked(b: &[u8], query: Point) -> u32
    ensures { result ≡ sheet_looked_of b.now query }
{
    judged(b, query, Mode::Counted).looked
}

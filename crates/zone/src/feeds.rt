// A feed judged by a sheet's bytes: document 02's P1. Any bytes.
// Here, in order: feed_check, feed_answer (nothing is written); feed_in, feed_sized; feed (by the sheet's size).
ghost use Rattle.std.specs.Prelude.{◌≡◌, ◌≤◌, length};
ghost use Rattle.zone.specs.Judge.{sheet_feed_check, sheet_feed_of, sheet_results_after, RoomIn};
ghost use Rattle.sheet.specs.Open.{room_for, BoxesFor};

use answer::{Answer, Check, Verdict};
use feed::{judge_each, size_check};
use sheet::open::open_into;
use sheet::read::sheet_check;

// All that is checked once for a feed, with `room` bytes for its results.
#[tactic(auto, unfolding(crate::specs::Judge::sheet_feed_check))]
pub fn feed_check(sheet: &[u8], queries: &[u8], room: usize) -> Check
    ensures { result ≡ sheet_feed_check sheet.now queries.now room }
{
    size_check(queries, room)?;
    sheet_check(sheet)
}

// What `feed` would answer with `room` bytes for the results.
#[tactic(auto, unfolding(crate::specs::Judge::sheet_feed_of))]
pub fn feed_answer(sheet: &[u8], queries: &[u8], room: usize) -> Answer
    ensures { result ≡ sheet_feed_of sheet.now queries.now room }
{
    feed_check(sheet, queries, room)?;
    Ok(Verdict::Done(0))
}

// The vertices are decoded to the front of `scratch`, and their boxes beside them.
#[tactic(auto, using(sheet::proofs::Laws::Opened::opened, feed::proofs::Laws::Ends::size_passed, feed::proofs::Laws::ResultBuffer::buffer_stored), unfolding(crate::specs::Judge::sheet_feed_of, crate::specs::Judge::sheet_feed_check, crate::specs::Judge::sheet_results_after))]
fn feed_in(
    sheet: &[u8],
    queries: &[u8],
    results: &mut [u8],
    scratch: &mut [i32],
    boxes: &mut [i32],
) -> Answer
    requires { (room_for sheet.now ≤ length scratch.old) × BoxesFor sheet.now boxes.old }
    ensures value { result ≡ sheet_feed_of sheet.now queries.now (length results.old) }
    ensures results_after { results.new ≡ sheet_results_after sheet.now queries.now
        results.old }
{
    size_check(queries, results.len())?;
    let zone = open_into(sheet, scratch, boxes)?;
    let size = zone.count * 3;
    judge_each(
        zone.grid,
        &scratch[..size],
        boxes,
        zone.known,
        zone.second,
        queries,
        results,
    );
    Ok(Verdict::Done(0))
}

// Scratch space as in `judge`.
fn feed_sized<const NUMBERS: usize, const BOXES: usize>(
    sheet: &[u8],
    queries: &[u8],
    results: &mut [u8],
) -> Answer
    requires { RoomIn NUMBERS BOXES sheet.now }
    ensures value { result ≡ sheet_feed_of sheet.now queries.now (length results.old) }
    ensures results_after { results.new ≡ sheet_results_after sheet.now queries.now
        results.old }
{
    let mut scratch = [0i32; NUMBERS];
    let mut boxes = [0i32; BOXES];
    feed_in(sheet, queries, results, &mut scratch, &mut boxes)
}

// Judges every query and writes its result. A refusal changes no byte of the results.
pub fn feed(sheet: &[u8], queries: &[u8], results: &mut [u8]) -> Answer
    ensures value { result ≡ sheet_feed_of sheet.now queries.now (length results.old) }
    ensures results_after { results.new ≡ sheet_results_after sheet.now queries.now
        results.old }
{
    if sheet.len() <= 3072 {
        return feed_sized::<768, 48>(sheet, queries, results);
    }
    if sheet.len() <= 16384 {
        return feed_sized::<4096, 258>(sheet, queries, results);
    }
    feed_sized::<12288, 768>(sheet, queries, results)
}

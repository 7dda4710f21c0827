// A whole feed in one call: document 02's P1. Here, in order: size_check (26, 27), feed_boxed (26, 27, 10, 28, 11 to
// 16), store_result, mode_for, judge_one, judge_all, judge_by_index, judge_each, judge_feed. Nothing of the polygon is
// copied for a query, and its boxes are built once. A second point that is all zero is none (document 02, P4).
#![tactic(auto)]

pub mod indexed;

ghost use Rattle.std.specs.Prelude.{◌≡◌, ◌+◌, ◌*◌, ◌≤◌, ◌<◌, ltb, length};
ghost use Rattle.std.proofs.lemmas.List.Edits.{sets};
ghost use Rattle.sphere.specs.Point.{limit_of};
ghost use Rattle.answer.specs.Answer.{place_of};
ghost use Rattle.polygon.specs.Pair.{optional_check};
ghost use Rattle.search.specs.Boxes.{Boxed};
ghost use Rattle.search.specs.Walk.{asks_boxes};
ghost use Rattle.cones.specs.Table.{IndexOn};
ghost use Rattle.judging.specs.Accept.{BoxRoom, boxed_after};
ghost use Rattle.feed.specs.Feed.{query_count, room_needed, result_bytes, result_of, feed_bytes, size_check};
ghost use Rattle.feed.specs.Feed.{feed_check, feed_of, results_after};

use crate::indexed::judge_indexed;
use answer::{Answer, Check, Reason, Verdict};
use big_endian::{read, store};
use cones::build::{Index, build, no_index};
use judging::accept::{accept_boxed, no_second};
use polygon::grids::{grid_check, is_mixed};
use search::walk::Mode;
use sphere::point::{Grid, GridPoint, Point};

// Whole queries, and room for a result for each of them.
#[tactic(auto, unfolding(crate::specs::Feed::size_check))]
pub fn size_check(queries: &[u8], room: usize) -> Check
    ensures { result ≡ size_check queries.now room }
{
    let needed = queries.len() / 12 * 12;
    if queries.len() % 12 != 0 {
        Err(Reason::CutRecord.at(0))
    } else if room < needed {
        Err(Reason::ResultRoom.at(needed))
    } else {
        Ok(())
    }
}

// All that is checked once for a feed, with `room` bytes for its results; and the boxes.
#[tactic(auto, unfolding(crate::specs::Feed::feed_check))]
fn feed_boxed(
    grid: Grid,
    vertices: &[i32],
    boxes: &mut [i32],
    known: GridPoint,
    queries_grid: Grid,
    queries: &[u8],
    room: usize,
) -> Check
    requires { BoxRoom vertices.now boxes.old }
    ensures { (result ≡ feed_check grid vertices.now known queries_grid queries.now room)
        × (boxes.new ≡ boxed_after (feed_check grid vertices.now known queries_grid
        queries.now room) vertices.now boxes.old) }
{
    let g = known.grid;
    size_check(queries, room)?;
    grid_check(vertices, is_mixed(grid, g, queries_grid))?;
    accept_boxed(grid, vertices, boxes, known.point)
}

// Twelve bytes: number, place, count.
fn store_result(results: &mut [u8], at: usize, answer: Answer)
    requires { (at + 12 ≤ length results.old) × (place_of answer < 4294967296) }
    ensures { results.new ≡ sets results.old at (result_bytes answer) }
{
    store::put_word(results, at, answer::number(answer));
    store::put_word(results, at + 4, answer::place(answer) as u32);
    store::put_word(results, at + 8, answer::count(answer))
}

// By all edges up to 64 vertices, which is 192 numbers: with so few a look at the boxes costs a feed more than it saves.
pub fn mode_for(size: usize) -> Mode
    ensures { asks_boxes result ≡ ltb 192 size }
{
    if size > 192 { Mode::Boxed } else { Mode::Plain }
}

// Query i and its result. A query that is refused spoils no other.
fn judge_one(
    grid: Grid,
    vertices: &[i32],
    boxes: &[i32],
    sectors: &[u16],
    table: &[u16],
    buckets: &[u16],
    list: &[u16],
    near: &mut [u16],
    index: Index,
    known: Point,
    second: Point,
    queries: &[u8],
    i: usize,
    results: &mut [u8],
)
    requires second_value { (optional_check (limit_of grid) vertices.now known second ≡ Ok tt)
        × Boxed vertices.now boxes.now }
    requires index_on { IndexOn vertices.now known sectors.now table.now list.now index }
    requires i_bound { i < query_count queries.now }
    requires queries_in_bounds { room_needed queries.now ≤ length results.old }
    ensures { results.new ≡ sets results.old (i * 12)
        (result_of (limit_of grid) vertices.now known second queries.now i) }
{
    let at = i * 12;
    let query = read::point_at(queries, at);
    let mode = mode_for(vertices.len());
    let answer = judge_indexed(
        grid, vertices, boxes, sectors, table, buckets, list, near, index, known, second, query,
        mode,
    );
    store_result(results, at, answer)
}

// Every query of a feed, by an index.
fn judge_all(
    grid: Grid,
    vertices: &[i32],
    boxes: &[i32],
    sectors: &[u16],
    table: &[u16],
    buckets: &[u16],
    list: &[u16],
    near: &mut [u16],
    index: Index,
    known: Point,
    second: Point,
    queries: &[u8],
    results: &mut [u8],
)
    requires second_value { (optional_check (limit_of grid) vertices.now known second ≡ Ok tt)
        × Boxed vertices.now boxes.now }
    requires index_on { IndexOn vertices.now known sectors.now table.now list.now index }
    requires queries_in_bounds { room_needed queries.now ≤ length results.old }
    ensures { results.new ≡ sets results.old 0
        (feed_bytes (limit_of grid) vertices.now known second queries.now) }
{
    let n = queries.len() / 12;
    for i in 0..n {
        judge_one(
            grid, vertices, boxes, sectors, table, buckets, list, near, index, known, second,
            queries, i, results,
        );
    }
}

// The same by an index that is built first. Its arrays are on the stack here, where short feeds do not come.
fn judge_by_index(
    grid: Grid,
    vertices: &[i32],
    boxes: &[i32],
    known: Point,
    second: Point,
    queries: &[u8],
    results: &mut [u8],
)
    requires second_value { (optional_check (limit_of grid) vertices.now known second ≡ Ok tt)
        × Boxed vertices.now boxes.now }
    requires queries_in_bounds { room_needed queries.now ≤ length results.old }
    ensures { results.new ≡ sets results.old 0
        (feed_bytes (limit_of grid) vertices.now known second queries.now) }
{
    let mut sectors = [0u16; 8192];
    let mut table = [0u16; 2048];
    let mut buckets = [0u16; 1025];
    let mut list = [0u16; 9984];
    let mut stack = [0u16; 8192];
    let index = build(
        grid,
        vertices,
        known,
        &mut sectors,
        &mut table,
        &mut buckets,
        &mut list,
        &mut stack,
    );
    judge_all(
        grid, vertices, boxes, &sectors, &table, &buckets, &list, &mut stack, index, known, second,
        queries, results,
    )
}

// Every query of a feed whose checks have passed: by the boxes beside the polygon, or by an index where the feed is
// long enough to pay for it. A case for each grid: the compiler takes a function with one caller into that, and its
// arrays into the stack of short feeds.
pub fn judge_each(
    grid: Grid,
    vertices: &[i32],
    boxes: &[i32],
    known: Point,
    second: Point,
    queries: &[u8],
    results: &mut [u8],
)
    requires second_value { (optional_check (limit_of grid) vertices.now known second ≡ Ok tt)
        × Boxed vertices.now boxes.now }
    requires queries_in_bounds { room_needed queries.now ≤ length results.old }
    ensures { results.new ≡ sets results.old 0
        (feed_bytes (limit_of grid) vertices.now known second queries.now) }
{
    let n = queries.len() / 12;
    if n >= vertices.len() / 24 + 128 {
        match grid {
            Grid::Coarse => {
                return judge_by_index(
                    Grid::Coarse,
                    vertices,
                    boxes,
                    known,
                    second,
                    queries,
                    results,
                );
            }
            Grid::Fine => {
                return judge_by_index(Grid::Fine, vertices, boxes, known, second, queries, results);
            }
        }
    }
    let none = [0u16; 1];
    let mut near = [0u16; 1];
    judge_all(
        grid,
        vertices,
        boxes,
        &none,
        &none,
        &none,
        &none,
        &mut near,
        no_index(),
        known,
        second,
        queries,
        results,
    )
}

// The feed from one known point: any records and bytes. The queries have one grid. A refusal changes no byte of the
// results.
#[tactic(auto, unfolding(crate::specs::Feed::feed_of, crate::specs::Feed::results_after))]
pub fn judge_feed(
    grid: Grid,
    vertices: &[i32],
    known: GridPoint,
    queries_grid: Grid,
    queries: &[u8],
    results: &mut [u8],
) -> Answer
    ensures value { result ≡ feed_of grid vertices.now known queries_grid queries.now
        (length results.old) }
    ensures results_after { results.new ≡ results_after grid vertices.now known queries_grid
        queries.now results.old }
{
    let mut boxes = [0i32; 768];
    let room = results.len();
    feed_boxed(
        grid,
        vertices,
        &mut boxes,
        known,
        queries_grid,
        queries,
        room,
    )?;
    let none = no_second();
    judge_each(grid, vertices, &boxes, known.point, none, queries, results);
    Ok(Verdict::Done(0))
}

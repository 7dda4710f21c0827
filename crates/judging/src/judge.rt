// Judging a query on one grid, from the reference point or, where the query is antipodal to that, from a second one, if
// there is one (document 02, P4). Here, in order: by_parity, verdict_on; judge_from; Judgement, unjudged, judge_boxed.
// Document 01, 'What comes back'. The polygon is accepted, with its boxes; what users call is in `calls`.
ghost use Rattle.std.specs.Prelude.{◌≡◌};
ghost use Rattle.sphere.specs.Point.{fine, limit_of, Within};
ghost use Rattle.polygon.specs.Pair.{judge_from, optional_check};
ghost use Rattle.polygon.specs.Verdict.{verdict_by, answer_of};
ghost use Rattle.search.specs.Boxes.{Boxed};
ghost use Rattle.search.specs.Walk.{looked_in};
ghost use Rattle.judging.specs.Judge.{verdict_on, looked_of};

use answer::{Answer, Refusal, Verdict};
use polygon::checks::{far_check, query_check};
use search::walk::{Mode, Tally, search_edges};
use sphere::direction::antipodal;
use sphere::point::{Grid, Point, is_null};

// An even number of crossings means inside.
fn by_parity(crossed: u32, sum: i32) -> Answer
    ensures { result ≡ verdict_by None crossed sum }
{
    if crossed % 2 == 0 {
        Ok(Verdict::Inside(crossed, sum))
    } else {
        Ok(Verdict::Outside(crossed, sum))
    }
}

// Boundary, or by parity.
pub fn verdict_on(tally: Tally) -> Answer
    ensures { result ≡ verdict_on tally }
{
    match tally {
        Tally::Held(edge) => Ok(Verdict::Boundary(edge)),
        Tally::Crossed(crossed, sum) => by_parity(crossed, sum),
    }
}

// The point that judges.
#[tactic(auto, unfolding(polygon::specs::Pair::judge_from))]
fn judge_from(known: Point, second: Point, query: Point) -> Point
    requires { Within fine known × Within fine query }
    ensures { result ≡ judge_from known second query }
{
    if !is_null(second) && antipodal(known, query) {
        second
    } else {
        known
    }
}

// An answer and, where the mode of the search counts them, how many edges were looked at for it (document 02, P2).
#[derive(Clone, Copy)]
pub struct Judgement {
    pub answer: Answer,
    pub looked: u32,
}

pub fn unjudged(refusal: Refusal) -> Judgement
    ensures { (result.answer ≡ Err refusal) × (result.looked ≡ 0) }
{
    Judgement {
        answer: Err(refusal),
        looked: 0,
    }
}

// One query to an accepted polygon with its boxes: a caller with many queries builds them once.
pub fn judge_boxed(
    grid: Grid,
    vertices: &[i32],
    boxes: &[i32],
    known: Point,
    second: Point,
    query: Point,
    mode: Mode,
) -> Judgement
    requires { (optional_check (limit_of grid) vertices.now known second ≡ Ok tt)
        × Boxed vertices.now boxes.now }
    ensures { (result.answer ≡ answer_of (limit_of grid) vertices.now (judge_from known second query) query)
        × (result.looked ≡ looked_in mode (looked_of (limit_of grid) vertices.now (judge_from known second query)
        query)) }
{
    if let Err(refusal) = query_check(grid, query) {
        return unjudged(refusal);
    }
    let from = judge_from(known, second, query);
    if let Err(refusal) = far_check(from, query) {
        return unjudged(refusal);
    }
    let searched = search_edges(grid, vertices, boxes, from, query, mode);
    Judgement {
        answer: verdict_on(searched.tally),
        looked: searched.looked,
    }
}

// The calls over lists, which take any records of points. Here, in order: judged, judge, looked (one known point),
// judged_pair, judge_pair, looked_pair (two), choose_second. Each record says its grid, and mixed grids are refused (document 02, P8): a list
// has its grid beside it.
ghost use Rattle.std.specs.Prelude.{◌≡◌, ◌<◌};
ghost use Rattle.polygon.specs.Vertices.{vertices_count, vertex_at};
ghost use Rattle.polygon.specs.Grids.{grid_answer_of, grid_pair_of, grid_choose_of};
ghost use Rattle.search.specs.Walk.{looked_in};
ghost use Rattle.judging.specs.Judge.{grid_looked_of, grid_looked_pair_of};

use crate::accept::{accept_boxed, no_second};
use crate::judge::{Judgement, judge_boxed, unjudged};
use crate::second::{earliest, pair_boxed};
use answer::{Answer, Reason};
use polygon::grids::{grid_check, is_mixed, is_mixed_of_three};
use polygon::vertices::vertex_at;
use search::walk::Mode;
use sphere::point::{Grid, GridPoint, Point};

// One query, from one known point, in the mode that is asked for.
fn judged(grid: Grid, vertices: &[i32], known: GridPoint, query: GridPoint, mode: Mode) -> Judgement
    ensures { (result.answer ≡ grid_answer_of grid vertices.now known query)
        × (result.looked ≡ looked_in mode (grid_looked_of grid vertices.now known query)) }
{
    let g = known.grid;
    let h = query.grid;
    if let Err(refusal) = grid_check(vertices, is_mixed(grid, g, h)) {
        return unjudged(refusal);
    }
    let mut boxes = [0i32; 768];
    if let Err(refusal) = accept_boxed(grid, vertices, &mut boxes, known.point) {
        return unjudged(refusal);
    }
    let none = no_second();
    judge_boxed(grid, vertices, &boxes, known.point, none, query.point, mode)
}

pub fn judge(grid: Grid, vertices: &[i32], known: GridPoint, query: GridPoint) -> Answer
    ensures { result ≡ grid_answer_of grid vertices.now known query }
{
    judged(grid, vertices, known, query, Mode::Boxed).answer
}

// How many edges `judge` looks at (document 02, P2).
pub fn looked(grid: Grid, vertices: &[i32], known: GridPoint, query: GridPoint) -> u32
    ensures { result ≡ grid_looked_of grid vertices.now known query }
{
    judged(grid, vertices, known, query, Mode::Counted).looked
}

// One query, from two known points (document 02, P4).
fn judged_pair(
    grid: Grid,
    vertices: &[i32],
    known: GridPoint,
    second: GridPoint,
    query: GridPoint,
    mode: Mode,
) -> Judgement
    ensures { (result.answer ≡ grid_pair_of grid vertices.now known second query)
        × (result.looked ≡ looked_in mode (grid_looked_pair_of grid vertices.now known second query)) }
{
    let g = known.grid;
    let h = second.grid;
    let k = query.grid;
    if let Err(refusal) = grid_check(vertices, is_mixed_of_three(grid, g, h, k)) {
        return unjudged(refusal);
    }
    let mut boxes = [0i32; 768];
    if let Err(refusal) = pair_boxed(grid, vertices, &mut boxes, known.point, second.point) {
        return unjudged(refusal);
    }
    judge_boxed(
        grid,
        vertices,
        &boxes,
        known.point,
        second.point,
        query.point,
        mode,
    )
}

pub fn judge_pair(
    grid: Grid,
    vertices: &[i32],
    known: GridPoint,
    second: GridPoint,
    query: GridPoint,
) -> Answer
    ensures { result ≡ grid_pair_of grid vertices.now known second query }
{
    judged_pair(grid, vertices, known, second, query, Mode::Boxed).answer
}

// How many edges `judge_pair` looks at.
pub fn looked_pair(
    grid: Grid,
    vertices: &[i32],
    known: GridPoint,
    second: GridPoint,
    query: GridPoint,
) -> u32
    ensures { result ≡ grid_looked_pair_of grid vertices.now known second query }
{
    judged_pair(grid, vertices, known, second, query, Mode::Counted).looked
}

// The earliest candidate that may be a second known point, by its number. Candidates have one grid.
#[tactic(auto, unfolding(polygon::specs::Grids::grid_choose_of, polygon::specs::Pair::choose_of))]
pub fn choose_second(
    grid: Grid,
    vertices: &[i32],
    known: GridPoint,
    candidates_grid: Grid,
    candidates: &[i32],
) -> Answer
    ensures { result ≡ grid_choose_of grid vertices.now known candidates_grid
        candidates.now }
{
    let g = known.grid;
    if candidates.len() % 3 != 0 {
        return Err(Reason::VertexList.at(0));
    }
    grid_check(vertices, is_mixed(grid, g, candidates_grid))?;
    let mut boxes = [0i32; 768];
    accept_boxed(grid, vertices, &mut boxes, known.point)?;
    let n = candidates.len() / 3;
    earliest(
        grid,
        vertices,
        &boxes,
        known.point,
        n,
        |i| -> Point
            requires { i < vertices_count candidates.now }
            ensures { result ≡ vertex_at candidates.entry.now i }
        { vertex_at(candidates, i) },
    )
}

// The list calls on the octant: on both grids, from mixed ones, from two known points, choosing the second, and the
// edges looked at. Here, in order: judge, look, look_apart, pair, choose, on_grids, grids, looked, coarse_pair, pairs,
// choices, judge_mixed, run.
ghost use Rattle.std.specs.Prelude.{◌≤◌};

use crate::given::{coarse, fine, inner, octant, on, point};
use crate::lines;
use judging::calls;
use sphere::point::Grid;

// K5.
fn judge(rt: &impl Print, list: Grid, known: Grid, query: Grid) {
    let outer = on(query, point(1, 1, -1));
    let answer = calls::judge(list, &octant(), on(known, inner()), outer);
    lines::print_answer(rt, b"judge_on", answer)
}

// The query is (1, 1, z).
fn look(rt: &impl Print, list: Grid, known: Grid, query: Grid, z: i64) {
    let asked = on(query, point(1, 1, z));
    let edges = calls::looked(list, &octant(), on(known, inner()), asked);
    lines::print_looked(rt, b"looked", edges)
}

// The plane from (1, 0, 0) to (0, -1, 1) is y + z = 0, and that sum is above 0 all over the vertices' box.
fn look_apart(rt: &impl Print) {
    let known = coarse(point(1, 0, 0));
    let query = coarse(point(0, -1, 1));
    let apart = [0, 1, 5, 1, 2, 5, 0, 3, 5];
    lines::print_looked(
        rt,
        b"looked_apart",
        calls::looked(Grid::Coarse, &apart, known, query),
    )
}

// The second point is (x, x, z), the query (q, q, q). All is in the plane x = y, which parts the octant's only box: a
// query that is judged looks at its three edges.
fn pair(
    rt: &impl Print,
    list: Grid,
    known: Grid,
    second: Grid,
    query: Grid,
    x: i64,
    z: i64,
    q: i64,
) {
    let first = on(known, inner());
    let other = on(second, point(x, x, z));
    let asked = on(query, point(q, q, q));
    lines::print_answer(
        rt,
        b"pair",
        calls::judge_pair(list, &octant(), first, other, asked),
    );
    lines::print_looked(
        rt,
        b"looked_pair",
        calls::looked_pair(list, &octant(), first, other, asked),
    )
}

// The first n numbers of candidates: nowhere, the known point's direction, on a great circle, outside, opposite; past
// the coarse grid's limit, which passes on the fine one; one that passes on both.
fn choose(rt: &impl Print, list: Grid, known: Grid, candidates: Grid, n: usize)
    requires { n ≤ 21 }
{
    let all = [
        0, 0, 0, 2, 2, 2, 1, 1, 0, 1, 1, -1, -1, -1, -1, 1048577, 1, 1, 1, 1, 2,
    ];
    let first = on(known, inner());
    let answer = calls::choose_second(list, &octant(), first, candidates, &all[0..n]);
    lines::print_answer(rt, b"choose", answer)
}

// Every call. Of the pair, first the second point and then the query is on the other grid. K8, opposite the known
// point, is judged from the second: the arc from (1, 1, 2) to (-1, -1, -1) passes (0, 0, 1), the end of edge 1, and
// crosses that alone. K5's plane is x = y, which parts the octant.
fn on_grids(rt: &impl Print, list: Grid, known: Grid, other: Grid) {
    judge(rt, list, known, other);
    look(rt, list, known, other, -1);
    pair(rt, list, known, other, list, 1, 2, -1);
    pair(rt, list, known, list, other, 1, 2, -1);
    choose(rt, list, known, other, 21)
}

fn grids(rt: &impl Print) {
    on_grids(rt, Grid::Coarse, Grid::Coarse, Grid::Coarse);
    on_grids(rt, Grid::Fine, Grid::Fine, Grid::Fine);
    on_grids(rt, Grid::Fine, Grid::Coarse, Grid::Coarse);
    on_grids(rt, Grid::Coarse, Grid::Fine, Grid::Coarse);
    on_grids(rt, Grid::Coarse, Grid::Coarse, Grid::Fine);
}

// K3, on edge 0; a query that is refused; a box that is skipped.
fn looked(rt: &impl Print) {
    look(rt, Grid::Coarse, Grid::Coarse, Grid::Coarse, 0);
    look(rt, Grid::Coarse, Grid::Coarse, Grid::Coarse, 1048577);
    look_apart(rt)
}

fn coarse_pair(rt: &impl Print, x: i64, z: i64, q: i64) {
    pair(
        rt,
        Grid::Coarse,
        Grid::Coarse,
        Grid::Coarse,
        Grid::Coarse,
        x,
        z,
        q,
    )
}

// A second point of all zero counts here, and has its grid: 28 comes before 19, and that before 17. (1, 1, -1) is
// outside. Then 17, and a query that the known point judges.
fn pairs(rt: &impl Print) {
    pair(
        rt,
        Grid::Coarse,
        Grid::Coarse,
        Grid::Fine,
        Grid::Coarse,
        0,
        0,
        0,
    );
    coarse_pair(rt, 0, 0, 0);
    coarse_pair(rt, 1, -1, 0);
    coarse_pair(rt, 1, 2, 0);
    coarse_pair(rt, 1, 2, 1);
}

// A cut candidate comes before 28, and that before 19; no candidate, and none that passes.
fn choices(rt: &impl Print) {
    choose(rt, Grid::Coarse, Grid::Coarse, Grid::Fine, 20);
    choose(rt, Grid::Coarse, Grid::Coarse, Grid::Fine, 0);
    choose(rt, Grid::Coarse, Grid::Coarse, Grid::Coarse, 0);
    choose(rt, Grid::Coarse, Grid::Coarse, Grid::Coarse, 18);
}

// The first n numbers of a list past the limit: 28 comes after 10 and before 11.
fn judge_mixed(rt: &impl Print, n: usize)
    requires { n ≤ 9 }
{
    let known = fine(inner());
    let beyond = [1048577, 0, 0, 0, 1, 0, 0, 0, 1];
    lines::print_answer(
        rt,
        b"mixed",
        calls::judge(Grid::Coarse, &beyond[0..n], known, known),
    )
}

pub(crate) fn run(rt: &impl Print) {
    grids(rt);
    looked(rt);
    pairs(rt);
    choices(rt);
    judge_mixed(rt, 8);
    judge_mixed(rt, 9);
}

// Document 01's limits: of the grid, for points of 64-bit numbers, and of the number of numbers in a list, which no
// sheet can have otherwise. Here, in order: reached, known_points, queries, of_octant, few, many, first, run.
ghost use Rattle.std.specs.Prelude.{◌≤◌};

use crate::given::point;
use crate::lines::{ask_octant, judge_list, octant_from};
use crate::{given, lines};

// A query in the direction of the known point is inside and crosses nothing: both orientations with it are zero.
fn reached(rt: &impl Print) {
    let largest = [1048576, 0, 0, 0, 1048576, 0, 0, 0, 1048576];
    let corner = point(1048576, 1048576, 1048576);
    lines::judge(rt, b"limit_all", &largest, corner, corner);
    let over = [1, 0, 0, 0, 1048577, 0, 0, 0, 1];
    judge_list(rt, b"vertex_over", &over);
}

// 2^32 + 1 has the lowest 32 bits of 1, and the least number has no opposite.
fn known_points(rt: &impl Print) {
    octant_from(rt, b"known_over", 1048577, 1, 1);
    octant_from(rt, b"known_past_u32", 1, 4294967297, 1);
    octant_from(rt, b"known_least_i64", i64::MIN, 1, 1);
    octant_from(rt, b"known_greatest_i64", 1, 1, i64::MAX);
}

fn queries(rt: &impl Print) {
    ask_octant(rt, b"query_over", 1048577, 1, 1);
    ask_octant(rt, b"query_past_u32", 1, 1, 4294967297);
    ask_octant(rt, b"query_least_i64", 1, i64::MIN, 1);
    ask_octant(rt, b"query_greatest_i64", i64::MAX, 1, 1);
}

// The octant's first n numbers.
fn of_octant(rt: &impl Print, n: usize)
    requires { n ≤ 9 }
{
    let octant = given::octant();
    judge_list(rt, b"numbers", &octant[0..n])
}

fn few(rt: &impl Print) {
    of_octant(rt, 0);
    of_octant(rt, 1);
    of_octant(rt, 2);
    of_octant(rt, 4);
    of_octant(rt, 6);
    of_octant(rt, 8);
    of_octant(rt, 9);
}

// The arc from (1, 1, 4) to (1, 1, -4) passes (1, 1, 0), between the ends of every edge.
fn many(rt: &impl Print) {
    let all = given::zigzag();
    lines::judge(rt, b"numbers_12288", &all, point(1, 1, 4), point(1, 1, -4));
    judge_list(rt, b"numbers_12289", &[0; 12289]);
    judge_list(rt, b"numbers_12291", &[0; 12291]);
}

// 10 comes before 11, 15 and 17.
fn first(rt: &impl Print) {
    let short = [1048577, 0, 0, 0, 1, 0, 0, 0];
    judge_list(rt, b"order_10_11", &short);
    lines::judge(rt, b"order_10_15_17", &short, given::none(), given::none());
}

pub(crate) fn run(rt: &impl Print) {
    reached(rt);
    known_points(rt);
    queries(rt);
    few(rt);
    many(rt);
    first(rt);
}

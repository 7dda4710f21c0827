// Feeds over lists, document 02's P1, on both grids. Every byte of the result buffer is compared.
// Here, in order: queries, results, judged, judged_fine, refuse, refused, run.
ghost use Rattle.std.specs.Prelude.{◌≤◌};

use crate::given::{coarse, fine, inner, octant, on, point};
use crate::lines;
use feed::judge_feed;
use sphere::point::Grid;

// K5, K8, (0, 0, 0), (0, 1, 1) on edge 1, and K2.
fn queries() -> [u8; 60] {
    *b"\x00\x00\x00\x01\x00\x00\x00\x01\xff\xff\xff\xff\
       \xff\xff\xff\xff\xff\xff\xff\xff\xff\xff\xff\xff\
       \x00\x00\x00\x00\x00\x00\x00\x00\x00\x00\x00\x00\
       \x00\x00\x00\x00\x00\x00\x00\x01\x00\x00\x00\x01\
       \x00\x00\x00\x03\x00\x00\x00\x02\x00\x00\x00\x01"
}

// 2 with one edge crossed, 18, 17, 3 with edge 1, and 1; then two bytes that stay.
fn results() -> [u8; 62] {
    *b"\x00\x00\x00\x02\x00\x00\x00\x00\x00\x00\x00\x01\
       \x00\x00\x00\x12\x00\x00\x00\x00\x00\x00\x00\x00\
       \x00\x00\x00\x11\x00\x00\x00\x00\x00\x00\x00\x00\
       \x00\x00\x00\x03\x00\x00\x00\x01\x00\x00\x00\x00\
       \x00\x00\x00\x01\x00\x00\x00\x00\x00\x00\x00\x00\xee\xee"
}

fn judged(rt: &impl Print) {
    let known = coarse(inner());
    let mut buffer = [238u8; 62];
    let fed = judge_feed(
        Grid::Coarse,
        &octant(),
        known,
        Grid::Coarse,
        &queries(),
        &mut buffer,
    );
    lines::print_kept(rt, b"feed", fed, buffer == results())
}

// (2^26, 1, 1), which is inside.
fn judged_fine(rt: &impl Print) {
    let query = *b"\x04\x00\x00\x00\x00\x00\x00\x01\x00\x00\x00\x01";
    let result = *b"\x00\x00\x00\x01\x00\x00\x00\x00\x00\x00\x00\x00\xee";
    let known = fine(inner());
    let mut buffer = [238u8; 13];
    let fed = judge_feed(
        Grid::Fine,
        &octant(),
        known,
        Grid::Fine,
        &query,
        &mut buffer,
    );
    lines::print_kept(rt, b"feed_fine", fed, buffer == result)
}

// From (1, 1, z), the first n bytes of queries, with room for one result and a byte more. Nothing is written.
fn refuse(rt: &impl Print, list: Grid, known: Grid, queries: Grid, z: i64, n: usize)
    requires { n ≤ 24 }
{
    let first = on(known, point(1, 1, z));
    let asked = [0u8; 24];
    let mut buffer = [238u8; 13];
    let fed = judge_feed(list, &octant(), first, queries, &asked[0..n], &mut buffer);
    lines::print_kept(rt, b"feed_refused", fed, buffer == [238; 13])
}

// 26 and 27 come before 28, which is given once and before 16: (1, 1, 0) is on a great circle. A feed of no queries is
// refused too.
fn refused(rt: &impl Print) {
    refuse(rt, Grid::Coarse, Grid::Coarse, Grid::Fine, 0, 13);
    refuse(rt, Grid::Coarse, Grid::Coarse, Grid::Fine, 0, 24);
    refuse(rt, Grid::Coarse, Grid::Coarse, Grid::Fine, 0, 12);
    refuse(rt, Grid::Coarse, Grid::Fine, Grid::Coarse, 0, 12);
    refuse(rt, Grid::Fine, Grid::Coarse, Grid::Coarse, 0, 12);
    refuse(rt, Grid::Coarse, Grid::Coarse, Grid::Coarse, 0, 12);
    refuse(rt, Grid::Coarse, Grid::Coarse, Grid::Coarse, 0, 0);
}

pub(crate) fn run(rt: &impl Print) {
    judged(rt);
    judged_fine(rt);
    refused(rt);
}

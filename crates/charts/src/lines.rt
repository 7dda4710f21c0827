// One line of output for each chart. Here, in order: put, print_word, print_three, print_start, print_answer, print_kept,
// print_looked, grid_number, print_sheet; then judge, judge_list, judge_octant, ask_octant, octant_from.
use crate::given;
use answer::Answer;
use judging::calls;
use sheet::read::Sheet;
use sphere::point::{Grid, Point};

// Bytes of a line. What cannot be written is left out.
fn put(rt: &impl Print, bytes: &[u8]) {
    let _ = rt.write_all(bytes);
}

fn print_word(rt: &impl Print, number: u64) {
    put(rt, b" ");
    let _ = rt.print(number);
}

fn print_three(rt: &impl Print, first: u64, second: u64, third: u64) {
    print_word(rt, first);
    print_word(rt, second);
    print_word(rt, third)
}

// A label and an answer, and no end of the line yet.
fn print_start(rt: &impl Print, label: &[u8], given: Answer) {
    let number = answer::number(given);
    let place = answer::place(given);
    let count = answer::count(given);
    put(rt, label);
    print_three(rt, number as u64, place as u64, count as u64)
}

pub(crate) fn print_answer(rt: &impl Print, label: &[u8], given: Answer) {
    print_start(rt, label, given);
    put(rt, b"\n");
}

// The answer of a call that writes, and whether it left the buffer as it has to be.
pub(crate) fn print_kept(rt: &impl Print, label: &[u8], given: Answer, is_same: bool) {
    print_start(rt, label, given);
    if is_same {
        put(rt, b" yes\n");
    } else {
        put(rt, b" no\n");
    }
}

// The number of edges looked at.
pub(crate) fn print_looked(rt: &impl Print, label: &[u8], edges: u32) {
    put(rt, label);
    print_word(rt, edges as u64);
    put(rt, b"\n");
}

// As document 02 names it.
fn grid_number(grid: Grid) -> u64 {
    match grid {
        Grid::Coarse => 0,
        Grid::Fine => 1,
    }
}

// What reading hands back but the points: the answer; zone number, character set and number of vertices; where the name
// stands, its length, and the grid.
pub(crate) fn print_sheet(rt: &impl Print, label: &[u8], sheet: Sheet) {
    let answer = sheet.answer;
    let grid = sheet.grid;
    print_start(rt, label, answer);
    print_three(
        rt,
        sheet.zone as u64,
        sheet.charset as u64,
        sheet.vertex_count as u64,
    );
    print_three(
        rt,
        sheet.name_at as u64,
        sheet.name_len as u64,
        grid_number(grid),
    );
    put(rt, b"\n");
}

// What is said of a list, a known point and a query.
pub(crate) fn judge(rt: &impl Print, label: &[u8], vertices: &[i32], known: Point, query: Point) {
    let first = given::coarse(known);
    let answer = calls::judge(Grid::Coarse, vertices, first, given::coarse(query));
    print_answer(rt, label, answer)
}

// The same, where both points are the octant's known point.
pub(crate) fn judge_list(rt: &impl Print, label: &[u8], vertices: &[i32]) {
    judge(rt, label, vertices, given::inner(), given::inner())
}

// The octant.
pub(crate) fn judge_octant(rt: &impl Print, label: &[u8], known: Point, query: Point) {
    judge(rt, label, &given::octant(), known, query)
}

// The octant, seen from its own known point.
pub(crate) fn ask_octant(rt: &impl Print, label: &[u8], x: i64, y: i64, z: i64) {
    judge_octant(rt, label, given::inner(), given::point(x, y, z))
}

// The octant with another known point. The query is its own.
pub(crate) fn octant_from(rt: &impl Print, label: &[u8], x: i64, y: i64, z: i64) {
    judge_octant(rt, label, given::point(x, y, z), given::inner())
}

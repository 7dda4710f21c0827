// Runs what C cannot reach, and document 01's charts, through the compiled library, and prints a line for each:
// `label number place count`. The file `stdout` was worked out from documents 01 and 02 and not from a run; where that
// is not plain, a comment beside the case says how. What C can reach is a host test (tests/src/charts.rs).
//
// By lists: the charts K1 to K14 and the one after 003 (`octant`), the limits of points and lists (`lists`), the other
// calls, on both grids (`calls`), and feeds (`feeds`). By sheets: `reading`, `writing` and the largest sheet
// (`largest`). A line that ends in `yes` says that a buffer is what it has to be: all of it, or of `write_49319` the
// byte behind the sheet, which `load_again` compares with a second one. A line of edges looked at has their number
// alone, one of a sheet that is read what `lines::print_sheet` names. Proved: each function is safe and ends. Assumes
// what std's own calls state of C's write and of errno, and nothing else.
#![tactic(auto)]

mod calls;
mod feeds;
mod given;
mod largest;
mod lines;
mod lists;
mod octant;
mod reading;
mod writing;

fn main(rt: HostRuntime) {
    octant::run(&rt);
    lists::run(&rt);
    calls::run(&rt);
    feeds::run(&rt);
    reading::run(&rt);
    writing::run(&rt);
    largest::run(&rt);
}

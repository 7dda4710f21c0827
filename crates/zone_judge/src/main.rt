// Document 01's program: reads the file `zone.sheet` in the current folder and queries of 12 bytes from standard input,
// and prints one line for each query: number, place, count.
//
// A refused sheet gives one line, its number, place and 0, and nothing else. A missing file counts as an empty sheet. A
// cut query at the end gives 20, the number of whole queries before it, and 0. What cannot be read or written, and a
// terminal as standard input, gives a line on standard error (`faults`), and the exit status is 0 all the same. Reading,
// judging and writing lie apart, in `input`, `queries` and `lines`, over the `calls` that wait. Proved: each function is
// safe and ends, and the bytes of a line are those of specs/Line.antt. What the library answers is proved in `zone` and the
// crates under it; what the system reads and writes is not said anywhere.
#![tactic(auto)]

mod calls;
mod faults;
mod input;
mod lines;
mod queries;

use answer::Answer;
use std::io::{IsTerminal, Read};

// The whole output of a refused sheet.
fn print_refusal(rt: &(impl Print + Eprint + Alloc), refusal: Answer) {
    let mut line = [0u8; lines::LONGEST];
    let end = lines::put_answer(refusal, &mut line, 0);
    lines::print(rt, &line, end);
}

// The sheet's refusal, or the answers to what standard input asks.
fn answer_all(
    rt: &(impl Print + Eprint + Alloc),
    input: &mut (impl Read + IsTerminal),
    sheet: &[u8],
) {
    input::warn_of_terminal(rt, input);
    let zone = sheet::read::read(sheet);
    let outcome = zone.answer;
    if answer::number(outcome) != 0 {
        print_refusal(rt, outcome);
        return;
    }
    queries::judge_all(rt, input, sheet);
}

fn main(rt: HostRuntime) {
    let mut bytes = [0u8; input::SHEET_MOST];
    let file = input::read_sheet(&rt, &mut bytes);
    let size = file.size;
    if file.failed.is_none() {
        answer_all(&rt, &mut rt.stdin(), &bytes[..size]);
        lines::finish(&rt);
    }
}

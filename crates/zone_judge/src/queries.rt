// Judging the queries of standard input, piece by piece: each piece is one feed.
// Here, in order: judge_whole, put_lines, judge_piece, judge_all.

ghost use Rattle.std.specs.Prelude.{◌≡◌, ◌*◌, ◌≤◌, ◌<◌, length};
ghost use Rattle.std.proofs.lemmas.List.Edits.{sets};
ghost use Rattle.zone_judge.specs.Line.{lines_of};

use crate::{input, lines};
use std::io::Read;
use zone::feeds;

// Room for the lines of the 4,096 queries of a piece.
const OUTPUT: usize = 258_048;

// More queries than any run reads. A proved loop has to end, and nothing says that the input does.
const QUERIES_MOST: u64 = 18_000_000_000_000_000_000;

// Judges the first `size` bytes of `queries` as one feed. It is never refused: the sheet was accepted, these are whole
// queries, and `results` is as long as `queries`.
fn judge_whole(sheet: &[u8], queries: &[u8], size: usize, results: &mut [u8])
    requires { size ≤ length queries.now }
{
    let _ = feeds::feed(sheet, &queries[..size], results);
}

// Puts a line for each of the first n results at the start of `out`. Where the lines end.
fn put_lines(results: &[u8], n: usize, out: &mut [u8]) -> usize
    requires { (n * 12 ≤ length results.now) × (n * 63 ≤ length out.old) }
    ensures put { out.new ≡ sets out.old 0 (lines_of results.now n) }
    ensures end { result ≡ length (lines_of results.now n) }
    ensures most { result ≤ n * 63 }
{
    let mut at = 0;
    for i in 0..n {
        at = lines::put_result(results, i * input::QUERY, out, at);
    }
    at
}

// One piece: reads, judges and writes. The number of its queries, or 0 where there is nothing more to do: the input
// ended, or a read or a write failed. After a read that failed the whole queries before it are answered, and nothing is
// said of a cut one: the input did not end there.
fn judge_piece(
    rt: &(impl Print + Eprint + Alloc),
    input: &mut impl Read,
    sheet: &[u8],
    done: u64,
    piece: &mut [u8],
    results: &mut [u8],
    out: &mut [u8],
) -> u64
    requires done_bound { (done < 18000000000000000000) × (length piece.old ≡ 49152) }
    requires results_len { (length results.old ≡ 49152) × (length out.old ≡ 258048) }
    ensures { result ≤ 4096 }
{
    let got = input::read_queries(input, piece);
    let size = got.size;
    let n = size / input::QUERY;
    judge_whole(sheet, piece, n * input::QUERY, results);
    let end = put_lines(results, n, out);
    if let Some(error) = got.failed {
        input::fail(rt, error);
        lines::print(rt, out, end);
        return 0;
    }
    if size % input::QUERY == 0 {
        if lines::print(rt, out, end) {
            return n as u64;
        }
        return 0;
    }
    let cut_end = lines::put_line(20, done + n as u64, 0, out, end);
    lines::print(rt, out, cut_end);
    0
}

// All of standard input, against an accepted sheet.
pub(crate) fn judge_all(rt: &(impl Print + Eprint + Alloc), input: &mut impl Read, sheet: &[u8]) {
    let mut piece = [0u8; input::PIECE];
    let mut results = [0u8; input::PIECE];
    let mut out = [0u8; OUTPUT];
    let mut done: u64 = 0;
    while done < QUERIES_MOST {
        let answered = judge_piece(rt, input, sheet, done, &mut piece, &mut results, &mut out);
        if answered == 0 {
            return;
        }
        done += answered;
    }
}

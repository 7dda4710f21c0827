// What the program reads: the sheet's file, and standard input in pieces of whole queries. What cannot be read is said on
// standard error.
// Here, in order: read_sheet, read_queries, fail, warn_of_terminal.

ghost use Rattle.std.specs.Prelude.{◌≡◌, ◌%◌, ◌≤◌, length, take};

use crate::calls::Filled;
use crate::{calls, faults};
use std::fs;
use std::io::{Error, ErrorKind, IsTerminal, Read};
use std::rt::Files;

// One byte more than the longest sheet, so that a longer file is seen to be one.
pub(crate) const SHEET_MOST: usize = 49_320;

// The bytes of a query, and of the 4,096 queries of a piece.
pub(crate) const QUERY: usize = 12;

pub(crate) const PIECE: usize = 49_152;

// The sheet's bytes, put at the start of `bytes`. A missing file is an empty sheet; one that cannot be read is not.
pub(crate) fn read_sheet(rt: &(impl Files + Eprint + Alloc), bytes: &mut [u8; 49320]) -> Filled
    ensures { (result.size ≤ length bytes.new) × (result.size ≡ length (take result.size bytes.new)) }
{
    match fs::open(rt, "zone.sheet") {
        Ok(mut file) => {
            let filled = calls::fill(&mut file, bytes, 0, SHEET_MOST);
            if let Some(error) = filled.failed {
                faults::say(rt, "zone.sheet", error);
            }
            filled
        }
        Err(error) => {
            if error.kind() == ErrorKind::NotFound {
                return Filled {
                    size: 0,
                    failed: None,
                };
            }
            faults::say(rt, "zone.sheet", error);
            Filled {
                size: 0,
                failed: Some(error),
            }
        }
    }
}

// Reads what is there, and the rest of the last query: no more, so that a caller that waits for its answers gets them.
// Without a failure, the number of bytes read is 0 or not a multiple of 12 only where the input ends.
pub(crate) fn read_queries(input: &mut impl Read, piece: &mut [u8]) -> Filled
    requires { length piece.old % 12 ≡ 0 }
    ensures { result.size ≤ length piece.old }
{
    let got = calls::read(input, piece);
    let n = got.size;
    let part = n % QUERY;
    if part == 0 {
        return got;
    }
    calls::fill(input, piece, n, n - part + QUERY)
}

// Says why standard input could not be read.
pub(crate) fn fail(rt: &(impl Eprint + Alloc), error: Error) {
    faults::say(rt, "standard input", error);
}

// Where standard input is a terminal, says on standard error what is waited for: few people type queries of 12 bytes.
pub(crate) fn warn_of_terminal(rt: &impl Eprint, input: &impl IsTerminal) {
    if input.is_terminal() {
        let _ = eprintln!(rt;
            "zone_judge: standard input is a terminal; queries of 12 bytes come from a file or a pipe"
        );
    }
}

// Lines of output, put into a buffer: number, place and count, parted by single spaces.
// Here, in order: put_decimal, put_number, put_line, put_result, put_answer, fail, print, file_of_output, finish.

ghost use Rattle.std.specs.Prelude.{◌≡◌, ◌+◌, ◌≤◌, length};
ghost use Rattle.std.proofs.lemmas.List.Edits.{sets};
ghost use Rattle.answer.specs.Answer.{number_of, place_of, count_of};
ghost use Rattle.zone_judge.specs.Line.{decimal, ended, line_of, result_line};

use crate::{calls, faults};
use answer::Answer;
use big_endian::read;
use std::fs::OpenFile;
use std::io::{Error, ErrorKind};
use std::rt::Files;
use std::{fs, io};

// The bytes of the longest line: three numbers of at most 20 digits, two spaces and the end of the line.
pub(crate) const LONGEST: usize = 63;

// Puts n's decimal digits from `at` on. Where they end.
fn put_decimal(n: u64, out: &mut [u8], at: usize) -> usize
    requires { at + length (decimal n) ≤ length out.old }
    ensures put { out.new ≡ sets out.old at (decimal n) }
    ensures end { result ≡ at + length (decimal n) }
{
    if n < 10 {
        out[at] = b'0' + n as u8;
        return at + 1;
    }
    let end = put_decimal(n / 10, out, at);
    out[end] = b'0' + (n % 10) as u8;
    end + 1
}

// Puts n's decimal digits and the byte after them.
fn put_number(n: u64, after: u8, out: &mut [u8], at: usize) -> usize
    requires { at + 21 ≤ length out.old }
    ensures put { out.new ≡ sets out.old at (ended n after) }
    ensures end { result ≡ at + length (ended n after) }
    ensures most { result ≤ at + 21 }
{
    let end = put_decimal(n, out, at);
    out[end] = after;
    end + 1
}

// Puts a line from `at` on. Where it ends.
pub(crate) fn put_line(number: u32, place: u64, count: u32, out: &mut [u8], at: usize) -> usize
    requires { at + 63 ≤ length out.old }
    ensures put { out.new ≡ sets out.old at (line_of number place count) }
    ensures end { result ≡ at + length (line_of number place count) }
    ensures most { result ≤ at + 63 }
{
    let place_at = put_number(number as u64, b' ', out, at);
    let count_at = put_number(place, b' ', out, place_at);
    put_number(count as u64, b'\n', out, count_at)
}

// The line of the result that begins `from` bytes into `results`.
pub(crate) fn put_result(results: &[u8], from: usize, out: &mut [u8], at: usize) -> usize
    requires { (from + 12 ≤ length results.now) × (at + 63 ≤ length out.old) }
    ensures put { out.new ≡ sets out.old at (result_line results.now from) }
    ensures end { result ≡ at + length (result_line results.now from) }
    ensures most { result ≤ at + 63 }
{
    let number = read::word_at(results, from);
    let place = read::word_at(results, from + 4);
    put_line(
        number,
        place as u64,
        read::word_at(results, from + 8),
        out,
        at,
    )
}

pub(crate) fn put_answer(given: Answer, out: &mut [u8], at: usize) -> usize
    requires { at + 63 ≤ length out.old }
    ensures put { out.new ≡ sets out.old at (line_of (number_of given) (place_of given) (count_of given)) }
    ensures most { result ≤ at + 63 }
{
    let number = answer::number(given);
    let place = answer::place(given);
    put_line(number, place as u64, answer::count(given), out, at)
}

// Says why standard output could not be written.
fn fail(rt: &(impl Eprint + Alloc), error: Error) {
    faults::say(rt, "standard output", error);
}

// Writes the first bytes of `out` to standard output. Whether all were written; if not, standard error says why.
pub(crate) fn print(rt: &(impl Print + Eprint + Alloc), out: &[u8], end: usize) -> bool
    requires { end ≤ length out.now }
{
    match calls::write_all(&mut io::writer(rt), &out[..end]) {
        Ok(()) => true,
        Err(error) => {
            fail(rt, error);
            false
        }
    }
}

// Standard output, opened once more, where it is a file: std's own handle of it cannot be written back.
fn file_of_output<R: Files>(rt: &R) -> Option<R::File> {
    let is_file = match fs::metadata(rt, "/dev/stdout") {
        Ok(about) => about.is_file(),
        Err(_) => false,
    };
    if !is_file {
        return None;
    }
    fs::OpenOptions::new()
        .write(true)
        .open(rt, "/dev/stdout")
        .ok()
}

// Standard output is done with. Some file systems say only when they write a file back that the disk is full.
pub(crate) fn finish(rt: &(impl Files + Eprint + Alloc)) {
    if let Some(file) = file_of_output(rt) {
        if let Err(error) = file.sync_data() {
            if error.kind() != ErrorKind::InvalidInput {
                fail(rt, error);
            }
        }
    }
}

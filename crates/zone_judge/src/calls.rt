// Reads and writes that wait. A call that a signal interrupts (EINTR), or that finds a non-blocking descriptor not ready
// (EAGAIN), is made again; any other error ends it, and is handed back.
// Here, in order: Filled, Taken, waits, read, fill, write, write_all.

ghost use Rattle.std.specs.Prelude.{◌≡◌, ◌≤◌, length, take};

use std::io::{Error, ErrorKind, Read, Write};
use std::{io, thread};

// How often a call is made again: longer than any machine lasts. A proved loop has to end.
const TRIES_MOST: u64 = 18_000_000_000_000_000_000;

// The bytes that were read, and why the reading failed, if it did. Without a failure, fewer than asked means the input's
// end.
#[derive(Clone, Copy)]
pub(crate) struct Filled {
    pub size: usize,
    pub failed: Option<Error>,
}

// The bytes that a write took, 0 where it failed, and why it failed, if it did.
#[derive(Clone, Copy)]
struct Taken {
    size: usize,
    failed: Option<Error>,
}

// Whether the call that has just failed is worth making again: its error passes by itself. If so, it waits a moment.
fn waits(error: &Error) -> bool {
    let kind = error.kind();
    if kind != ErrorKind::Interrupted {
        if kind != ErrorKind::WouldBlock {
            return false;
        }
    }
    thread::yield_now();
    true
}

// One read that waits.
pub(crate) fn read<R: Read>(input: &mut R, buf: &mut [u8]) -> Filled
    ensures { result.size ≤ length buf.old }
{
    let mut failed = None;
    let mut tries = 0;
    while tries < TRIES_MOST {
        match input.read(buf) {
            Ok(size) => return Filled { size, failed: None },
            Err(error) => {
                failed = Some(error);
                if !waits(&error) {
                    break;
                }
            }
        }
        tries += 1;
    }
    Filled { size: 0, failed }
}

// Reads on from `from` until `to`, the input's end or a failure. The bytes before `from` count as read.
pub(crate) fn fill<R: Read>(input: &mut R, buf: &mut [u8], from: usize, to: usize) -> Filled
    requires { (from ≤ to) × (to ≤ length buf.old) }
    ensures { (result.size ≤ to)
        × ((result.size ≤ length buf.new) × (result.size ≡ length (take result.size buf.new))) }
{
    let mut at = from;
    while at < to {
        let part = read(input, &mut buf[at..to]);
        let size = part.size;
        if part.failed.is_some() {
            return Filled {
                size: at,
                failed: part.failed,
            };
        }
        if size == 0 {
            break;
        }
        at += size;
    }
    Filled {
        size: at,
        failed: None,
    }
}

// One write that waits.
fn write<W: Write>(output: &mut W, buf: &[u8]) -> Taken
    ensures { result.size ≤ length buf.now }
{
    let mut failed = None;
    let mut tries = 0;
    while tries < TRIES_MOST {
        match output.write(buf) {
            Ok(size) => return Taken { size, failed: None },
            Err(error) => {
                failed = Some(error);
                if !waits(&error) {
                    break;
                }
            }
        }
        tries += 1;
    }
    Taken { size: 0, failed }
}

// Writes all of buf, or stops at the first write that fails. On an error some of buf may have been written.
pub(crate) fn write_all<W: Write>(output: &mut W, buf: &[u8]) -> io::Result<()> {
    let mut at = 0;
    while at < buf.len() {
        let part = write(output, &buf[at..]);
        let taken = part.size;
        if taken == 0 {
            return Err(part.failed.unwrap_or(Error::from(ErrorKind::WriteZero)));
        }
        at += taken;
    }
    Ok(())
}

// What is said on standard error of a read or a write that failed. Here, in order: words, say.

use std::io::Error;

// The system's words for an error. Behind them std has the error's number.
fn words(text: &str) -> &str {
    match text.split_once(" (os error ") {
        Some((words, _)) => words,
        None => text,
    }
}

// Says what could not be read or written, and why: a line on standard error. One that cannot be written there is lost.
pub(crate) fn say(rt: &(impl Eprint + Alloc), what: &str, error: Error) {
    let _ = match error.to_string(rt.alloc()) {
        Ok(text) => eprintln!(rt; "zone_judge: {what}: {}", words(&text)),
        Err(_) => eprintln!(rt; "zone_judge: {what}: {error}"),
    };
}

// One step of the walk over a book. Here, in order: Step, number, place, count, step_at, next_at.
ghost use Rattle.std.specs.Prelude.{◌≡◌};
ghost use Rattle.book.specs.Step.{step_number_of, step_place_of, step_count_of, step_at, next_at};

use answer::Refusal;
use fields::sheet_fields;

// What stands at a place of a book: a sheet with its start and its length, nothing more, or one that is refused, whose
// place is counted from the book's start. `specs/Step.antt` gives each case its number, place and count.
pub type Step = Result<Option<(usize, usize)>, Refusal>;

pub fn number(step: Step) -> u32
    ensures { result ≡ step_number_of step }
{
    match step {
        Ok(_) => 0,
        Err(refusal) => refusal.reason.number(),
    }
}

pub fn place(step: Step) -> usize
    ensures { result ≡ step_place_of step }
{
    match step {
        Ok(Some((start, _))) => start,
        Ok(None) => 0,
        Err(refusal) => refusal.place,
    }
}

pub fn count(step: Step) -> usize
    ensures { result ≡ step_count_of step }
{
    match step {
        Ok(Some((_, size))) => size,
        _ => 0,
    }
}

// The sheet reader at a place of the book: 20 to 23, and what would be 24 starts the next sheet.
pub fn step_at(book: &[u8], at: usize) -> Step
    ensures { result ≡ step_at book.now at }
{
    if book.len() <= at {
        return Ok(None);
    }
    let rest = &book[at..];
    match sheet_fields(rest) {
        Ok(parts) => Ok(Some((at, parts.end()))),
        Err(refusal) => Err(refusal.reason.at(at + refusal.place)),
    }
}

// The place after that step: past the sheet, or the same.
pub fn next_at(book: &[u8], at: usize) -> usize
    ensures { result ≡ next_at book.now at }
{
    at + count(step_at(book, at))
}

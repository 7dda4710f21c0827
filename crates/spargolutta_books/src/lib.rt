// A feed to a book, from C: any number of queries to up to 64 sheets. spg_book_feed_number alone writes. A crate of its
// own, and an object of its own in the archive: what it shares with spg_feed_number is then compiled into each of the
// two loops over the queries, where a function with two callers would be called for every query of either.
#![tactic(auto)]

ghost use Rattle.std.specs.Prelude.{◌≡◌, length};
ghost use Rattle.answer.specs.Answer.{number_of, place_of, count_of};
ghost use Rattle.book_feed.specs.Feed.{book_feed_of, book_results_after};

use answer::{count, number, place};
use book_feed::whole::{book_feed, feed_answer};

// The results are written if and only if the number is 0.
#[unsafe(no_mangle)]
pub extern "C" fn spg_book_feed_number(
    book: &[u8],
    grid: u32,
    queries: &[u8],
    results: &mut [u8],
) -> u32
    ensures value { result ≡ number_of (book_feed_of book.now queries.now
        (length results.old)) }
    ensures results_after { results.new ≡ book_results_after book.now grid queries.now
        results.old }
{
    number(book_feed(book, grid, queries, results))
}

#[unsafe(no_mangle)]
pub extern "C" fn spg_book_feed_place(book: &[u8], _grid: u32, queries: &[u8], room: usize) -> usize
    ensures { result ≡ place_of (book_feed_of book.now queries.now room) }
{
    place(feed_answer(book, queries, room))
}

#[unsafe(no_mangle)]
pub extern "C" fn spg_book_feed_count(book: &[u8], _grid: u32, queries: &[u8], room: usize) -> u32
    ensures { result ≡ count_of (book_feed_of book.now queries.now room) }
{
    count(feed_answer(book, queries, room))
}

// What a number means, for other languages than C: what its place is, and its text. Here, in order: KINDS, STARTS,
// SIZES, letters, index, text_start, text_size, put_front; the exported functions, of which spg_meaning_text alone
// writes.
ghost use Rattle.std.specs.Prelude.{◌≡◌, ◌<◌, length};
ghost use Rattle.spargolutta.specs.Meanings.{rows, start_in, letters, index_of, front_of};
ghost use Rattle.spargolutta.specs.Meanings.{kind_of, text_of, text_to};

use big_endian::store::put_bytes;

// By the number, with the last entry for all from 37 on, as specs/Meanings.antt has them.
const KINDS: [u32; 38] = [
    6, 0, 0, 1, 0, 0, 0, 0, 0, 0, 0, 2, 2, 1, 1, 0, 1, 0, 0, 0, 3, 3, 3, 3, 3, 4, 0, 4, 0, 0, 3, 5,
    0, 5, 0, 1, 3, 0,
];

const STARTS: [usize; 38] = [
    0, 4, 10, 17, 769, 769, 769, 769, 769, 769, 25, 53, 75, 90, 123, 143, 182, 223, 256, 286, 319,
    334, 356, 387, 408, 434, 464, 489, 512, 769, 533, 581, 627, 666, 703, 720, 743, 769,
];

const SIZES: [usize; 38] = [
    4, 6, 7, 8, 14, 14, 14, 14, 14, 14, 28, 22, 15, 33, 20, 39, 41, 33, 30, 33, 15, 22, 31, 21, 26,
    30, 25, 23, 21, 14, 48, 46, 39, 37, 17, 23, 26, 14,
];

// The texts end to end, in the order of the header's table.
fn letters() -> [u8; 783]
    ensures { result ≡ letters }
{
    *b"done\
        inside\
        outside\
        boundary\
        list of a length not allowed\
        vertex beyond the grid\
        vertex all zero\
        side's ends in the same direction\
        side's ends opposite\
        known point beyond the grid or all zero\
        known point on the great circle of a side\
        query beyond the grid or all zero\
        query opposite the known point\
        no second known point that passes\
        sheet cut short\
        wrong tag in the sheet\
        length not allowed in the sheet\
        unknown character set\
        bytes after the last field\
        buffer too short for the sheet\
        query or position cut off\
        result buffer too short\
        grid mixed or unknown\
        not one GeoJSON Polygon of the kind that is read\
        latitude past 90 or longitude past 180 degrees\
        ring not closed or under four positions\
        neighbours more than one degree apart\
        over 512 vertices\
        two sides share a point\
        bytes left after 64 sheets\
        unknown number"
}

fn index(number: u32) -> usize
    ensures { (result ≡ index_of number) × (result < 38) }
{
    if number < 37 {
        return number as usize;
    }
    37
}

// Where a number's text begins among them, and how long it is.
fn text_start(number: u32) -> usize
    ensures { result ≡ start_in rows number }
{
    STARTS[index(number)]
}

fn text_size(number: u32) -> usize
    ensures { result ≡ length (text_of number) }
{
    SIZES[index(number)]
}

// As much of the row as fits, in front.
fn put_front(text: &mut [u8], row: &[u8]) -> usize
    ensures value { result ≡ length row.now }
    ensures text_after { text.new ≡ front_of row.now text.old }
{
    let n = text.len();
    if n < row.len() {
        put_bytes(text, 0, &row[..n]);
        return row.len();
    }
    put_bytes(text, 0, row);
    row.len()
}

#[unsafe(no_mangle)]
pub extern "C" fn spg_place_kind(number: u32) -> u32
    ensures { result ≡ kind_of number }
{
    KINDS[index(number)]
}

// The whole length, whatever fits. A zero is not appended.
#[unsafe(no_mangle)]
pub extern "C" fn spg_meaning_text(number: u32, text: &mut [u8]) -> usize
    ensures value { result ≡ length (text_of number) }
    ensures text_after { text.new ≡ text_to number text.old }
{
    let start = text_start(number);
    let end = start + text_size(number);
    let all = letters();
    put_front(text, &all[start..end])
}

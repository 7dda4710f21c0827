// Numbers stored in bytes. A byte that is not named stays.
// Here, in order: put_short, put_word, to_word, put_int, put_coordinate, put_point; put_ints, put_bytes (rows).
ghost use Rattle.std.specs.Prelude.{◌≡◌, ◌+◌, ◌*◌, ◌≤◌, length};
ghost use Rattle.std.proofs.lemmas.List.Edits.{sets};
ghost use Rattle.sphere.specs.Point.{Fits, Within};
ghost use Rattle.big_endian.specs.Bytes.{short_bytes, word_bytes, word_of, int_bytes, ints_bytes, point_bytes};

use sphere::point::Point;

pub fn put_short(b: &mut [u8], at: usize, n: u32)
    requires { at + 2 ≤ length b.old }
    ensures { b.new ≡ sets b.old at (short_bytes n) }
{
    b[at] = (n / 256 % 256) as u8;
    b[at + 1] = (n % 256) as u8;
}

pub fn put_word(b: &mut [u8], at: usize, n: u32)
    requires { at + 4 ≤ length b.old }
    ensures { b.new ≡ sets b.old at (word_bytes n) }
{
    b[at] = (n / 16777216 % 256) as u8;
    b[at + 1] = (n / 65536 % 256) as u8;
    b[at + 2] = (n / 256 % 256) as u8;
    b[at + 3] = (n % 256) as u8;
}

// Two's complement, as `to_signed` reads it.
pub fn to_word(x: i32) -> u32
    ensures { result ≡ word_of x }
{
    x.cast_unsigned()
}

fn put_int(b: &mut [u8], at: usize, x: i32)
    requires { at + 4 ≤ length b.old }
    ensures { b.new ≡ sets b.old at (int_bytes x) }
{
    put_word(b, at, to_word(x))
}

// One of a point's wide numbers.
fn put_coordinate(b: &mut [u8], at: usize, x: i64)
    requires { (at + 4 ≤ length b.old) × Fits 2147483647 x }
    ensures { b.new ≡ sets b.old at (int_bytes x) }
{
    put_int(b, at, x as i32)
}

// Twelve bytes.
pub fn put_point(b: &mut [u8], at: usize, p: Point)
    requires { (at + 12 ≤ length b.old) × Within 2147483647 p }
    ensures { b.new ≡ sets b.old at (point_bytes p) }
{
    put_coordinate(b, at, p.x);
    put_coordinate(b, at + 4, p.y);
    put_coordinate(b, at + 8, p.z);
}

pub fn put_ints(b: &mut [u8], at: usize, row: &[i32])
    requires { at + length row.now * 4 ≤ length b.old }
    ensures { b.new ≡ sets b.old at (ints_bytes row.now) }
{
    for i in 0..row.len() {
        put_int(b, at + i * 4, row[i]);
    }
}

pub fn put_bytes(b: &mut [u8], at: usize, row: &[u8])
    requires { at + length row.now ≤ length b.old }
    ensures { b.new ≡ sets b.old at row.now }
{
    for i in 0..row.len() {
        b[at + i] = row[i];
    }
}

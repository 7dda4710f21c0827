// Storing a sheet, field by field. A byte that is not named stays.
// Here, in order: put_head, put_zone, put_charset, put_name, put_place (a point), put_vertices, put_second; put_sheet.
ghost use Rattle.std.specs.Prelude.{◌≡◌, [], ◌∷◌, ◌+◌, ◌*◌, ◌≤◌, ◌<◌, length};
ghost use Rattle.std.proofs.lemmas.List.Edits.{sets};
ghost use Rattle.sphere.specs.Point.{Within};
ghost use Rattle.big_endian.specs.Bytes.{short_bytes, word_bytes, ints_bytes, point_bytes};
ghost use Rattle.fields.specs.Fields.{tag_of};
ghost use Rattle.sheet.specs.Write.{field_bytes, second_bytes, second_size, sheet_bytes, Storable};

use big_endian::store;
use fields::tag;
use sphere::point::{Grid, Point, is_null};

// A tag and a length.
fn put_head(b: &mut [u8], at: usize, tag: u8, n: u32)
    requires { at + 3 ≤ length b.old }
    ensures { b.new ≡ sets b.old at (tag ∷ short_bytes n) }
{
    b[at] = tag;
    store::put_short(b, at + 1, n)
}

#[tactic(auto, using(crate::proofs::Laws::Stores::stored))]
fn put_zone(b: &mut [u8], zone: u32)
    requires { 7 ≤ length b.old }
    ensures { b.new ≡ sets b.old 0 (field_bytes 1 (word_bytes zone)) }
{
    put_head(b, 0, 1, 4);
    store::put_word(b, 3, zone)
}

#[tactic(auto, using(crate::proofs::Laws::Stores::stored))]
fn put_charset(b: &mut [u8], charset: u32)
    requires { (11 ≤ length b.old) × (charset < 256) }
    ensures { b.new ≡ sets b.old 7 (field_bytes 2 (charset ∷ [])) }
{
    put_head(b, 7, 2, 1);
    b[10] = charset as u8;
}

#[tactic(auto, using(crate::proofs::Laws::Stores::stored))]
fn put_name(b: &mut [u8], name: &[u8])
    requires { (14 + length name.now ≤ length b.old) × (length name.now ≤ 120) }
    ensures { b.new ≡ sets b.old 11 (field_bytes 3 name.now) }
{
    put_head(b, 11, 3, name.len() as u32);
    store::put_bytes(b, 14, name)
}

// The field of the known point, and of the second one.
#[tactic(auto, using(crate::proofs::Laws::Stores::stored))]
fn put_place(b: &mut [u8], at: usize, tag: u8, p: Point)
    requires { (at + 15 ≤ length b.old) × Within 2147483647 p }
    ensures { b.new ≡ sets b.old at (field_bytes tag (point_bytes p)) }
{
    put_head(b, at, tag, 12);
    store::put_point(b, at + 3, p)
}

#[tactic(auto, using(crate::proofs::Laws::Stores::stored))]
fn put_vertices(b: &mut [u8], at: usize, grid: Grid, vertices: &[i32])
    requires { (at + 3 + length vertices.now * 4 ≤ length b.old) × (length vertices.now ≤ 12288) }
    ensures { b.new
        ≡ sets b.old at (field_bytes (tag_of grid) (ints_bytes vertices.now)) }
{
    put_head(b, at, tag(grid), vertices.len() as u32 * 4);
    store::put_ints(b, at + 3, vertices)
}

// No byte changes where there is no second point.
#[tactic(auto, unfolding(crate::specs::Write::second_size, crate::specs::Write::second_bytes))]
fn put_second(b: &mut [u8], at: usize, second: Point)
    requires { (at + second_size second ≤ length b.old) × Within 2147483647 second }
    ensures { b.new ≡ sets b.old at (second_bytes second) }
{
    if !is_null(second) {
        put_place(b, at, 6, second);
    }
}

// The whole sheet, in the first bytes.
#[tactic(auto, using(crate::proofs::Laws::Stores::sheet_stored))]
pub fn put_sheet(
    b: &mut [u8],
    zone: u32,
    charset: u32,
    name: &[u8],
    known: Point,
    grid: Grid,
    vertices: &[i32],
    second: Point,
)
    requires { Storable charset name.now known vertices.now second (length b.old) }
    ensures { b.new
        ≡ sets b.old 0 (sheet_bytes zone charset name.now known grid vertices.now
        second) }
{
    put_zone(b, zone);
    put_charset(b, charset);
    put_name(b, name);
    let at = 14 + name.len();
    put_place(b, at, 4, known);
    put_vertices(b, at + 15, grid, vertices);
    put_second(b, at + 18 + vertices.len() * 4, second)
}

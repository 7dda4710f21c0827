// The fields in which two sheets differ. Here, in order: Field, Differences (none, with); ring_in, name_in (parts of a
// sheet's bytes), is_same_second; head_differences (fields 1 to 3), all_differences.
ghost use Rattle.std.specs.Prelude.{◌≡◌, [], ◌∷◌, ◌<◌};
ghost use Rattle.sphere.specs.Point.{fine, Within};
ghost use Rattle.fields.specs.Fields.{five_fields};
ghost use Rattle.sheet.specs.Sheet.{name_length, name_of, vertex_count_of, vertices_of};
ghost use Rattle.compare.specs.Ring.{ring_of, placed_of};
ghost use Rattle.compare.specs.Differences.{field_number, is_same_second, Accepted, differs, differing, differences_of};
ghost use Rattle.compare.specs.Differences.{noted, pushed};
ghost use Rattle.compare.specs.declared.differences.Field.TheVariants.{ZoneNumber, CharacterSet, Name};

use crate::ring::Placed;
use sheet::open::vertices_in;
use sheet::read::Sheet;
use sphere::direction::same_direction;
use sphere::point::{Point, is_null};

// What two sheets can differ in. The first five have the numbers of their tags.
#[derive(Clone, Copy)]
pub enum Field {
    ZoneNumber = 1,
    CharacterSet = 2,
    Name = 3,
    KnownPoint = 4,
    Vertices = 5,
    WhichGrid = 6,
    SecondPoint = 7,
}

impl Field {
    fn number(self) -> u8
        ensures { result ≡ field_number self }
    {
        self as u8
    }
}

// The numbers of the fields that differ, in order, and how many they are; 0 after the last.
#[derive(Clone, Copy)]
pub struct Differences {
    pub numbers: [u8; 7],
    pub count: usize,
}

impl Differences {
    fn none() -> Differences
        ensures { result ≡ noted [] }
    {
        Differences {
            numbers: [0; 7],
            count: 0,
        }
    }

    // One field more, if it differs.
    #[tactic(auto, unfolding(crate::specs::Differences::pushed))]
    fn with(self, field: Field, other: bool) -> Differences
        requires { self.count < 7 }
        ensures { result ≡ pushed self (field_number field) other }
    {
        if !other {
            return self;
        }
        let mut numbers = self.numbers;
        numbers[self.count] = field.number();
        Differences {
            numbers,
            count: self.count + 1,
        }
    }
}

// The vertices, as they stand in a sheet of so many and with a name of so many bytes. Neither number is read again.
#[tactic(auto, using(sheet::proofs::Laws::Places::vertices_stand, crate::proofs::Laws::Ring::ring_part))]
pub(crate) fn ring_in(b: &[u8], name: usize, count: usize) -> &[u8]
    requires b_value { (five_fields b.now ≡ Ok tt) × (name ≡ name_length b.now) }
    requires count_value { count ≡ vertex_count_of b.now }
    ensures { ring_of result.now ≡ vertices_of b.now }
{
    vertices_in(b, name, count)
}

// The name, which has so many bytes.
#[tactic(auto, using(sheet::proofs::Laws::Places::vertices_stand))]
fn name_in(b: &[u8], len: usize) -> &[u8]
    requires { (five_fields b.now ≡ Ok tt) × (len ≡ name_length b.now) }
    ensures { result.now ≡ name_of b.now }
{
    let at = fields::NAME_START + 3;
    &b[at..at + len]
}

// Two second points, each all zero where its sheet has none.
#[tactic(auto, unfolding(crate::specs::Differences::is_same_second))]
fn is_same_second(y: Point, z: Point) -> bool
    requires { Within fine y × Within fine z }
    ensures { result ≡ is_same_second y z }
{
    if is_null(y) {
        return is_null(z);
    }
    !is_null(z) && same_direction(y, z)
}

// Zone number, character set and name of two sheets that were read.
#[tactic(auto, using(crate::proofs::Laws::Sheets::accepted_name, crate::proofs::Laws::Noted::pushed_count))]
fn head_differences(left: &[u8], right: &[u8], first: Sheet, second: Sheet) -> Differences
    requires { Accepted left.now first × Accepted right.now second }
    ensures { result ≡ noted (differing (differs left.now right.now)
        (ZoneNumber ∷ CharacterSet ∷ Name ∷ [])) }
{
    let d = Differences::none();
    let d = d.with(Field::ZoneNumber, first.zone != second.zone);
    let d = d.with(Field::CharacterSet, first.charset != second.charset);
    let name = name_in(left, first.name_len);
    let other = name_in(right, second.name_len);
    d.with(Field::Name, name != other)
}

#[tactic(auto, using(crate::proofs::Laws::Noted::pushed_count, crate::proofs::Laws::Noted::differing_bound))]
// All fields, of two sheets that were read and whose rings were compared.
pub(crate) fn all_differences(
    left: &[u8],
    right: &[u8],
    first: Sheet,
    second: Sheet,
    ring: Placed,
) -> Differences
    requires first_value { Accepted left.now first × Accepted right.now second }
    requires ring_value { ring ≡ placed_of (vertices_of left.now) (vertices_of right.now) }
    ensures { result ≡ noted (differences_of left.now right.now) }
{
    let d = head_differences(left, right, first, second);
    let d = d.with(
        Field::KnownPoint,
        !same_direction(first.known, second.known),
    );
    let d = d.with(Field::Vertices, ring.way() == 0);
    let d = d.with(Field::WhichGrid, first.grid != second.grid);
    d.with(
        Field::SecondPoint,
        !is_same_second(first.second, second.second),
    )
}

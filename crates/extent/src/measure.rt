// How far a zone reaches. Here, in order: Extent; is_outside, is_bounded, own_box, measure_polygon (an
// accepted polygon); measure_in, measure (a sheet by its bytes), far (the verdict on its far side). Any bytes; nothing
// that users lend is written.
ghost use Rattle.std.specs.Prelude.{◌≡◌, ◌≤◌, length};
ghost use Rattle.sphere.specs.Point.{fine, limit_of};
ghost use Rattle.polygon.specs.Accepted.{Gridded};
ghost use Rattle.polygon.specs.Pair.{optional_check};
ghost use Rattle.search.specs.Boxes.{Boxed};
ghost use Rattle.sheet.specs.Open.{room_for, BoxesFor, decoded_of};
ghost use Rattle.zone.specs.Judge.{boxed_of};
ghost use Rattle.extent.specs.Extent.{is_outside, is_bounded, BoxFor, Measured, Told, FarNumber};

use crate::sides::{Sides, is_fronted, sides_of};
use answer::{Answer, Refusal, Verdict, number};
use judging::judge::judge_boxed;
use search::walk::Mode;
use separation::find::planes_of;
use separation::planes::{away, is_behind};
use sheet::open::open_into;
use sphere::point::{Grid, Point};

// Whether a plane was found that has all vertices strictly ahead; the answer to the antipode of vertex 0, which is
// behind every such plane; and the zone's box, if it has one of its own.
#[derive(Clone, Copy)]
pub struct Extent {
    pub found: bool,
    pub far: Answer,
    pub own: Option<Sides>,
}

fn is_outside(answer: Answer) -> bool
    ensures { result ≡ is_outside answer }
{
    matches!(answer, Ok(Verdict::Outside(_, _)))
}

// The polygon is on one side of a coordinate plane, and the far side is outside.
fn is_bounded(vertices: &[i32], far: Answer) -> bool
    requires { Gridded fine vertices.now }
    ensures { result ≡ is_bounded vertices.now far }
{
    is_fronted(vertices) && is_outside(far)
}

// The polygon's box, where it has one of its own.
fn own_box(vertices: &[i32], far: Answer) -> Option<Sides>
    requires { Gridded fine vertices.now }
    ensures { BoxFor vertices.now (is_bounded vertices.now far) result }
{
    if is_bounded(vertices, far) {
        return Some(sides_of(vertices));
    }
    None
}

#[tactic(auto, using(crate::proofs::Laws::Told::gridded_of, crate::proofs::Laws::Told::behind_plane))]
fn measure_polygon(
    grid: Grid,
    vertices: &[i32],
    boxes: &[i32],
    known: Point,
    second: Point,
) -> Extent
    requires { (optional_check (limit_of grid) vertices.now known second ≡ Ok tt)
        × Boxed vertices.now boxes.now }
    ensures { Measured (limit_of grid) vertices.now known second result }
{
    let planes = planes_of(vertices);
    let back = away(vertices);
    let found = is_behind(vertices, planes, back);
    let far = judge_boxed(grid, vertices, boxes, known, second, back, Mode::Boxed).answer;
    let own = own_box(vertices, far);
    Extent { found, far, own }
}

// The vertices are decoded to the front of `scratch`, and their boxes beside them.
#[tactic(auto, using(fields::proofs::Laws::Parts::values, sheet::proofs::Laws::Reads::sheet_plain, sheet::proofs::Laws::Reads::sheet_five, sheet::proofs::Laws::Places::vertices_stand, sheet::proofs::Laws::Opened::polygon, sheet::proofs::Laws::Opened::opened_optional, sheet::proofs::Laws::Reads::taken))]
fn measure_in(sheet: &[u8], scratch: &mut [i32], boxes: &mut [i32]) -> Result<Extent, Refusal>
    requires { (room_for sheet.now ≤ length scratch.old) × BoxesFor sheet.now boxes.old }
    ensures told { Told sheet.now result }
    ensures scratch_after { (scratch.new ≡ decoded_of sheet.now scratch.old)
        × (boxes.new ≡ boxed_of sheet.now boxes.old) }
{
    let opened = open_into(sheet, scratch, boxes)?;
    let size = opened.count * 3;
    Ok(measure_polygon(
        opened.grid,
        &scratch[..size],
        boxes,
        opened.known,
        opened.second,
    ))
}

// A short sheet gets little scratch space, as in `judge`.
#[tactic(auto, using(zone::proofs::Laws::Room::any_boxes, zone::proofs::Laws::Room::few_boxes))]
pub fn measure(sheet: &[u8]) -> Result<Extent, Refusal>
    ensures { Told sheet.now result }
{
    let mut little = [0i32; 768];
    if sheet.len() <= 3072 {
        let mut few = [0i32; 48];
        return measure_in(sheet, &mut little, &mut few);
    }
    let mut scratch = [0i32; 12288];
    measure_in(sheet, &mut scratch, &mut little)
}

// The number of the far side's verdict where a plane was found, or 0; the sheet's refusal.
#[tactic(auto, using(crate::proofs::Laws::Told::far_refused, crate::proofs::Laws::Told::far_none, crate::proofs::Laws::Told::far_found))]
pub fn far(sheet: &[u8]) -> u32
    ensures { FarNumber sheet.now result }
{
    match measure(sheet) {
        Ok(extent) if extent.found => number(extent.far),
        Ok(_) => 0,
        Err(refusal) => refusal.reason.number(),
    }
}

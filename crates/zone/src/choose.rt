// Choosing a second point for a sheet: document 02's P4. Any bytes; nothing is written.
// Here, in order: candidate_at, earliest_of, choose. Candidates have twelve bytes each, and there is any
// number of them: they are decoded one at a time.
ghost use Rattle.std.specs.Prelude.{◌≡◌, ◌<◌};
ghost use Rattle.sphere.specs.Point.{limit_of};
ghost use Rattle.polygon.specs.Vertices.{vertex_at};
ghost use Rattle.polygon.specs.Checks.{accept_check};
ghost use Rattle.polygon.specs.Pair.{choose_of};
ghost use Rattle.search.specs.Boxes.{Boxed};
ghost use Rattle.zone.specs.Choose.{candidate_count, candidates_of, sheet_choose_of};

use answer::{Answer, Reason};
use big_endian::read;
use judging::second::earliest;
use sheet::open::plain_into;
use sphere::point::{Grid, Point};

#[tactic(auto, using(crate::proofs::Laws::Candidates::candidate_point))]
fn candidate_at(candidates: &[u8], i: usize) -> Point
    requires { i < candidate_count candidates.now }
    ensures { result ≡ vertex_at (candidates_of candidates.now) i }
{
    read::point_at(candidates, i * 12)
}

// The earliest candidate that passes, for a polygon that is accepted, with its boxes.
fn earliest_of(
    grid: Grid,
    vertices: &[i32],
    boxes: &[i32],
    known: Point,
    candidates: &[u8],
) -> Answer
    requires { (accept_check (limit_of grid) vertices.now known ≡ Ok tt) × Boxed vertices.now boxes.now }
    ensures { result ≡ choose_of (limit_of grid) vertices.now known
        (candidates_of candidates.now) }
{
    let n = candidates.len() / 12;
    earliest(
        grid,
        vertices,
        boxes,
        known,
        n,
        |i| -> Point
            requires { i < candidate_count candidates.now }
            ensures { result ≡ vertex_at (candidates_of candidates.entry.now) i }
        { candidate_at(candidates, i) },
    )
}

// The earliest candidate that passes beside the sheet's known point. The sheet's own second point is not looked at.
#[tactic(auto, using(fields::proofs::Laws::Parts::values, sheet::proofs::Laws::Reads::plain_passed, sheet::proofs::Laws::Reads::plain_five, sheet::proofs::Laws::Places::vertices_stand, sheet::proofs::Laws::Opened::polygon, sheet::proofs::Laws::Reads::taken, crate::proofs::Laws::Room::any_boxes, crate::proofs::Laws::Candidates::choose_short, crate::proofs::Laws::Candidates::choose_passed, crate::proofs::Laws::Candidates::choose_failed))]
pub fn choose(b: &[u8], candidates: &[u8]) -> Answer
    ensures { result ≡ sheet_choose_of b.now candidates.now }
{
    if candidates.len() % 12 != 0 {
        return Err(Reason::VertexList.at(0));
    }
    let mut scratch = [0i32; 12288];
    let mut boxes = [0i32; 768];
    let sheet = plain_into(b, &mut scratch, &mut boxes)?;
    let size = sheet.count * 3;
    earliest_of(
        sheet.grid,
        &scratch[..size],
        &boxes,
        sheet.known,
        candidates,
    )
}

// The sector of an edge: the azimuths that it spans as seen from the reference point, from a start on, so many. An edge
// matters only to queries whose azimuth it spans. The sector of edge i is at 2i and 2i + 1. The start is odd exactly if
// the edge turns left, that is, if the reference point is on its left: where it would not be, the sector starts one
// azimuth early. Here, in order: gap; Sector, sector_of, azimuth, turns_left, put_sectors;
// is_missed_at, is_missed, is_passed; Passage, passage_at.
ghost use Rattle.std.specs.Prelude.{◌≡◌, ◌+◌, ◌*◌, ◌≤◌, ◌<◌, length};
ghost use Rattle.sphere.specs.Point.{limit_of, Within};
ghost use Rattle.polygon.specs.Accepted.{Listed, Gridded};
ghost use Rattle.polygon.specs.Checks.{accept_check};
ghost use Rattle.polygon.specs.Vertices.{vertices_count, start_of, end_of};
ghost use Rattle.azimuths.specs.Azimuth.{gap_of, azimuth_of, FrameAt};
ghost use Rattle.azimuths.specs.Sectors.{turn_of, sector_start, sector_width, is_left, FrameWithin, SectorsOf};
ghost use Rattle.azimuths.specs.Sectors.{is_missed_at, is_missed, is_passed, is_inside, turns_left};

use crate::azimuth::{Frame, azimuth_by};
use polygon::vertices::{end_of, vertex_at};
use sphere::orientation::dot;
use sphere::plane::turn;
use sphere::point::{Grid, Point};

// How far azimuth a is after azimuth b, going round.
fn gap(a: u16, b: u16) -> u16
    ensures { result ≡ gap_of a b }
{
    a.wrapping_sub(b)
}

// From azimuth `start` on, and `width` after it.
#[derive(Clone, Copy)]
struct Sector {
    start: u16,
    width: u16,
}

// From the first azimuth to the second; where the edge does not turn left, from the second to the first.
fn sector_of(first: u16, second: u16, left: bool) -> Sector
    requires { turn_of «left» first second < 65535 }
    ensures { (result.start ≡ sector_start «left» first second) × (result.width ≡ sector_width «left» first second) }
{
    let (from, to) = if left {
        (first, second)
    } else {
        (second, first)
    };
    let early = u16::from((from % 2 == 1) != left);
    Sector {
        start: gap(from, early),
        width: gap(to, from) + early,
    }
}

fn azimuth(frame: Frame, p: Point) -> u16
    requires { FrameWithin frame p }
    ensures { result ≡ azimuth_of frame p }
{
    azimuth_by(dot(frame.east, p), dot(frame.north, p))
}

// The reference point is on the left of edge i.
fn turns_left(grid: Grid, vertices: &[i32], known: Point, i: usize) -> bool
    requires { Listed vertices.now × Gridded (limit_of grid) vertices.now × Within (limit_of grid) known
        × (i < vertices_count vertices.now) }
    ensures { result ≡ is_left known (start_of vertices.now i) (end_of vertices.now i) }
{
    turn(grid, vertex_at(vertices, i), end_of(vertices, i), known) > 0
}

// The sectors of all edges.
pub fn put_sectors(grid: Grid, vertices: &[i32], known: Point, frame: Frame, sectors: &mut [u16])
    requires { (accept_check (limit_of grid) vertices.now known ≡ Ok tt) × FrameAt known frame
        × (vertices_count vertices.now * 2 ≤ length sectors.old) }
    ensures { SectorsOf vertices.now known frame sectors.new }
{
    let n = vertices.len() / 3;
    let mut first = azimuth(frame, vertex_at(vertices, 0));
    for i in 0..n {
        let second = azimuth(frame, end_of(vertices, i));
        let sector = sector_of(first, second, turns_left(grid, vertices, known, i));
        sectors[i * 2] = sector.start;
        sectors[i * 2 + 1] = sector.width;
        first = second;
    }
}

// Edge i does not span azimuth k.
pub fn is_missed_at(sectors: &[u16], k: u16, i: usize) -> bool
    requires { i * 2 + 2 ≤ length sectors.now }
    ensures { result ≡ is_missed_at sectors.now k i }
{
    gap(k, sectors[i * 2]) > sectors[i * 2 + 1]
}

// Nor any from lo to last. The tests are joined without a branch.
pub fn is_missed(sectors: &[u16], lo: u16, last: u16, i: usize) -> bool
    requires { (i * 2 + 2 ≤ length sectors.now) × (lo ≤ last) }
    ensures { result ≡ is_missed sectors.now lo last i }
{
    let start = sectors[i * 2];
    let width = sectors[i * 2 + 1];
    (gap(start, lo) > last - lo) & (gap(lo, start) > width)
}

// A hint: edge i spans azimuth k and the next.
pub fn is_passed(sectors: &[u16], k: u16, i: usize) -> bool
    requires { i * 2 + 2 ≤ length sectors.now }
    ensures { result ≡ is_passed sectors.now k i }
{
    gap(k, sectors[i * 2]) < sectors[i * 2 + 1]
}

// Whether azimuth k is inside the sector of edge i, at neither end; and whether the edge turns left.
#[derive(Clone, Copy)]
pub struct Passage {
    pub inside: bool,
    pub left: bool,
}

// The tests are joined without a branch.
pub fn passage_at(sectors: &[u16], k: u16, i: usize) -> Passage
    requires { i * 2 + 2 ≤ length sectors.now }
    ensures { (result.inside ≡ is_inside sectors.now k i) × (result.left ≡ turns_left sectors.now i) }
{
    let start = sectors[i * 2];
    let along = gap(k, start);
    Passage {
        inside: (along > 1) & (along < sectors[i * 2 + 1]),
        left: start % 2 == 1,
    }
}

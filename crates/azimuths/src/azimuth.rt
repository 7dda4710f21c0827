// The direction from the reference point to another point as one number below 65,536, its azimuth, which rises as the
// direction turns from east to north. Where two azimuths differ, and not by half a turn, they tell on which side of the
// arc to one point the other lies. Here, in order: Frame, turned, frame_of; quarter, part, azimuth_by.
ghost use Rattle.std.specs.Prelude.{◌≡◌, cond, false, ◌*◌, ◌/◌, ◌≤◌, ◌<◌};
ghost use Rattle.sphere.specs.Point.{fine, Fits, Within, is_null};
ghost use Rattle.azimuths.specs.Azimuth.{seen, quarter_of, azimuth_by, FrameAt};

use sphere::point::Point;

// Two vectors whose cross product is the reference point, some positive number of times.
#[derive(Clone, Copy)]
pub struct Frame {
    pub east: Point,
    pub north: Point,
}

fn turned(forward: bool, a: Point, b: Point) -> Frame
    ensures { result ≡ cond forward (record { east = a; north = b }) (record { east = b; north = a }) }
{
    if forward {
        Frame { east: a, north: b }
    } else {
        Frame { east: b, north: a }
    }
}

// The longest axis of the reference point is the one that the frame goes round.
pub fn frame_of(known: Point) -> Frame
    requires { Within fine known × (is_null known ≡ false) }
    ensures { FrameAt known result }
{
    let Point { x, y, z } = known;
    let across_x = Point { x: 0, y: -z, z: y };
    let across_y = Point { x: z, y: 0, z: -x };
    let across_z = Point { x: -y, y: x, z: 0 };
    if z.unsigned_abs() >= x.unsigned_abs() && z.unsigned_abs() >= y.unsigned_abs() {
        turned(z > 0, across_x, across_y)
    } else if y.unsigned_abs() >= x.unsigned_abs() {
        turned(y > 0, across_z, across_x)
    } else {
        turned(x > 0, across_y, across_z)
    }
}

// The first azimuth of a quarter turn, by whether the coordinates along east and north are negative.
fn quarter(u: bool, v: bool) -> usize
    ensures { result ≡ quarter_of u v }
{
    match (u, v) {
        (false, false) => 0,
        (true, false) => 16384,
        (true, true) => 32768,
        (false, true) => 49152,
    }
}

// In two steps where the product would not fit a word, as on the fine grid.
#[tactic(auto, using(crate::proofs::Laws::Part::two_steps))]
fn part(b: usize, d: usize) -> usize
    requires { (0 < d) × (b ≤ d) × (d ≤ 27021597764222976) }
    ensures { result ≡ b * 16384 / d }
{
    if b < 281474976710656 {
        b * 16384 / d
    } else {
        let n = b * 512;
        n / d * 32 + n % d * 32 / d
    }
}

// By the coordinates along east and north.
pub fn azimuth_by(u: i64, v: i64) -> u16
    requires { Fits seen u × Fits seen v }
    ensures { result ≡ azimuth_by u v }
{
    let a = u.unsigned_abs() as usize;
    let b = v.unsigned_abs() as usize;
    let d = a + b;
    if d == 0 {
        return 0;
    }
    let across = if (u < 0) ^ (v < 0) { a } else { b };
    (quarter(u < 0, v < 0) + part(across, d)) as u16
}

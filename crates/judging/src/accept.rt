// A polygon with its reference point, accepted, and its boxes. Here, in order: accept_boxed, no_second.
ghost use Rattle.std.specs.Prelude.{◌≡◌};
ghost use Rattle.sphere.specs.Point.{limit_of};
ghost use Rattle.polygon.specs.Checks.{accept_check};
ghost use Rattle.polygon.specs.Pair.{no_second};
ghost use Rattle.judging.specs.Accept.{BoxRoom, boxed_after};

use answer::Check;
use polygon::checks::accept_check;
use search::boxes;
use sphere::point::{Grid, Point};

// Document 02, P2: each call builds its boxes once, and a feed too.
pub fn accept_boxed(grid: Grid, vertices: &[i32], boxes: &mut [i32], known: Point) -> Check
    requires { BoxRoom vertices.now boxes.old }
    ensures { (result ≡ accept_check (limit_of grid) vertices.now known)
        × (boxes.new ≡ boxed_after (accept_check (limit_of grid) vertices.now known)
        vertices.now boxes.old) }
{
    accept_check(grid, vertices, known)?;
    boxes::fill(vertices, boxes);
    Ok(())
}

// A point that is all zero is no second reference point.
pub fn no_second() -> Point
    ensures { result ≡ no_second }
{
    Point { x: 0, y: 0, z: 0 }
}

// The arc from the reference point to a query. Here, in order: Arc, arc_between.
ghost use Rattle.std.specs.Prelude.{◌≡◌};
ghost use Rattle.sphere.specs.Point.{limit_of, Within};
ghost use Rattle.search.specs.Arc.{arc_of};

use sphere::plane::{Plane, plane_through};
use sphere::point::{Grid, Point};

// Its two ends and the plane through them, whose normal is worked out once; and whether the search asks the boxes, or
// goes over the whole polygon.
#[derive(Clone, Copy)]
pub struct Arc {
    pub from: Point,
    pub to: Point,
    pub plane: Plane,
    pub by_boxes: bool,
}

pub fn arc_between(grid: Grid, from: Point, to: Point, by_boxes: bool) -> Arc
    requires { Within (limit_of grid) from × Within (limit_of grid) to }
    ensures { result ≡ arc_of grid from to by_boxes }
{
    Arc {
        from,
        to,
        plane: plane_through(grid, from, to),
        by_boxes,
    }
}

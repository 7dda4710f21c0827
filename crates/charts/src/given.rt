// What the charts are made of. Here, in order: point, on, coarse, fine, inner, none, octant, zigzag.
use sphere::point::{Grid, GridPoint, Point};

pub(crate) fn point(x: i64, y: i64, z: i64) -> Point {
    Point { x: x, y: y, z: z }
}

// The record of a point on a grid (document 02, P8), on the coarse one, and on the fine one.
pub(crate) fn on(grid: Grid, p: Point) -> GridPoint {
    GridPoint {
        grid: grid,
        point: p,
    }
}

pub(crate) fn coarse(p: Point) -> GridPoint {
    on(Grid::Coarse, p)
}

pub(crate) fn fine(p: Point) -> GridPoint {
    on(Grid::Fine, p)
}

// The known point of the octant.
pub(crate) fn inner() -> Point {
    point(1, 1, 1)
}

// No second point.
pub(crate) fn none() -> Point {
    point(0, 0, 0)
}

pub(crate) fn octant() -> [i32; 9] {
    [1, 0, 0, 0, 1, 0, 0, 0, 1]
}

// 4,096 vertices, (1, 0, 0), (0, 2, 0), (3, 0, 0), (0, 4, 0) and so on: each edge joins the same two directions, and
// every point with z other than 0 is off its great circle.
pub(crate) fn zigzag() -> [i32; 12288] {
    let mut out = [0i32; 12288];
    for i in 0..4096 {
        out[i * 3 + i % 2] = (i + 1) as i32;
    }
    out
}

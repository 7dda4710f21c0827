// The index of a polygon, from four cones round the reference point, each a quarter turn. Here, in order: grow_root,
// grow_roots; Index, build, no_index.
ghost use Rattle.std.specs.Prelude.{◌≡◌, ◌*◌, ◌≤◌, ◌<◌, length};
ghost use Rattle.sphere.specs.Point.{limit_of};
ghost use Rattle.polygon.specs.Checks.{accept_check};
ghost use Rattle.polygon.specs.Vertices.{vertices_count};
ghost use Rattle.cones.specs.Table.{Indexed, Built, no_index};

use crate::buckets::fill;
use crate::grow::{grow, rest};
use crate::lists::first_list;
use crate::table::{Cone, Size};
use azimuths::azimuth::{Frame, frame_of};
use azimuths::sectors::put_sectors;
use sphere::point::{Grid, Point};

// The nodes of quarter r.
fn grow_root(
    n: usize,
    sectors: &[u16],
    table: &mut [u16],
    list: &mut [u16],
    stack: &mut [u16],
    r: u16,
    size: Size,
) -> Size
    requires n_bound { (n ≤ 4096) × (n * 2 ≤ length sectors.now) × (n ≤ length stack.old) × (r < 4) }
    requires indexed { Indexed n sectors.now table.old list.old size.nodes size.top }
    ensures { Indexed n sectors.now table.new list.new result.nodes result.top }
{
    let lo = r * 16384;
    let last = lo + 16383;
    let to = first_list(n, sectors, lo, last, stack);
    let quota = rest(512, 0, size.nodes) / usize::from(4 - r);
    let cone = Cone {
        from: 0,
        to,
        lo,
        last,
        quota,
        depth: 12,
    };
    grow(n, sectors, table, list, stack, cone, size)
}

// The nodes of all four.
fn grow_roots(
    n: usize,
    sectors: &[u16],
    table: &mut [u16],
    list: &mut [u16],
    stack: &mut [u16],
) -> Size
    requires { (n ≤ 4096) × (n * 2 ≤ length sectors.now) × (n ≤ length stack.old) }
    ensures { Indexed n sectors.now table.new list.new result.nodes result.top }
{
    let mut size = Size { nodes: 0, top: 0 };
    for r in 0..4 {
        size = grow_root(n, sectors, table, list, stack, r, size);
    }
    size
}

// All nodes, and the end of their lists; and the frame in which the azimuths are.
#[derive(Clone, Copy)]
pub struct Index {
    pub nodes: usize,
    pub top: usize,
    pub frame: Frame,
}

// The index, and the buckets, which are 0 before.
pub fn build(
    grid: Grid,
    vertices: &[i32],
    known: Point,
    sectors: &mut [u16],
    table: &mut [u16],
    buckets: &mut [u16],
    list: &mut [u16],
    stack: &mut [u16],
) -> Index
    requires known_value { (accept_check (limit_of grid) vertices.now known ≡ Ok tt)
        × (vertices_count vertices.now * 2 ≤ length sectors.old)
        × (vertices_count vertices.now ≤ length stack.old) }
    requires table_len_bound { (length table.old < 65536) × (1025 ≤ length buckets.old) }
    ensures { Built vertices.now known sectors.new table.new list.new
        result }
{
    let frame = frame_of(known);
    put_sectors(grid, vertices, known, frame, sectors);
    let size = grow_roots(vertices.len() / 3, sectors, table, list, stack);
    fill(table, size.nodes, buckets);
    Index {
        nodes: size.nodes,
        top: size.top,
        frame,
    }
}

// An index without nodes, beside any arrays.
pub fn no_index() -> Index
    ensures { result ≡ no_index }
{
    let none = Point { x: 0, y: 0, z: 0 };
    Index {
        nodes: 0,
        top: 0,
        frame: Frame {
            east: none,
            north: none,
        },
    }
}

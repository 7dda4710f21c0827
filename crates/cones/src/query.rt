// A query by the index. Here, in order: locate, guess (a node that may be the right one); is_aside, tally_edges.
ghost use Rattle.std.specs.Prelude.{◌≡◌, ◌*◌, ◌≤◌, length};
ghost use Rattle.sphere.specs.Point.{limit_of, Within};
ghost use Rattle.polygon.specs.Checks.{accept_check};
ghost use Rattle.polygon.specs.Vertices.{vertices_count};
ghost use Rattle.search.specs.Boxes.{Boxed};
ghost use Rattle.search.specs.Walk.{tally_from};
ghost use Rattle.azimuths.specs.Azimuth.{AsideIf};
ghost use Rattle.cones.specs.Table.{Built};

use crate::build::Index;
use crate::table::row_at;
use crate::told::tally_near;
use azimuths::azimuth::azimuth_by;
use search::arc::arc_between;
use search::border::tally_arc;
use search::looked::asks_boxes;
use search::walk::{Mode, Tally};
use sphere::orientation::dot;
use sphere::point::{Grid, Point};

// Of the nodes from `from` on before `to`, which follow each other, where those end that begin by azimuth k.
fn locate(table: &[u16], nodes: usize, from: usize, to: usize, k: u16) -> usize
    requires { nodes * 4 ≤ length table.now }
    ensures { result ≤ nodes }
{
    let mut high = to.min(nodes);
    let mut low = from.min(high);
    while low < high {
        let middle = low + (high - low) / 2;
        if table[middle * 4] <= k {
            low = middle + 1;
        } else {
            high = middle;
        }
    }
    low
}

// The same of all nodes, by the bucket that the azimuth is in.
fn guess(table: &[u16], buckets: &[u16], nodes: usize, k: u16) -> usize
    requires { nodes * 4 ≤ length table.now }
    ensures { result ≤ nodes }
{
    let c = usize::from(k / 64);
    if c + 1 >= buckets.len() {
        return 0;
    }
    let from = usize::from(buckets[c]);
    let to = usize::from(buckets[c + 1]);
    locate(table, nodes, from, to, k)
}

// The coordinates along east and north are not both 0: in the direction of the reference point there is no azimuth.
fn is_aside(u: i64, v: i64) -> bool
    ensures { AsideIf u v result }
{
    u != 0 || v != 0
}

// What all edges say of a query, as a search by the boxes does: by a node, where the query is in its cone, and else by
// the boxes. These by tally_arc: the compiler takes search_edges into its one caller, which short feeds go by.
pub fn tally_edges(
    grid: Grid,
    vertices: &[i32],
    boxes: &[i32],
    sectors: &[u16],
    table: &[u16],
    buckets: &[u16],
    list: &[u16],
    near: &mut [u16],
    index: Index,
    known: Point,
    query: Point,
    mode: Mode,
) -> Tally
    requires known_value { (accept_check (limit_of grid) vertices.now known ≡ Ok tt) × Within (limit_of grid) query
        × Boxed vertices.now boxes.now }
    requires built { Built vertices.now known sectors.now table.now list.now index }
    ensures { result ≡ tally_from vertices.now known query 0 (vertices_count vertices.now) }
{
    let frame = index.frame;
    let u = dot(frame.east, query);
    let v = dot(frame.north, query);
    let k = azimuth_by(u, v);
    let g = guess(table, buckets, index.nodes, k);
    if is_aside(u, v) & (g > 0) {
        let row = row_at(table, g - 1);
        let from = row.from;
        let to = row.to;
        if (row.lo <= k) & (k <= row.last) & (to - from <= near.len()) {
            return tally_near(
                grid, vertices, known, query, sectors, k, list, from, to, near,
            );
        }
    }
    let arc = arc_between(grid, known, query, asks_boxes(mode));
    tally_arc(vertices, boxes, arc)
}

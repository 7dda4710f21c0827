// The table of cones, and one node more in it. Here, in order: Row, row_at; Cone, Size; copy, put_node, has_room,
// put_leaf.
ghost use Rattle.std.specs.Prelude.{◌+◌, ◌*◌, ◌-◌, ◌≤◌, length};
ghost use Rattle.cones.specs.Table.{RowOf, Indexed, Room, Roomy, Copied, ConeOn};

// A node: the azimuths from lo to last, and where its list stands.
#[derive(Clone, Copy)]
pub struct Row {
    pub lo: u16,
    pub last: u16,
    pub from: usize,
    pub to: usize,
}

pub fn row_at(table: &[u16], k: usize) -> Row
    requires { k * 4 + 4 ≤ length table.now }
    ensures { RowOf table.now k result }
{
    let at = k * 4;
    Row {
        lo: table[at],
        last: table[at + 1],
        from: usize::from(table[at + 2]),
        to: usize::from(table[at + 3]),
    }
}

// The azimuths from lo to last, with a list on the stack of lists; and hints, how many nodes the cone may become, and
// how often it may be halved.
#[derive(Clone, Copy)]
pub struct Cone {
    pub from: usize,
    pub to: usize,
    pub lo: u16,
    pub last: u16,
    pub quota: usize,
    pub depth: usize,
}

// The nodes of the table, and the end of their lists.
#[derive(Clone, Copy)]
pub struct Size {
    pub nodes: usize,
    pub top: usize,
}

fn copy(stack: &[u16], from: usize, to: usize, list: &mut [u16], at: usize)
    requires { (from ≤ to) × (to ≤ length stack.now) × (at + (to - from) ≤ length list.old) }
    ensures { Copied stack.now list.old list.new from to at }
{
    for e in from..to {
        list[at + (e - from)] = stack[e];
    }
}

// The cone becomes a node; where the lists end then. The sectors are those that its list is complete for.
fn put_node(
    n: usize,
    sectors: &[u16],
    table: &mut [u16],
    list: &mut [u16],
    stack: &[u16],
    cone: Cone,
    nodes: usize,
    top: usize,
) -> usize
    requires { ConeOn n sectors.now stack.now cone × Indexed n sectors.now table.old list.old nodes top
        × Room (length table.old) (length list.old) nodes top (cone.to - cone.from) }
    ensures { Indexed n sectors.now table.new list.new (nodes + 1) result }
{
    let from = cone.from;
    let to = cone.to;
    let end = top + (to - from);
    copy(stack, from, to, list, top);
    table[nodes * 4] = cone.lo;
    table[nodes * 4 + 1] = cone.last;
    table[nodes * 4 + 2] = top as u16;
    table[nodes * 4 + 3] = end as u16;
    end
}

// Room for one node more, with so many entries.
fn has_room(table: usize, list: usize, nodes: usize, top: usize, more: usize) -> bool
    requires { (nodes * 4 ≤ table) × (top ≤ list) }
    ensures { Roomy table list nodes top more result }
{
    table - nodes * 4 >= 4 && list <= 65535 && list - top >= more
}

// The same where there is room for it, and its list is short enough to be worth it: a query pays for each entry, and
// the boxes leave most edges. The queries of a cone without a node go to the boxes.
pub fn put_leaf(
    n: usize,
    sectors: &[u16],
    table: &mut [u16],
    list: &mut [u16],
    stack: &[u16],
    cone: Cone,
    size: Size,
) -> Size
    requires { ConeOn n sectors.now stack.now cone
        × Indexed n sectors.now table.old list.old size.nodes size.top }
    ensures { Indexed n sectors.now table.new list.new result.nodes result.top }
{
    let nodes = size.nodes;
    let top = size.top;
    let len = cone.to - cone.from;
    if len <= n / 6 + 21 && has_room(table.len(), list.len(), nodes, top, len) {
        let end = put_node(n, sectors, table, list, stack, cone, nodes, top);
        Size {
            nodes: nodes + 1,
            top: end,
        }
    } else {
        size
    }
}

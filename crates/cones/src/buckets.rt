// Where the nodes begin, in 1024 buckets of azimuths, so that a query is looked up among few of them. Here, in order:
// mark, raise, fill. All of it is a hint: what is proved is that it stays within the arrays.
ghost use Rattle.std.specs.Prelude.{◌*◌, ◌≤◌, ◌<◌, length};

// Behind the bucket in which a node begins, how many nodes there are up to it.
fn mark(table: &[u16], nodes: usize, buckets: &mut [u16])
    requires { (nodes * 4 ≤ length table.now) × (nodes < 65536) × (1025 ≤ length buckets.old) }
{
    for k in 0..nodes {
        let c = usize::from(table[k * 4]) / 64;
        buckets[c + 1] = (k + 1) as u16;
    }
}

// Each number is at least the one before.
fn raise(buckets: &mut [u16]) {
    let mut most = 0;
    for number in buckets {
        most = most.max(*number);
        *number = most;
    }
}

// Number c of the buckets, which are 0, becomes how many nodes begin before bucket c.
pub(crate) fn fill(table: &[u16], nodes: usize, buckets: &mut [u16])
    requires { (nodes * 4 ≤ length table.now) × (nodes < 65536) × (1025 ≤ length buckets.old) }
{
    mark(table, nodes, buckets);
    raise(buckets)
}

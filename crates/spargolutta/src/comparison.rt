// Two sheets compared: document 02's P11. Here, in order: byte, packed; the exported functions, each of which hands out
// one number of the comparison.
ghost use Rattle.std.specs.Prelude.{◌≡◌, ◌<◌};
ghost use Rattle.compare.specs.Comparison.{comparison_of};
ghost use Rattle.spargolutta.specs.Packed.{packed_of};

use compare::compare;

fn byte(x: u8) -> u64
    ensures { (result ≡ x) × (result < 256) }
{
    x as u64
}

// Seven bytes as one number, the first in the lowest byte.
fn packed(fields: [u8; 7]) -> u64
    ensures { result ≡ packed_of fields }
{
    let high = byte(fields[4]) + (byte(fields[5]) + byte(fields[6]) * 256) * 256;
    let low = byte(fields[2]) + (byte(fields[3]) + high * 256) * 256;
    byte(fields[0]) + (byte(fields[1]) + low * 256) * 256
}

#[unsafe(no_mangle)]
pub extern "C" fn spg_compare_number(left: &[u8], right: &[u8]) -> u32
    ensures { result ≡ (comparison_of left.now right.now).number }
{
    compare(left, right).number
}

#[unsafe(no_mangle)]
pub extern "C" fn spg_compare_place(left: &[u8], right: &[u8]) -> usize
    ensures { result ≡ (comparison_of left.now right.now).place }
{
    compare(left, right).place
}

#[unsafe(no_mangle)]
pub extern "C" fn spg_compare_count(left: &[u8], right: &[u8]) -> u32
    ensures { result ≡ (comparison_of left.now right.now).count }
{
    compare(left, right).count
}

#[unsafe(no_mangle)]
pub extern "C" fn spg_compare_way(left: &[u8], right: &[u8]) -> u32
    ensures { result ≡ (comparison_of left.now right.now).way }
{
    compare(left, right).way
}

#[unsafe(no_mangle)]
pub extern "C" fn spg_compare_fields(left: &[u8], right: &[u8]) -> u64
    ensures { result ≡ packed_of (comparison_of left.now right.now).fields }
{
    let comparison = compare(left, right);
    let fields = comparison.fields;
    packed(fields)
}

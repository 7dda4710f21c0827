// The basin profile for C (document 02, P9): vertices of twelve bytes each and the number of their grid, without a
// sheet. Here, in order: basin_in, basin_of; the exported functions, each of which hands out one number. Nothing is
// written.
ghost use Rattle.std.specs.Prelude.{◌≡◌, ◌++◌, ◌*◌, ◌/◌, ◌≤◌, length, drop};
ghost use Rattle.basin.specs.Basin.{basin_number_of, basin_place_of, basin_count_of, basin_of};
ghost use Rattle.spargolutta.specs.Outline.{outline_of, basin_of_bytes};

use answer::Reason;
use basin::profile::{Basin, basin_count, basin_number, basin_place, check_basin};
use big_endian::read::decode;

// The vertices are decoded to the front of `scratch`.
fn basin_in(vertices: &[u8], grid: u32, scratch: &mut [i32]) -> Basin
    requires { length vertices.now / 12 * 3 ≤ length scratch.old }
    ensures value { result ≡ basin_of grid (outline_of vertices.now) }
    ensures scratch_after { scratch.new ≡ outline_of vertices.now
        ++ drop (length vertices.now / 12 * 3) scratch.old }
{
    let size = vertices.len() / 12 * 3;
    decode(vertices, 0, size, scratch);
    check_basin(&scratch[..size], grid)
}

// The whole answer.
fn basin_of(vertices: &[u8], grid: u32) -> Basin
    ensures { result ≡ basin_of_bytes grid vertices.now }
{
    if vertices.len() % 12 != 0 {
        return Err(Reason::VertexList.at(0));
    }
    if vertices.len() > 49152 {
        return Err(Reason::VertexList.at(0));
    }
    let mut scratch = [0i32; 12288];
    basin_in(vertices, grid, &mut scratch)
}

#[unsafe(no_mangle)]
pub extern "C" fn spg_basin_number(vertices: &[u8], grid: u32) -> u32
    ensures { result ≡ basin_number_of (basin_of_bytes grid vertices.now) }
{
    basin_number(basin_of(vertices, grid))
}

#[unsafe(no_mangle)]
pub extern "C" fn spg_basin_place(vertices: &[u8], grid: u32) -> usize
    ensures { result ≡ basin_place_of (basin_of_bytes grid vertices.now) }
{
    basin_place(basin_of(vertices, grid))
}

#[unsafe(no_mangle)]
pub extern "C" fn spg_basin_count(vertices: &[u8], grid: u32) -> u32
    ensures { result ≡ basin_count_of (basin_of_bytes grid vertices.now) }
{
    basin_count(basin_of(vertices, grid))
}

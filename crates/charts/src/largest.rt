// The largest sheet: a name of 120 bytes, 4,096 vertices and a second point, 32 + 120 + 49,152 + 15 bytes. (1, 1, 5) is
// beside (1, 1, 4), off every great circle. Here, in order: write_to, short, load_front, write_again, run.
ghost use Rattle.std.specs.Prelude.{◌≤◌, length};

use crate::given::{coarse, point, zigzag};
use crate::lines;
use answer::Answer;
use sheet::{read, write};
use sphere::point::Grid;

fn write_to(vertices: &[i32; 12288], buffer: &mut [u8]) -> Answer {
    let known = coarse(point(1, 1, 4));
    let second = coarse(point(1, 1, 5));
    let name = [65u8; 120];
    write::write(
        4294967295,
        3,
        &name,
        known,
        Grid::Coarse,
        vertices,
        second,
        buffer,
    )
}

fn short(rt: &impl Print) {
    let mut buffer = [238u8; 49318];
    let written = write_to(&zigzag(), &mut buffer);
    lines::print_kept(rt, b"write_room_49318", written, buffer == [238; 49318])
}

// Loads the first n bytes.
fn load_front(rt: &impl Print, label: &[u8], bytes: &[u8], n: usize, vertices: &mut [i32; 12288])
    requires { n ≤ length bytes.now }
{
    lines::print_sheet(rt, label, read::load(&bytes[0..n], vertices))
}

// The vertices write the same bytes.
fn write_again(rt: &impl Print, vertices: &[i32; 12288], bytes: &[u8]) {
    let mut buffer = [238u8; 49320];
    let written = write_to(vertices, &mut buffer);
    lines::print_kept(rt, b"load_again", written, buffer[..] == bytes[..])
}

// The byte behind the sheet stays. A sheet that is refused leaves the vertices as they are.
pub(crate) fn run(rt: &impl Print) {
    short(rt);
    let mut buffer = [238u8; 49320];
    let written = write_to(&zigzag(), &mut buffer);
    lines::print_kept(rt, b"write_49319", written, buffer[49319] == 238);
    let mut vertices = [0i32; 12288];
    load_front(rt, b"load_49319", &buffer, 49319, &mut vertices);
    load_front(rt, b"load_49318", &buffer, 49318, &mut vertices);
    write_again(rt, &vertices, &buffer)
}

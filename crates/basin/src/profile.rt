// The basin profile of any list of numbers. Here, in order: Basin, basin_number, basin_place, basin_count; basin_check,
// check_basin.
ghost use Rattle.std.specs.Prelude.{◌≡◌};
ghost use Rattle.basin.specs.Basin.{basin_number_of, basin_place_of, basin_count_of};
ghost use Rattle.basin.specs.Basin.{basin_check, basin_of};

use crate::pairs::first_pair;
use answer::{Check, Reason, Refusal, fails_if};
use polygon::checks::polygon_check;
use polygon::grids::grid_check;
use sphere::point::grid_numbered;

// What is said of a list: no edge shares a point with a later one; or the first that does and the later one (35); or a
// line refuses it. `specs/Basin.antt` gives number, place and count for each case.
pub type Basin = Result<Option<(usize, u32)>, Refusal>;

pub fn basin_number(basin: Basin) -> u32
    ensures { result ≡ basin_number_of basin }
{
    match basin {
        Ok(None) => 0,
        Ok(Some(_)) => 35,
        Err(refusal) => refusal.reason.number(),
    }
}

pub fn basin_place(basin: Basin) -> usize
    ensures { result ≡ basin_place_of basin }
{
    match basin {
        Ok(None) => 0,
        Ok(Some((first, _))) => first,
        Err(refusal) => refusal.place,
    }
}

pub fn basin_count(basin: Basin) -> u32
    ensures { result ≡ basin_count_of basin }
{
    match basin {
        Ok(Some((_, second))) => second,
        _ => 0,
    }
}

// 10, 28, 11 to 14, 34.
#[tactic(auto, using(sphere::proofs::Laws::Grid::past_one), unfolding(crate::specs::Basin::basin_check))]
fn basin_check(vertices: &[i32], grid: u32) -> Check
    ensures { result ≡ basin_check grid vertices.now }
{
    grid_check(vertices, grid > 1)?;
    polygon_check(grid_numbered(grid), vertices)?;
    fails_if(Reason::ManyVertices, vertices.len() / 3 > 512)
}

// Document 02's check. Any numbers, any grid; nothing is written.
#[tactic(auto, using(crate::proofs::Laws::Offending::basin_polygon), unfolding(crate::specs::Basin::basin_of))]
pub fn check_basin(vertices: &[i32], grid: u32) -> Basin
    ensures { result ≡ basin_of grid vertices.now }
{
    basin_check(vertices, grid)?;
    match first_pair(grid_numbered(grid), vertices) {
        None => Ok(None),
        Some((first, second)) => Ok(Some((first, second as u32))),
    }
}

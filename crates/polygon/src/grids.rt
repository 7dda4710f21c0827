// Mixed grids in one call: document 02's P8. Here, in order: is_mixed (two records beside the
// outline's), is_mixed_of_three, grid_check (10, 28), grid_of_second.
ghost use Rattle.std.specs.Prelude.{◌≡◌, [], ◌∷◌};
ghost use Rattle.polygon.specs.Grids.{is_mixed, grid_check, grid_of_second};

use crate::checks::list_check;
use answer::{Check, Reason, fails_if};
use sphere::point::{Grid, GridPoint, is_null};

pub fn is_mixed(outline: Grid, g: Grid, h: Grid) -> bool
    ensures { result ≡ is_mixed outline (g ∷ h ∷ []) }
{
    outline != g || outline != h
}

pub fn is_mixed_of_three(outline: Grid, g: Grid, h: Grid, k: Grid) -> bool
    ensures { result ≡ is_mixed outline (g ∷ h ∷ k ∷ []) }
{
    outline != g || is_mixed(outline, h, k)
}

#[tactic(auto, unfolding(crate::specs::Grids::grid_check))]
pub fn grid_check(vertices: &[i32], mixed: bool) -> Check
    ensures { result ≡ grid_check vertices.now mixed }
{
    list_check(vertices)?;
    fails_if(Reason::OtherGrid, mixed)
}

// A second point of all zero is none, and has no grid of its own.
pub fn grid_of_second(outline: Grid, second: GridPoint) -> Grid
    ensures { result ≡ grid_of_second outline second }
{
    if is_null(second.point) {
        outline
    } else {
        second.grid
    }
}

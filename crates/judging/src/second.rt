// A second reference point (document 02, P4: a second known point), for the query that is antipodal to the first.
// Here, in order: is_second, second_check (19), pair_boxed, optional_check (10 to 16, 19), earliest. The polygon is
// checked once: of a candidate only lines 15 and 16 are left to check.
ghost use Rattle.std.specs.Prelude.{◌≡◌, ◌<◌, ℕ};
ghost use Rattle.sphere.specs.Point.{limit_of};
ghost use Rattle.sphere.specs.declared.point.Point.{Point};
ghost use Rattle.answer.specs.Search.{first_from};
ghost use Rattle.polygon.specs.Checks.{accept_check};
ghost use Rattle.polygon.specs.Pair.{is_second, second_check, pair_check, optional_check, chosen};
ghost use Rattle.search.specs.Boxes.{Boxed};
ghost use Rattle.judging.specs.Accept.{BoxRoom, boxed_after};

use crate::accept::{accept_boxed, no_second};
use crate::judge::judge_boxed;
use answer::{Answer, Check, Reason, Verdict, fails_if};
use polygon::checks::accepts;
use search::walk::Mode;
use sphere::direction::same_direction;
use sphere::point::{Grid, Point, is_null};

// What a candidate has to pass, beside the first point. It is judged last, as that costs most.
pub fn is_second(
    grid: Grid,
    vertices: &[i32],
    boxes: &[i32],
    known: Point,
    candidate: Point,
) -> bool
    requires { (accept_check (limit_of grid) vertices.now known ≡ Ok tt) × Boxed vertices.now boxes.now }
    ensures { result ≡ is_second (limit_of grid) vertices.now known candidate }
{
    if !accepts(grid, vertices, candidate) || same_direction(known, candidate) {
        return false;
    }
    let none = no_second();
    let judged = judge_boxed(grid, vertices, boxes, known, none, candidate, Mode::Boxed);
    answer::number(judged.answer) == 1
}

#[tactic(auto, unfolding(polygon::specs::Pair::second_check))]
pub fn second_check(
    grid: Grid,
    vertices: &[i32],
    boxes: &[i32],
    known: Point,
    second: Point,
) -> Check
    requires { (accept_check (limit_of grid) vertices.now known ≡ Ok tt) × Boxed vertices.now boxes.now }
    ensures { result ≡ second_check (limit_of grid) vertices.now known second }
{
    fails_if(
        Reason::SecondPoint,
        !is_second(grid, vertices, boxes, known, second),
    )
}

// The polygon with both points, and its boxes.
#[tactic(auto, unfolding(polygon::specs::Pair::pair_check))]
pub(crate) fn pair_boxed(
    grid: Grid,
    vertices: &[i32],
    boxes: &mut [i32],
    known: Point,
    second: Point,
) -> Check
    requires { BoxRoom vertices.now boxes.old }
    ensures { (result ≡ pair_check (limit_of grid) vertices.now known second)
        × (boxes.new ≡ boxed_after (accept_check (limit_of grid) vertices.now known)
        vertices.now boxes.old) }
{
    accept_boxed(grid, vertices, boxes, known)?;
    second_check(grid, vertices, boxes, known, second)
}

// The polygon with a second point or none: any numbers.
#[tactic(auto, unfolding(polygon::specs::Pair::optional_check))]
pub fn optional_check(grid: Grid, vertices: &[i32], known: Point, second: Point) -> Check
    ensures { result ≡ optional_check (limit_of grid) vertices.now known second }
{
    let mut boxes = [0i32; 768];
    accept_boxed(grid, vertices, &mut boxes, known)?;
    if is_null(second) {
        return Ok(());
    }
    second_check(grid, vertices, &boxes, known, second)
}

// The earliest of n candidates that passes, by its number.
pub fn earliest<F: Fn(usize) -> Point>(
    grid: Grid,
    vertices: &[i32],
    boxes: &[i32],
    known: Point,
    n: usize,
    candidate: F,
) -> Answer
    requires accepted { (accept_check (limit_of grid) vertices.now known ≡ Ok tt) × Boxed vertices.now boxes.now }
    requires callable { (i : ℕ) → i < n → F.pre candidate i }
    ensures { (points : ℕ → Point) → ((i : ℕ) (p : Point) → i < n → F.post candidate i p → p ≡ points i) →
        result ≡ chosen (first_from (λ i. is_second (limit_of grid) vertices.now known (points i)) 0 n) }
{
    for i in 0..n {
        if is_second(grid, vertices, boxes, known, candidate(i)) {
            return Ok(Verdict::Done(i));
        }
    }
    Err(Reason::SecondPoint.at(0))
}

// Bounds to try, in floats. All of it is a hint, and no contract says what is found: `axes` checks each bound exactly.
// Here, in order: step, along, least_ratio, least_share, bound_hint.
use crate::find::{Vector, dot_at, larger, size, smaller, whole};
use sphere::point::Point;

// A number of an axis: 1, -1 or 0.
fn step(k: i64) -> f64 {
    if k > 0 {
        1.0
    } else if k < 0 {
        -1.0
    } else {
        0.0
    }
}

fn along(axis: Point, sign: f64) -> Vector {
    Vector {
        x: sign * step(axis.x),
        y: sign * step(axis.y),
        z: sign * step(axis.z),
    }
}

// The least of e by d among the vertices, or -2 where d is not positive for all.
fn least_ratio(vertices: &[i32], e: Vector, d: Vector) -> f64 {
    let mut low = 1.0;
    let n = vertices.len() / 3;
    for i in 0..n {
        let over = dot_at(vertices, i, d);
        if over <= 0.0 {
            return -2.0;
        }
        low = smaller(low, dot_at(vertices, i, e) / over);
    }
    low
}

// The least of e by the greater of d and f in size.
fn least_share(vertices: &[i32], e: Vector, d: Vector, f: Vector) -> f64 {
    let mut low = 2.0;
    let n = vertices.len() / 3;
    for i in 0..n {
        let over = larger(size(dot_at(vertices, i, d)), size(dot_at(vertices, i, f)));
        low = smaller(low, dot_at(vertices, i, e) / over);
    }
    low
}

// A bound along e, in units of 2^-30, a little below what the vertices reach: by more than a float is off.
pub(crate) fn bound_hint(vertices: &[i32], e: Point, d: Point, f: Point) -> i64 {
    let forward = along(e, 1.0);
    let share = least_share(vertices, forward, along(d, 1.0), along(f, 1.0));
    if share > 1.00000001 {
        return 1073741824;
    }
    if share > 0.0 {
        return whole(share * 1073741824.0 - 0.000001);
    }
    let by_d = larger(
        least_ratio(vertices, forward, along(d, 1.0)),
        least_ratio(vertices, forward, along(d, -1.0)),
    );
    let by_f = larger(
        least_ratio(vertices, forward, along(f, 1.0)),
        least_ratio(vertices, forward, along(f, -1.0)),
    );
    whole(larger(by_d, by_f) * 1073741824.0 - 1.000001)
}

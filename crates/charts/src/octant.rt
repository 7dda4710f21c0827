// Document 01's table K1 to K14, and the case after 003 that is only run.
// Here, in order: queries, changes, others, run.
use crate::given::point;
use crate::lines;
use crate::lines::{ask_octant, judge_list, judge_octant, octant_from};

fn queries(rt: &impl Print) {
    ask_octant(rt, b"K1", 1, 1, 1);
    ask_octant(rt, b"K2", 3, 2, 1);
    ask_octant(rt, b"K3", 1, 1, 0);
    ask_octant(rt, b"K4", 1, 0, 0);
    ask_octant(rt, b"K5", 1, 1, -1);
    ask_octant(rt, b"K6", -1, -1, 1);
    ask_octant(rt, b"K7", -1, 1, 0);
    ask_octant(rt, b"K8", -1, -1, -1);
}

fn changes(rt: &impl Print) {
    octant_from(rt, b"K9", 1, -1, 0);
    let repeated = [1, 0, 0, 2, 0, 0, 0, 0, 1];
    judge_list(rt, b"K10", &repeated);
    judge_octant(rt, b"K11", point(3, 2, 1), point(-1, -1, 1));
    judge_octant(rt, b"K12", point(1, 1, -1), point(3, 2, 1));
}

fn others(rt: &impl Print) {
    let touched = [-4, -2, 1, 0, 0, 1, 4, -2, 1, 0, 5, 1];
    lines::judge(rt, b"K13", &touched, point(-2, 0, 1), point(2, 0, 1));
    let turned = [1, 0, 0, 0, 0, -1, 0, 1, 0];
    lines::judge(rt, b"K14", &turned, point(1, 1, -1), point(0, 0, 1));
    let polar = [1, 0, 2, 0, 1, 1, -1, 0, 2];
    lines::judge(rt, b"after_003", &polar, point(0, 1, 3), point(0, 0, 1));
}

pub(crate) fn run(rt: &impl Print) {
    queries(rt);
    changes(rt);
    others(rt);
}

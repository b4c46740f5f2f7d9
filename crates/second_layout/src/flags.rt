// "The preferred link of two joined clusters is the first in the list."
use crate::paths::Paths;
use second_plan::rows::{Plan, Row};

// The roots of the clusters that the ends of link l are in.
fn roots_of(plan: &Plan, paths: &Paths, l: usize) -> (Option<usize>, Option<usize>) {
    let (a, b) = plan.ends(l);
    (paths.root(a), paths.root(b))
}

// Whether link l joins two clusters, and no link before it joins them, whichever end is in which.
fn is_preferred(plan: &Plan, paths: &Paths, l: usize) -> bool {
    let (x, y) = roots_of(plan, paths, l);
    let joins = |k: usize| {
        let roots = roots_of(plan, paths, k);
        roots == (x, y) || roots == (y, x)
    };
    x != y && !(0..l).any(joins)
}

pub(crate) fn enter_flags(plan: &mut Plan, paths: &Paths) {
    for l in 0..plan.links() {
        let flag = usize::from(is_preferred(plan, paths, l));
        plan.set_entry(Row::Flag, l, flag);
    }
}

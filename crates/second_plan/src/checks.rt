// The checks over a whole plan: 6, 7, 8, 9 and 10, each a walk of its own.

use crate::answers::{Refusal, Refused};
use crate::nodes::Set;
use crate::rows::{MOST_LINKS, MOST_NODES, Plan, Row};

// The root above p, if its parents lead to one. No root is more than 63 steps up, and at a root a
// step up goes nowhere else: so 64 steps end at it, and a walk that ends elsewhere has none.
fn root_of(plan: &Plan, p: usize) -> Option<usize> {
    let at = (0..MOST_NODES).fold(p, |at, _| plan.entry(Row::Parent, at));
    plan.is_root(at).then_some(at)
}

// The roots above the ends of link l.
fn roots_of(plan: &Plan, l: usize) -> (Option<usize>, Option<usize>) {
    let (a, b) = plan.ends(l);
    (root_of(plan, a), root_of(plan, b))
}

// Whether link l joins the clusters of roots x and y, whichever end is in which.
fn joins(plan: &Plan, l: usize, x: Option<usize>, y: Option<usize>) -> bool {
    let roots = roots_of(plan, l);
    roots == (x, y) || roots == (y, x)
}

// How many links there are to walk over.
fn link_count(plan: &Plan) -> usize {
    plan.links().min(MOST_LINKS)
}

// How many preferred links join the clusters of roots x and y.
fn preferred_between(plan: &Plan, x: Option<usize>, y: Option<usize>) -> usize {
    (0..link_count(plan))
        .filter(|&l| plan.entry(Row::Flag, l) > 0 && joins(plan, l, x, y))
        .count()
}

// The set of the nodes known to be joined to node 0, with what link l adds to it.
fn spread(plan: &Plan, joined: Set, l: usize) -> Set {
    let (a, b) = plan.ends(l);
    if joined.has(a) {
        joined.with(b)
    } else if joined.has(b) {
        joined.with(a)
    } else {
        joined
    }
}

fn spread_all(plan: &Plan, joined: Set) -> Set {
    (0..link_count(plan)).fold(joined, |all, l| spread(plan, all, l))
}

// The nodes joined to node 0. After k turns each node within k links of it is found, and none that
// can be reached is 64 links away.
fn joined_to_first(plan: &Plan) -> Set {
    (0..MOST_NODES).fold(Set::EMPTY.with(0), |joined, _| spread_all(plan, joined))
}

// "Each node that is no root has a link to its parent."
fn lacks_parent(plan: &Plan, p: usize) -> bool {
    let parent = plan.entry(Row::Parent, p);
    parent >= plan.nodes() || (parent != p && !plan.marked(Row::Neighbours, p, parent))
}

// "A preferred link joins two clusters."
fn preferred_inside(plan: &Plan, l: usize) -> bool {
    let (x, y) = roots_of(plan, l);
    plan.entry(Row::Flag, l) > 0 && x == y
}

// "For each two clusters with any link between them, exactly one of these links is preferred."
fn not_one_preferred(plan: &Plan, l: usize) -> bool {
    let (x, y) = roots_of(plan, l);
    x != y && preferred_between(plan, x, y) != 1
}

// Refuses the lowest node or the first link, of so many, that fails a check.
fn refuse_first<F: Fn(usize) -> bool>(
    count: usize,
    refusal: Refusal,
    fails: F,
) -> Result<(), Refused>
    requires { F.IsAlwaysCallable fails }
{
    match (0..count).find(|&i| fails(i)) {
        Some(place) => Err(refusal.at(place)),
        None => Ok(()),
    }
}

// Check 10 alone: the lowest node that no links join to node 0.
pub fn unjoined(plan: &Plan) -> Result<(), Refused> {
    let joined = joined_to_first(plan);
    refuse_first(plan.nodes(), Refusal::NotJoined, |p| !joined.has(p))
}

// The first check that the plan fails, and where.
pub(crate) fn whole_plan(plan: &Plan) -> Result<(), Refused> {
    let nodes = plan.nodes();
    let links = plan.links();
    refuse_first(nodes, Refusal::NoParent, |p| lacks_parent(plan, p))?;
    refuse_first(nodes, Refusal::NoRoot, |p| root_of(plan, p).is_none())?;
    refuse_first(links, Refusal::PreferredInside, |l| {
        preferred_inside(plan, l)
    })?;
    refuse_first(links, Refusal::NotOnePreferred, |l| {
        not_one_preferred(plan, l)
    })?;
    unjoined(plan)
}

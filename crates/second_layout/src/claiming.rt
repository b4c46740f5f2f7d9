// "claim unclaimed nodes breadth first down to that depth (who was claimed earlier claims first, each its lowest neighbours first)"
//
// No list of the claims is kept: their order is that of the paths. Of two nodes of a cluster the one with the shorter path was claimed
// earlier, and of two with paths of one length the one whose path is lower where they first differ: there one node claimed both, its lowest
// neighbours first, and those below them claim in the same order. So a node is claimed by the neighbour whose path comes first, and its own
// path comes first of all those that lead from the root to it, past the nodes of earlier clusters.
use crate::paths::{Path, Paths};
use second_plan::rows::{Plan, Row};

// The path over x to p, if p may be claimed from x: x is in the cluster of a root and above the depth. Here and below the root changes with the
// cluster and x and p with the link, and a struct of all would be made for each link.
fn path_over(paths: &Paths, depth: usize, top: usize, x: usize, p: usize) -> Option<Path> {
    paths
        .path(x)
        .filter(|path| path.root() == top && path.steps() < depth)
        .map(|path| path.gone_on(p))
}

// p's path leads over x, if p is in no other cluster and that path comes before the one it has.
fn claim(paths: &mut Paths, depth: usize, top: usize, x: usize, p: usize) {
    if let Some(path) = path_over(paths, depth, top, x, p) {
        let comes_first = paths
            .path(p)
            .is_none_or(|own| own.root() == top && path < own);
        if comes_first {
            paths.set_path(p, path);
        }
    }
}

// Over every link, both ways.
fn claim_over_links(plan: &Plan, paths: &mut Paths, depth: usize, top: usize) {
    for l in 0..plan.links() {
        let (a, b) = plan.ends(l);
        claim(paths, depth, top, a, b);
        claim(paths, depth, top, b, a);
    }
}

// The cluster of a root. After k turns each node whose first path has k steps has it, and none has more than the depth.
fn claim_cluster(plan: &Plan, paths: &mut Paths, depth: usize, top: usize) {
    paths.set_path(top, Path::of_root(top));
    for _ in 0..depth {
        claim_over_links(plan, paths, depth, top);
    }
}

// "take the lowest unclaimed node as a root, .. and repeat"
pub(crate) fn claim_all(plan: &Plan, depth: usize) -> Paths {
    let mut paths = Paths::none();
    for p in 0..plan.nodes() {
        if paths.path(p).is_none() {
            claim_cluster(plan, &mut paths, depth, p);
        }
    }
    paths
}

pub(crate) fn enter_parents(plan: &mut Plan, paths: &Paths) {
    for p in 0..plan.nodes() {
        if let Some(path) = paths.path(p) {
            plan.set_entry(Row::Parent, p, path.parent());
        }
    }
}

// The paths by which nodes were claimed.

use second_plan::rows::MOST_NODES;

// In a path, no node. No Option: the root and the parent, which every path has, would be Options too.
const NOBODY: u8 = 64;

// The path of a node: how many steps it lies below its root, and the numbers of the root, of the nodes on the way down, and its own, and
// after them NOBODY. The order of paths is that of claims: the shorter one first, and of two of one length the one that is lower where they
// first differ.
#[derive(Clone, Copy, Debug, PartialEq, Eq, PartialOrd, Ord)]
pub(crate) struct Path {
    steps: u8,
    nodes: [u8; MOST_NODES],
}

impl Path {
    // The path of a root: of no steps.
    pub fn of_root(p: usize) -> Path {
        let mut path = Path {
            steps: 0,
            nodes: [NOBODY; MOST_NODES],
        };
        path.end_at(p);
        path
    }

    // The same path one step further, to p.
    pub fn gone_on(mut self, p: usize) -> Path {
        self.steps = self.steps.saturating_add(1);
        self.end_at(p);
        self
    }

    // After its steps it is at p.
    fn end_at(&mut self, p: usize) {
        let end = self.steps();
        if end < MOST_NODES {
            self.nodes[end] = u8::try_from(p).unwrap_or(NOBODY);
        }
    }

    // How many steps it lies below its root.
    pub fn steps(&self) -> usize {
        usize::from(self.steps)
    }

    // The i-th number on it.
    fn node(&self, i: usize) -> usize {
        usize::from(self.nodes.get(i).copied().unwrap_or(NOBODY))
    }

    // The root at which it begins.
    pub fn root(&self) -> usize {
        self.node(0)
    }

    // "The parent is the node that claimed it": the last but one. A root is its own.
    pub fn parent(&self) -> usize {
        self.node(self.steps().saturating_sub(1))
    }
}

// Of each node its path, if somebody claimed it.
#[derive(Drop)]
pub(crate) struct Paths {
    paths: [Option<Path>; MOST_NODES],
}

impl Paths {
    // Nobody is claimed yet.
    pub fn none() -> Paths {
        Paths {
            paths: [None; MOST_NODES],
        }
    }

    pub fn path(&self, p: usize) -> Option<Path> {
        self.paths.get(p).copied().flatten()
    }

    pub fn set_path(&mut self, p: usize, path: Path) {
        if p < MOST_NODES {
            self.paths[p] = Some(path);
        }
    }

    // The root of the cluster that p is in.
    pub fn root(&self, p: usize) -> Option<usize> {
        self.path(p).map(|path| path.root())
    }
}

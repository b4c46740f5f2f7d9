// One action of a byte string: "one byte of kind, then a body whose length the kind fixes", here one or two numbers of nodes.

ghost use Rattle.std.specs.Prelude.{◌≤◌};

use second_plan::answers::Refusal;
use second_plan::sheets::Kind;

// An action of one node p is that of the pair (p, p).
#[derive(Clone, Copy)]
pub(crate) struct Action {
    pub kind: Kind,
    pub p: usize,
    pub q: usize,
}

impl Action {
    // The action that these bytes begin with, or refusal 11 or 12.
    pub fn read(bytes: &[u8]) -> Result<Action, Refusal> {
        let (&number, nodes) = bytes.split_first().ok_or(Refusal::CutAction)?;
        let kind = Kind::try_from(number)?;
        let (p, q) = match nodes {
            [p, q, ..] if kind.is_of_directions() => (*p, *q),
            [p, ..] if !kind.is_of_directions() => (*p, *p),
            _ => return Err(Refusal::CutAction),
        };
        Ok(Action {
            kind,
            p: usize::from(p),
            q: usize::from(q),
        })
    }

    // How many bytes follow its kind.
    pub fn body(self) -> usize
        ensures { result ≤ 2 }
    {
        if self.kind.is_of_directions() { 2 } else { 1 }
    }
}

// Records in a byte string: "one byte of kind, then a body whose length the kind fixes".

ghost use Rattle.std.specs.Prelude.{◌<◌, ◌≤◌};

use crate::answers::Refusal;

// How many bytes a record of each kind has, its kind with it.
pub const END_SIZE: usize = 1;

pub const ROUNDS_SIZE: usize = 3;

pub const NODE_SIZE: usize = 5;

pub const LINK_SIZE: usize = 4;

#[derive(Clone, Copy, Debug, PartialEq, Eq)]
pub enum RecordKind {
    End,
    Rounds,
    Node,
    Link,
}

impl RecordKind {
    // How many bytes follow the kind.
    pub fn body(self) -> usize {
        match self {
            RecordKind::End => END_SIZE - 1,
            RecordKind::Rounds => ROUNDS_SIZE - 1,
            RecordKind::Node => NODE_SIZE - 1,
            RecordKind::Link => LINK_SIZE - 1,
        }
    }

    pub fn number(self) -> u8 {
        self as u8
    }
}

impl TryFrom<u8> for RecordKind {
    type Error = Refusal;

    fn try_from(number: u8) -> Result<RecordKind, Refusal> {
        match number {
            0 => Ok(RecordKind::End),
            1 => Ok(RecordKind::Rounds),
            2 => Ok(RecordKind::Node),
            3 => Ok(RecordKind::Link),
            _ => Err(Refusal::UnknownRecord),
        }
    }
}

// Byte k of the record at `at`, its kind being byte 0; 0 past the end.
pub fn byte(bytes: &[u8], at: usize, k: usize) -> u8 {
    bytes
        .get(at..)
        .and_then(|record| record.get(k))
        .copied()
        .unwrap_or(0)
}

// "Two-byte numbers have the high byte first."
pub(crate) fn two_bytes(high: u8, low: u8) -> usize {
    usize::from(u16::from_be_bytes([high, low]))
}

// Whether the record at `at`, with a body of so many bytes, runs past the end.
pub fn cut_short(bytes: &[u8], at: usize, body: usize) -> bool {
    bytes.len().saturating_sub(at) <= body
}

// Where the next record starts, or the end if that comes first.
pub fn after(at: usize, body: usize, end: usize) -> usize
    ensures { (result ≤ end) × (at < end → at < result) }
{
    if at < end && body < end - at {
        return at + body + 1;
    }
    end
}

// What the programs are given: standard input to its end, and the decimal numbers among their arguments.
#![tactic(auto)]

pub mod failure;

ghost use Rattle.std.specs.Prelude.{◌≡◌, ◌<◌, IfOk, length, take};
ghost use Rattle.std.specs.Counts.{IsPrefixLen};
ghost use Rattle.std.specs.Io.KnownBytes.{Consumes, IsAtEnd};
ghost use Rattle.input.specs.Number.{with_digit, number_of};
ghost use Rattle.input.specs.Read.{count_of};

use std::io;
use std::io::Read;

// A read that failed: how many bytes came before it, and why it failed.
#[derive(Clone, Copy)]
pub struct Stopped {
    pub count: usize,
    pub why: io::Error,
}

// Reads on until the buffer is full, the input ends or a read fails: one read may bring fewer bytes than there are. Of a reader whose bytes are
// known, as one over memory: what the buffer has are its next bytes, and where there is room left and no read failed, these were all. A `while`: where
// the next read goes on is what this one brought.
pub fn read_all<R: Read>(from: &mut R, buffer: &mut [u8]) -> Result<usize, Stopped>
    ensures count { IsPrefixLen (count_of result) buffer.new }
    ensures read { Consumes (R.remaining from.old) (R.remaining from.new) (take (count_of result) buffer.new) }
    ensures whole { IfOk result (λ count. count < length buffer.new → IsAtEnd (R.remaining from.new)) }
{
    let mut have = 0;
    while have < buffer.len() {
        let count = from
            .read(&mut buffer[have..])
            .map_err(|why| Stopped { count: have, why })?;
        if count == 0 {
            break;
        }
        have += count;
    }
    Ok(have)
}

// The first and the last digit.
const ZERO: u8 = b'0';

const NINE: u8 = b'9';

// One digit behind those that said the number before.
fn with_digit(before: usize, byte: u8) -> Option<usize>
    ensures { result ≡ with_digit before byte }
{
    if !(ZERO..=NINE).contains(&byte) {
        return None;
    }
    let tens = before.checked_mul(10)?;
    tens.checked_add(usize::from(byte - ZERO))
}

// Digits and nothing else, one at least, and a number that a usize holds: std's parse takes a plus before them.
pub fn decimal(bytes: &[u8]) -> Option<usize>
    ensures { result ≡ number_of bytes.now }
{
    if bytes.is_empty() {
        return None;
    }
    let mut number = 0;
    for byte in bytes {
        number = with_digit(number, *byte)?;
    }
    Some(number)
}

// The program for the desk: the first argument is a word, and what the word works on stands on standard input. No contract can say what is read or
// written, so all that is judged stands in `commands`; this reads the arguments and the input to its end, calls it and writes.
#![tactic(auto)]

ghost use Rattle.std.specs.Counts.{IsPrefixLen};

use commands::{Word, word_of};
use input::failure::fail;
use input::{decimal, read_all};
use report::{LINE, LONGEST, PAGE};
use std::process::ExitCode;
use std::rt::Env;

// No word is longer, and no number that a usize holds has more digits: a longer argument is none of them.
const LETTERS: usize = 16;

const DIGITS: usize = 20;

// The argument's bytes at the start of the buffer, and how many they are: none, where it is not there or is longer than the buffer. No word and no
// number is empty, so both readers refuse none.
fn argument(rt: HostRuntime, i: usize, buffer: &mut [u8]) -> usize
    ensures { IsPrefixLen result buffer.new }
{
    rt.arg(i, buffer).unwrap_or(0)
}

// What fails says so on standard error, and nothing on standard output is then to be taken for an answer.
fn print(rt: HostRuntime, output: &[u8], errors: &[u8]) -> ExitCode {
    let _ = rt.stderr().write_all(errors);
    match rt.stdout().write_all(output) {
        Ok(()) => ExitCode::SUCCESS,
        Err(why) => fail(&rt, "standard output", &why),
    }
}

// `desk layout DEPTH`. One byte more than the longest input tells one that is too long.
fn layout(rt: HostRuntime) -> ExitCode {
    let mut digits = [0u8; DIGITS];
    let length = argument(rt, 2, &mut digits);
    let Some(depth) = decimal(&digits[..length]) else {
        return print(rt, b"", b"depth: Invalid argument\n");
    };
    let mut buffer = [0u8; LONGEST + 1];
    let count = match read_all(&mut rt.stdin(), &mut buffer) {
        Ok(count) => count,
        Err(stopped) => return fail(&rt, "standard input", &stopped.why),
    };
    let mut output = [0u8; PAGE];
    let mut errors = [0u8; LINE];
    let printed = commands::layout(&buffer[..count], depth, &mut output, &mut errors);
    print(rt, &output[..printed.output], &errors[..printed.errors])
}

// A wrong word, or none, gets the list of words.
fn main(rt: HostRuntime) -> ExitCode {
    let mut letters = [0u8; LETTERS];
    let length = argument(rt, 1, &mut letters);
    match word_of(&letters[..length]) {
        Some(Word::Layout) => layout(rt),
        None => print(rt, b"", b"desk layout DEPTH\n"),
    }
}

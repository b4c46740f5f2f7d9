// What the words of the program `desk` print, a function a word: from the bytes on standard input and the arguments to what goes to standard output
// and to standard error, in two lent buffers.
#![tactic(auto)]

ghost use Rattle.std.specs.Prelude.{◌≡◌};
ghost use Rattle.answers.specs.Numbers.{number_of};
ghost use Rattle.commands.specs.Words.{word_of};
ghost use Rattle.commands.specs.Streams.{Fits, Prints, refused_with, layout_streams};

use answers::{Refusal, Refused};
use report::{LONGEST, PAGE, end_only, whole};

// The words of `desk`.
#[derive(Clone, Copy, Debug, PartialEq, Eq)]
pub enum Word {
    Layout,
}

// The word that an argument is, if it is one.
pub fn word_of(bytes: &[u8]) -> Option<Word>
    ensures { result ≡ word_of bytes.now }
{
    if check::same(bytes, b"layout") {
        Some(Word::Layout)
    } else {
        None
    }
}

// How many bytes go to standard output and how many to standard error: those at the start of the buffers lent for them.
#[derive(Clone, Copy)]
pub struct Printed {
    pub output: usize,
    pub errors: usize,
}

// "Refused": the end line on standard error, and nothing on standard output.
fn refused(why: Refused, output: &mut [u8], errors: &mut [u8]) -> Printed
    ensures prints { Prints (refused_with (number_of why.refusal) why.place) output.old errors.old result output.new errors.new }
    ensures short { Fits 2048 46 (refused_with (number_of why.refusal) why.place) }
{
    Printed {
        output: 0,
        errors: end_only(errors, why.refusal.number(), why.place),
    }
}

// `desk layout DEPTH`: the plan with its clusters laid out, on standard output. A page for it, and a line for a refusal, are long enough.
pub fn layout(bytes: &[u8], depth: usize, output: &mut [u8], errors: &mut [u8]) -> Printed
    ensures prints { Prints (layout_streams bytes.now depth) output.old errors.old result output.new errors.new }
    ensures short { Fits 2048 46 (layout_streams bytes.now depth) }
{
    if LONGEST < bytes.len() {
        let refusal = Refusal::TooLong;
        let place = LONGEST;
        return refused(Refused { refusal, place }, output, errors);
    }
    let mut page = [0u8; PAGE];
    match layout::layout(bytes, depth, &mut page) {
        Ok(written) => Printed {
            output: whole(output, &page[..written]),
            errors: 0,
        },
        Err(why) => refused(why, output, errors),
    }
}

// Text in a lent buffer: bytes, and lines of a word and decimal numbers, from a place on. No call asks for room: what would stand past the
// end of the buffer is left out, and the answer is the place where the writing stopped. Buffer and place
// stay two parameters: the public `word` and `line` have them, and `Put` speaks of both.
#![tactic(auto)]

ghost use Rattle.std.specs.Prelude.{◌≡◌, [], ◌∷◌, ◌+◌, ◌<◌};
ghost use Rattle.text.specs.Lines.{decimal, fields, line as line_of};
ghost use Rattle.text.specs.Put.{Put};

use itoa::Buffer;

const BLANK: u8 = b' ';

const LINE_FEED: u8 = b'\n';

fn byte(out: &mut [u8], at: usize, b: u8) -> usize
    ensures { Put out.old at (b ∷ []) result out.new }
{
    if out.len() <= at {
        return at;
    }
    out[at] = b;
    at + 1
}

// The bytes as they are.
pub fn word(out: &mut [u8], at: usize, bytes: &[u8]) -> usize
    ensures { Put out.old at bytes.now result out.new }
{
    let mut place = at;
    for b in bytes {
        place = byte(out, place, *b);
    }
    place
}

// The number's decimal digits, the first first.
fn number(out: &mut [u8], at: usize, n: u64) -> usize
    ensures { Put out.old at (decimal n) result out.new }
{
    word(out, at, Buffer::new().format(n).as_bytes())
}

// A blank, and the number.
fn field(out: &mut [u8], at: usize, n: u64) -> usize
    ensures { Put out.old at (fields (n ∷ [])) result out.new }
{
    let place = byte(out, at, BLANK);
    number(out, place, n)
}

fn fields_of(out: &mut [u8], at: usize, numbers: &[u64]) -> usize
    ensures { Put out.old at (fields numbers.now) result out.new }
{
    let mut place = at;
    for n in numbers {
        place = field(out, place, *n);
    }
    place
}

// A whole line: the word, each number after a blank, a line feed.
pub fn line(out: &mut [u8], at: usize, name: &[u8], numbers: &[u64]) -> usize
    ensures { Put out.old at (line_of name.now numbers.now) result out.new }
{
    let named = word(out, at, name);
    let filled = fields_of(out, named, numbers);
    byte(out, filled, LINE_FEED)
}

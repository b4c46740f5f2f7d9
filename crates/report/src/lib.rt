// A whole trial: the bytes of a trial file in, document 01's lines out in a lent buffer.
#![tactic(auto)]

mod lines;

ghost use Rattle.std.specs.Prelude.{◌≤◌, ◌≡◌, length};
ghost use Rattle.text.specs.Put.{Put};
ghost use Rattle.report.specs.Lines.{end_line};
ghost use Rattle.report.specs.Report.{list_text, text_of, written_in, filled_by, Printed};

use answers::Refusal;
use lines::{end_line, run_lines};
use records::Plan;
use synchronizer::State;
use text::word;

// The most bytes that a trial file may have.
pub const LONGEST: usize = 65536;

// A buffer of so many bytes has room for every text, and one of so many for every end line.
pub const PAGE: usize = 2048;

pub const LINE: usize = 46;

// The whole text at the buffer's start, and how many bytes it has; or, in a buffer that is too short for the whole text, nothing, and 0.
pub fn whole(out: &mut [u8], bytes: &[u8]) -> usize
    ensures count { result ≡ written_in (length out.old) bytes.now }
    ensures held { out.new ≡ filled_by out.old bytes.now }
{
    if out.len() < bytes.len() {
        return 0;
    }
    word(out, 0, bytes)
}

// The end line by itself, where there is nothing else to print: whole, or not at all.
pub fn end_only(out: &mut [u8], number: u8, place: usize) -> usize
    ensures count { result ≡ written_in (length out.old) (end_line number place) }
    ensures held { out.new ≡ filled_by out.old (end_line number place) }
    ensures at_most { length (end_line number place) ≤ 46 }
{
    let mut line = [0u8; LINE];
    let count = end_line(&mut line, 0, number, place);
    whole(out, &line[..count])
}

// The report of an accepted plan and the actions behind it, on a page.
fn after_plan(page: &mut [u8], bytes: &[u8], plan: &Plan) -> usize
    requires { (plan.now.taken ≤ length bytes.now) × (plan.now.network.nodes ≤ 64) }
    ensures put { Put page.old 0 (list_text bytes.now plan.now.taken plan.now.network) result page.new }
    ensures short { length (list_text bytes.now plan.now.taken plan.now.network) ≤ 2048 }
{
    let begun = State::start(plan.network);
    let ran = begun.state.run(plan.network, &bytes[plan.taken..]);
    run_lines(page, &plan.network, plan.taken, &ran)
}

// The whole text, on a page with room for the longest. "program only: input longer than 65,536 bytes" comes before any look at the plan.
fn write_page(bytes: &[u8], page: &mut [u8]) -> usize
    ensures put { Put page.old 0 (text_of bytes.now) result page.new }
    ensures short { length (text_of bytes.now) ≤ 2048 }
{
    if LONGEST < bytes.len() {
        return end_line(page, 0, Refusal::TooLong.number(), LONGEST);
    }
    match plan::read_plan(bytes) {
        Ok(plan) => after_plan(page, bytes, &plan),
        Err(refused) => end_line(page, 0, refused.refusal.number(), refused.place),
    }
}

// Any bytes, any buffer: the text at the buffer's start, and how many bytes it has; or, in a buffer that is too short for the whole text,
// nothing, and 0.
pub fn trial(bytes: &[u8], out: &mut [u8]) -> usize
    ensures { Printed bytes.now out.old result out.new }
{
    let mut page = [0u8; PAGE];
    let count = write_page(bytes, &mut page);
    whole(out, &page[..count])
}

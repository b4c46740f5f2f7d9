// The bench program: a trial file on standard input, document 01's lines on standard output. No contract can say what is read or written, so
// all that is judged stands in `report`; this reads to the end, calls it and writes.
#![tactic(auto)]

use input::failure::fail;
use input::read_all;
use std::process::ExitCode;

// One byte more than the longest trial tells an input that is too long. What fails says so on standard error, and nothing on standard output
// is then to be taken for an answer.
fn main(rt: HostRuntime) -> ExitCode {
    let mut buffer = [0u8; report::LONGEST + 1];
    let count = match read_all(&mut rt.stdin(), &mut buffer) {
        Ok(count) => count,
        Err(stopped) => return fail(&rt, "standard input", &stopped.why),
    };
    let mut page = [0u8; report::PAGE];
    let written = report::trial(&buffer[..count], &mut page);
    match rt.stdout().write_all(&page[..written]) {
        Ok(()) => ExitCode::SUCCESS,
        Err(why) => fail(&rt, "standard output", &why),
    }
}

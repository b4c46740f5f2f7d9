// What a program says where it cannot read or write.
use std::fmt::InlineText;
use std::io;
use std::process::ExitCode;

// The system's longest message, with its number.
const ROOM: usize = 320;

// What failed and why, on standard error, as `standard input: Is a directory`: the system's words, without the number that std puts behind them.
// Where that cannot be written either, there is nobody left to tell. The program has failed then, and ends with this.
pub fn fail(rt: &impl Eprint, what: &str, why: &io::Error) -> ExitCode {
    let text = InlineText::<ROOM>::of(why);
    let all = text.as_str();
    let words = all
        .split_once(" (os error ")
        .map_or(all, |(words, _)| words);
    let _ = rt.eprintln(format_args!("{what}: {words}"));
    ExitCode::FAILURE
}

// What C and Rust call: a whole trial, and a plan's layout. `teravulk_c` exports both, and `include/teravulk.h` says the promises in words.
#![tactic(auto)]

ghost use Rattle.std.specs.Prelude.{◌≤◌, ◌≡◌, length};
ghost use Rattle.layout.specs.Layout.{layout_of, laid_in};
ghost use Rattle.laws.specs.Lists.{Bytes};
ghost use Rattle.report.specs.Report.{text_of, written_in, filled_by};

// Any bytes, any buffer: the text at the buffer's start, and how many bytes it has; or, in a buffer that is too short for the whole text,
// nothing, and 0.
pub fn teravulk_trial(bytes: &[u8], out: &mut [u8]) -> usize
    ensures count { result ≡ written_in (length out.old) (text_of bytes.now) }
    ensures held { out.new ≡ filled_by out.old (text_of bytes.now) }
    ensures at_most { length (text_of bytes.now) ≤ 2048 }
    ensures small { Bytes bytes.now }
{
    report::trial(bytes, out)
}

// Any bytes, any depth, any buffer: the layout's number, and its place where one is lent. The buffer begins with the plan laid out, or, after a
// refusal, is as it was.
pub fn teravulk_layout(bytes: &[u8], depth: usize, out: &mut [u8], place: &mut usize) -> usize
    ensures number { result ≡ (layout_of bytes.now depth (length out.old)).number }
    ensures place { place.new ≡ (layout_of bytes.now depth (length out.old)).place }
    ensures written { out.new ≡ laid_in bytes.now depth out.old }
    ensures small { Bytes bytes.now }
{
    match layout::layout(bytes, depth, out) {
        Ok(written) => {
            *place = written;
            0
        }
        Err(refused) => {
            *place = refused.place;
            refused.refusal.number() as usize
        }
    }
}

// The static library for C and Rust: the functions of `teravulk` under C names, with their promises. `include/teravulk.h` says these in words.
#![tactic(auto)]

ghost use Rattle.std.specs.Prelude.{◌≤◌, ◌≡◌, length};
ghost use Rattle.layout.specs.Layout.{layout_of, laid_in};
ghost use Rattle.laws.specs.Lists.{Bytes};
ghost use Rattle.report.specs.Report.{text_of, written_in, filled_by};

// Any bytes, any buffer: the text at the buffer's start, and how many bytes it has; or, in a buffer that is too short for the whole text,
// nothing, and 0.
#[unsafe(no_mangle)]
pub extern "C" fn teravulk_trial(bytes: &[u8], out: &mut [u8]) -> usize
    ensures count { result ≡ written_in (length out.old) (text_of bytes.now) }
    ensures held { out.new ≡ filled_by out.old (text_of bytes.now) }
    ensures at_most { length (text_of bytes.now) ≤ 2048 }
    ensures small { Bytes bytes.now }
{
    teravulk::teravulk_trial(bytes, out)
}

// Any bytes, any depth, any buffer: the layout's number, and its place where one is lent. The buffer begins with the plan laid out, or, after a
// refusal, is as it was.
#[unsafe(no_mangle)]
pub extern "C" fn teravulk_layout(
    bytes: &[u8],
    depth: usize,
    out: &mut [u8],
    place: &mut usize,
) -> usize
    ensures number { result ≡ (layout_of bytes.now depth (length out.old)).number }
    ensures place { place.new ≡ (layout_of bytes.now depth (length out.old)).place }
    ensures written { out.new ≡ laid_in bytes.now depth out.old }
    ensures small { Bytes bytes.now }
{
    teravulk::teravulk_layout(bytes, depth, out, place)
}

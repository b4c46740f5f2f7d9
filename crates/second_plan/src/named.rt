// The rows, the sheets and the clauses have numbers, and a call that takes one of them takes its number as well.

ghost use Rattle.std.specs.Prelude.{◌≡◌, ◌<◌, ◌≤◌, ◌+◌, length, IsSome, None};

// What a row, a sheet or a clause is called by: itself, or its number.
pub trait Names<T> {
    // What is called so, if anything is.
    fn named(self) -> Option<T>;
}

impl<T> Names<T> for T {
    fn named(self) -> Option<T> {
        Some(self)
    }
}

// What has a number in a list whose numbers start with `first`.
pub fn numbered<T: Copy>(all: &[T], first: usize, number: usize) -> Option<T>
    ensures there { first ≤ number → number < first + length all.now → IsSome result }
    ensures none_below { number < first → result ≡ None }
    ensures none { first + length all.now ≤ number → result ≡ None }
{
    let i = number.checked_sub(first)?;
    all.get(i).copied()
}

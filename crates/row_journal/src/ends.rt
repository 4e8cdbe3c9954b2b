//! How many of their last bytes two values have alike.

ghost use Rattle.std.specs.Prelude.{◌≡◌, ◌≤◌, length};
ghost use Rattle.row_journal.specs.Spelling as spec;

/// So many last bytes, or more, are spelled once.
pub(crate) const LEAST_END: usize = 256;

/// How many of their last bytes the two have alike.
pub(crate) fn common_end(xs: &[u8], ys: &[u8]) -> usize
    ensures is { result ≡ spec.common_end xs.now ys.now }
    ensures within { (result ≤ length xs.now) × (result ≤ length ys.now) }
{
    let most = xs.len().min(ys.len());
    for n in 0..most {
        if xs[xs.len() - 1 - n] != ys[ys.len() - 1 - n] {
            return n;
        }
    }
    most
}

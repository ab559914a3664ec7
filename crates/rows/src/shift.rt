// A row over the whole set shifted down: each sequence's bits, so that what stands some places on stands here.
ghost use Rattle.std.specs.Prelude.{true, length};
ghost use Rattle.rows.specs.Set.{shifted_at, Filled};

use super::WORDS;
use super::layout::Layout;
use super::words::{self, Shift};

// The words of every sequence shifted down, each within its own. What is in the place of the marks stays.
pub fn shift_all(layout: &Layout, by: Shift, row: &[u64; WORDS], out: &mut [u64; WORDS])
    ensures filled { Filled (λ _. true) (shifted_at by.places layout.now.lengths.now row.now) layout.now.lengths.now out.new (length layout.now.lengths.now) }
{
    for k in 0..layout.lengths.len() {
        let (from, to) = layout.words(k);
        words::shift_down(&row[from..to], by, &mut out[from..to]);
    }
}

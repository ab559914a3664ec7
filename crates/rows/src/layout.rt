// Where the words of each sequence of a set lie in a row.
ghost use Rattle.std.specs.Prelude.{true, ◌≡◌, ℕ, ◌+◌, ◌≤◌, ◌<◌, length, get_or};
ghost use Rattle.rules.specs.Limits.{sequence_set_sequences};
ghost use Rattle.rows.specs.Set.{words_of, first_word, Firsts};

use super::WORDS;

// The lengths of a set's sequences, and where the words of each begin, and those of all end, in a row: within its first `N` words. In a
// short set each has one word.
#[derive(Clone, Copy)]
pub struct Spans<'a, const N: usize> {
    pub lengths: &'a [u32],
    pub firsts: &'a [u32],
    pub short: bool,
    pub ghost few: { length lengths.now ≤ sequence_set_sequences },
    pub ghost laid: { Firsts lengths.now firsts.now },
    pub ghost inside: { first_word lengths.now (length lengths.now) ≤ N },
    pub ghost ones: { short ≡ true → (k : ℕ) → k < length lengths.now → words_of (get_or lengths.now k 0) ≡ 1 },
}

// Those of a set that a row of `WORDS` words has room for, as it has for every set that may be searched.
pub type Layout<'a> = Spans<'a, WORDS>;

// Those of any set whose table of `firsts` can be written, over rows of any length that has room: no row has more words than this.
pub type AnyLayout<'a> = Spans<'a, { usize::MAX }>;

impl<'a> AnyLayout<'a> {
    // Makes one of its parts. That its words end in a row at all is not asked: where they end stands in `firsts`, in 32 bits.
    pub fn new(lengths: &'a [u32], firsts: &'a [u32], short: bool) -> AnyLayout<'a>
        requires few { length lengths.now ≤ sequence_set_sequences }
        requires laid { Firsts lengths.now firsts.now }
        requires ones { short ≡ true → (k : ℕ) → k < length lengths.now → words_of (get_or lengths.now k 0) ≡ 1 }
        ensures { (result.lengths.now ≡ lengths.now) × (result.firsts.now ≡ firsts.now) × (result.short ≡ short) }
    {
        AnyLayout {
            lengths,
            firsts,
            short,
        }
    }
}

impl<'a, const N: usize> Spans<'a, N> {
    // Where the words of sequence `k` begin in a row, and where they end.
    pub fn words(&self, k: usize) -> (usize, usize)
        requires { k < length self.now.lengths.now }
        ensures place { (result.0 ≡ first_word self.now.lengths.now k) × (result.1 ≡ first_word self.now.lengths.now (k + 1)) }
        ensures inside { (result.0 ≤ result.1) × (result.1 ≤ first_word self.now.lengths.now (length self.now.lengths.now)) }
    {
        (self.firsts[k] as usize, self.firsts[k + 1] as usize)
    }
}

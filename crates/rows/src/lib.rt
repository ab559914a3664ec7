// Rows of bits: for each place of each sequence one bit, 64 to a word, the first in the lowest. An inner crate: what its functions
// ask for, every caller is proved to meet.
#![tactic(auto)]

pub mod counts;
pub mod gap;
pub mod layout;
pub mod set;
pub mod set_bits;
pub mod shift;
pub mod words;

use rules::SequenceSet;

// The bits of a word, and the words of marks, one bit for each sequence that there may be.
pub const BITS: usize = 64;

pub const MARKS: usize = SequenceSet::SEQUENCES / BITS;

// Words that are left unused behind each row. Tables of rows that all are as long as a power of two would have the same word of each of
// them in the same few lines of a processor's cache, which then holds too few of them at a time.
pub const UNUSED: usize = 24;

// The words of a row: its marks, then each sequence's own, whole words, and those that are left unused.
pub const WORDS: usize = MARKS
    + (SequenceSet::LETTERS + (BITS - 1) * SequenceSet::SEQUENCES) / BITS
    + UNUSED;

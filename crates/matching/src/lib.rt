// One candidate after another over the set of sequences: the rows of the path to it, its support, and a motif's weighted support. An
// inner crate: what its functions ask for, every caller is proved to meet.
#![tactic(auto)]

mod letters;
pub mod made;
pub mod path;
pub mod tables;
#[cfg(test)]
mod tests;
pub mod weights;

use rules::{Letter, SequenceSet, Template};

// The words of a row.
pub use rows::WORDS;

// How long the tables are that a caller lends: a place for each letter of a motif; where each sequence's words begin, and where the last
// one's end; where its letters begin; from one to SHIFTS rows for each letter; and a slot for each prefix of a path, which has a row.
pub const LETTERS: usize = Template::LETTERS as usize;

pub const FIRSTS: usize = SequenceSet::SEQUENCES + 1;

pub const OFFSETS: usize = SequenceSet::SEQUENCES + 1;

// A row for each of the four letters of a sequence, and one for each digit of a mixed motif's number.
pub const BASES: usize = Letter::BASES as usize;

pub const DIGITS: usize = Letter::DIGITS as usize;

// A letter's row is kept shifted for each of the first places of a component: a candidate that ends there costs one AND for each word.
// For a later place it is shifted as it is used, which costs about as much again. They are kept for as many places as the table that is
// lent has room for, at least one: in a leg of an exact search for the first four, as more of them would not fit the stack that a call
// may use, and of a mixed one, whose digits take up a row each of the same sixteen, for the first.
pub const SHIFTS: usize = 4;

pub const STANDING: usize = SHIFTS * BASES;

pub const SLOTS: usize = LETTERS;

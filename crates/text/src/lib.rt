// The printing program's text: what its input says, and the bytes that it prints. An inner crate: the program hands over its
// input as one slice, and writes out what stands at the front of a buffer. The FASTA reader, too, finds where its lines end
// by what is here (`find`).
#![tactic(auto)]

mod parse;
pub mod pieces;
pub mod print;
pub mod read;

// Reading: what the whole input says, and what is wrong with it.
ghost use Rattle.std.specs.Prelude.{not, [], ◌≡◌, suc, ◌+◌, ◌-◌, ◌≤◌, length, get_or, drop};
ghost use Rattle.rules.specs.Limits.{text_bytes, text_quorum_digits};
ghost use Rattle.rules.specs.Lists.{put, has_some};
ghost use Rattle.rules.specs.Refusals.{◌else◌, first};
ghost use Rattle.rules.specs.Text.{is_well_formed, lines, nth_line, unended, refuse_line, text_checks, parse_components, parse_number, parse_template, parse_quorum, parse_letters, parse_lengths};
ghost use Rattle.rules.specs.Told.{fine, told_checked};
ghost use Rattle.text.specs.Printed.{Wrote};

use super::parse::{parse_number, parse_template};
use super::pieces::split_once;
use rules::{Refusal, Template, Text};

// The first line of a text, and what follows it; both are empty where no line has its end.
fn first_line(text: &[u8]) -> (&[u8], &[u8])
    ensures line { result.0.now ≡ get_or (lines text.now) 0 [] }
    ensures rest { lines result.1.now ≡ drop 1 (lines text.now) }
    ensures short { length result.0.now + length result.1.now ≤ length text.now }
{
    match split_once(b'\n', text) {
        Some(halves) => halves,
        None => (&[], &[]),
    }
}

// What an input says: its first two lines, and the text of the others. A line that is not there is empty.
#[derive(Clone, Copy)]
struct Parts<'a> {
    template: &'a [u8],
    quorum: &'a [u8],
    sequences: &'a [u8],
}

fn cut(input: &[u8]) -> Parts<'_>
    ensures template { result.template.now ≡ nth_line input.now 1 }
    ensures quorum { result.quorum.now ≡ nth_line input.now 2 }
    ensures sequences { lines result.sequences.now ≡ drop 2 (lines input.now) }
    ensures short { (length result.template.now ≤ length input.now) × (length result.sequences.now ≤ length input.now) }
{
    let (template, rest) = first_line(input);
    let (quorum, sequences) = first_line(rest);
    Parts {
        template,
        quorum,
        sequences,
    }
}

// The first line is a template's.
fn check_template(input: &[u8]) -> Result<(), Refusal>
    requires { length input.now ≤ text_bytes }
    ensures { told_checked result ≡ refuse_line (not (is_well_formed (parse_components (nth_line input.now 1)))) 1 }
{
    let malformed = parse_template(cut(input).template).is_none();
    Refusal::TextLine(1).when(malformed)
}

// The second line is a number.
fn check_quorum(input: &[u8]) -> Result<(), Refusal>
    ensures { told_checked result ≡ refuse_line (not (is_well_formed (parse_number text_quorum_digits (nth_line input.now 2)))) 2 }
{
    let malformed = parse_number(Text::QUORUM_DIGITS, cut(input).quorum).is_none();
    Refusal::TextLine(2).when(malformed)
}

// The last line has its end.
fn check_end(input: &[u8]) -> Result<(), Refusal>
    ensures { told_checked result ≡ refuse_line (has_some (unended input.now)) (suc (length (lines input.now))) }
{
    let mut line = 1;
    let mut rest = input;
    // From line to line, as long as one ends; the lines are counted beside it.
    while let Some((_, others)) = split_once(b'\n', rest) {
        line += 1;
        rest = others;
    }
    Refusal::TextLine(line).when(!rest.is_empty())
}

// What is wrong with the text of the input, the lowest line first: too long, the first line, the second, a last line without
// its end.
#[tactic(auto, using(rules::proofs::Verdicts::in_turn, crate::proofs::Lines::text_order))]
pub fn check_text(input: &[u8]) -> Result<(), Refusal>
    ensures { told_checked result ≡ first (text_checks input.now) }
{
    if Text::BYTES < input.len() {
        return Err(Refusal::TextLine(0));
    }
    check_template(input)?;
    check_quorum(input)?;
    check_end(input)
}

// The template that a sound input says.
pub fn read_template(input: &[u8]) -> Template
    requires { first (text_checks input.now) ≡ fine }
    ensures { result ≡ parse_template input.now }
{
    parse_template(cut(input).template).unwrap()
}

// The quorum that an input says.
pub fn read_quorum(input: &[u8]) -> u64
    ensures { result ≡ parse_quorum input.now }
{
    parse_number(Text::QUORUM_DIGITS, cut(input).quorum).unwrap_or(0)
}

// How many sequences were read, and how many letters.
#[derive(Clone, Copy)]
pub struct SequencesRead {
    pub sequences: usize,
    pub letters: usize,
}

// Writes a text to a table from a place on, and answers the place after it.
pub(crate) fn copy_part(text: &[u8], at: usize, to: &mut [u8]) -> usize
    requires { at + length text.now ≤ length to.old }
    ensures { Wrote at text.now to.old to.new result }
{
    let end = at + text.len();
    to[at..end].copy_from_slice(text);
    end
}

// Writes the letters of the sequence lines, joined, to the front of one table, and the lengths of the lines to the front of
// another; what lies past them stays. The tables have a place for each byte of the input, so that the number of sequences is
// refused where it is checked and not here.
pub fn read_sequences(input: &[u8], letters: &mut [u8], lengths: &mut [u32]) -> SequencesRead
    requires { (first (text_checks input.now) ≡ fine) × (length input.now ≤ length letters.old) × (length input.now ≤ length lengths.old) }
    ensures sequences_value { (result.sequences ≡ length (parse_lengths input.now)) × (result.letters ≡ length (parse_letters input.now)) }
    ensures sequences_in_bounds { (result.sequences ≤ length input.now) × (result.letters ≤ length input.now) }
    ensures letters_after { letters.new ≡ put (parse_letters input.now) letters.old }
    ensures lengths_after { lengths.new ≡ put (parse_lengths input.now) lengths.old }
{
    let mut read = SequencesRead {
        sequences: 0,
        letters: 0,
    };
    let mut rest = cut(input).sequences;
    // From line to line, as above.
    while let Some((line, others)) = split_once(b'\n', rest) {
        read.letters = copy_part(line, read.letters, letters);
        lengths[read.sequences] = line.len() as u32;
        read.sequences += 1;
        rest = others;
    }
    read
}

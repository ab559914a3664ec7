// What an input says, begun as a search.
ghost use Rattle.std.specs.Prelude.{◌≡◌, ◌≤◌, take};
ghost use Rattle.rules.specs.Limits.{text_bytes};
ghost use Rattle.rules.specs.Refusals.{first};
ghost use Rattle.rules.specs.Text.{text_checks};
ghost use Rattle.rules.specs.Told.{fine, told_answer};
ghost use Rattle.motifs.specs.Input.{input_rule};

use rules::{Offset, Refusal, Search, SequenceSet, Sequences, Text};
use text::read::{SequencesRead, check_text, read_quorum, read_sequences, read_template};

// The search or the refusal, and how many letters and sequences were read.
#[derive(Clone, Copy)]
pub struct Input {
    pub begun: Result<Search, Refusal>,
    pub read: SequencesRead,
}

// The letters of an input's sequences, and the length of each: an input has at most so many of both.
#[derive(Drop)]
pub struct Tables {
    pub letters: [u8; Text::BYTES],
    pub lengths: [u32; Text::BYTES],
}

impl Tables {
    // The sequences that were read, at the fronts of the tables.
    pub fn front(&self, read: SequencesRead) -> Sequences<'_>
        requires { (read.letters ≤ text_bytes) × (read.sequences ≤ text_bytes) }
        ensures letters { result.letters.now ≡ take read.letters self.now.letters }
        ensures lengths { result.lengths.now ≡ take read.sequences self.now.lengths }
    {
        Sequences {
            letters: SequenceSet::part(&self.letters, Offset(0), Offset(read.letters)),
            lengths: &self.lengths[..read.sequences],
        }
    }
}

// A new search over the sequences of a sound input, which go to the front of two tables.
fn begin(input: &[u8], tables: &mut Tables) -> Input
    requires { first (text_checks input.now) ≡ fine }
    ensures begun_value { told_answer result.begun ≡ (input_rule input.now tables.old.letters tables.old.lengths).told }
    ensures letters_value { (result.read.letters ≡ (input_rule input.now tables.old.letters tables.old.lengths).count) × (result.read.sequences ≡ (input_rule input.now tables.old.letters tables.old.lengths).sequences) }
    ensures letters_after { tables.new.letters ≡ (input_rule input.now tables.old.letters tables.old.lengths).letters }
    ensures fits { (result.read.letters ≤ text_bytes) × (result.read.sequences ≤ text_bytes) }
    ensures lengths_after { tables.new.lengths ≡ (input_rule input.now tables.old.letters tables.old.lengths).lengths }
{
    let template = read_template(input);
    let quorum = read_quorum(input);
    let read = read_sequences(input, &mut tables.letters, &mut tables.lengths);
    let begun = search::begin(&tables.front(read), template, quorum);
    Input { begun, read }
}

// What comes of an input: a refusal of its text, or a new search over what it says. The letters of its sequences go to the
// front of one table and their lengths to the front of another; a refused text leaves both.
pub fn read(input: &[u8], tables: &mut Tables) -> Input
    ensures begun_value { told_answer result.begun ≡ (input_rule input.now tables.old.letters tables.old.lengths).told }
    ensures letters_value { (result.read.letters ≡ (input_rule input.now tables.old.letters tables.old.lengths).count) × (result.read.sequences ≡ (input_rule input.now tables.old.letters tables.old.lengths).sequences) }
    ensures letters_after { tables.new.letters ≡ (input_rule input.now tables.old.letters tables.old.lengths).letters }
    ensures fits { (result.read.letters ≤ text_bytes) × (result.read.sequences ≤ text_bytes) }
    ensures lengths_after { tables.new.lengths ≡ (input_rule input.now tables.old.letters tables.old.lengths).lengths }
{
    match check_text(input) {
        Ok(()) => begin(input, tables),
        Err(why) => Input {
            begun: Err(why),
            read: SequencesRead {
                sequences: 0,
                letters: 0,
            },
        },
    }
}

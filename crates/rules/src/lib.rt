// The paper's types, with their limits and constructors. An inner crate: what it defines stands in specs/, and the laws
// about that in proofs/.
#![tactic(auto)]

mod alphabet;
mod kinds;
mod layout;
mod refusals;
mod shape;

ghost use Rattle.std.specs.Prelude.{◌≡◌};
ghost use Rattle.rules.specs.Sound.{SoundTemplate};
ghost use Rattle.rules.specs.Limits.{letter_bases, letter_bits, letter_symbols, letter_digits, letter_mark, profile_exact, profile_mixed, template_components, template_length, template_letters, template_mixed, template_gap, sequence_set_sequences, sequence_set_letters, record_bytes, record_size, record_component, record_place, record_extra, text_bytes, text_gap_digits, text_quorum_digits, fasta_bytes, fasta_length};

// The three countings, each a type of its own, so that none can be taken for another.
// A sequence's number in the set, from 1.
#[derive(Clone, Copy)]
pub struct SequenceNumber(pub usize);
// A position in a sequence, from 1 and afresh in each.
#[derive(Clone, Copy)]
pub struct Position(pub usize);
// An offset in the whole buffer of letters, from 0.
#[derive(Clone, Copy)]
pub struct Offset(pub usize);

// An offset in a FASTA file, from 0: a counting beside those three, since a file holds more than its letters.
#[derive(Clone, Copy)]
pub struct FileOffset(pub usize);

// A record's number in a save, from 0: the size record is record 0, a component's has the component's number, and the place record
// comes after them.
#[derive(Clone, Copy)]
pub struct RecordNumber(pub u32);

// The letters A, C, G, T of a sequence: how many there are, the bits that a value takes, and the mark that every other byte has for a
// value. And those of a motif: the same, or in a mixed search fourteen, each of which stands for some of the four.
#[derive(Clone, Copy)]
pub struct Letter {}

// The kind of search that a template asks for: over the letters A, C, G, T, or over mixed ones.
#[derive(Clone, Copy)]
pub enum Profile {
    Exact,
    Mixed,
}

// The error of a number that is no kind of search's.
#[derive(Clone, Copy)]
pub struct UnknownProfile;

// A component of a template: its length, the gap range before it, and in a mixed search how many of its letters may stand for several
// bases. An exact search does not read that.
#[derive(Clone, Copy)]
pub struct Component {
    pub length: u16,
    pub low: u16,
    pub high: u16,
    pub allowance: u16,
}

// How far the start of a component may lie from that of the one before it: the least distance, and how many there are from that on.
#[derive(Clone, Copy)]
pub struct Distances {
    pub near: usize,
    pub count: usize,
}

// A template: the kind of search, how many components there are, and a slot for each that there may be. The slots are fields, and no
// array: the laws range over all values of this type (`Demand2.recovery` and its like), and of an array each would have to suppose that
// it has six.
#[derive(Clone, Copy)]
pub struct Template {
    pub profile: Profile,
    pub count: u16,
    pub c1: Component,
    pub c2: Component,
    pub c3: Component,
    pub c4: Component,
    pub c5: Component,
    pub c6: Component,
}

// The sequences as they are lent: their letters in one buffer, those of one sequence behind those of another, and each one's length.
#[derive(Clone, Copy)]
pub struct Sequences<'a> {
    pub letters: &'a [u8],
    pub lengths: &'a [u32],
}

// The size of the set of sequences that a search is over.
#[derive(Clone, Copy)]
pub struct SequenceSet {
    pub sequences: u32,
    pub letters: u32,
}

// Where a search stands: the letters of its next candidate and its number. An ended search stands at 0, 0.
#[derive(Clone, Copy)]
pub struct Place {
    pub letters: u8,
    pub number: u64,
}

// A motif of a sound template, by its number.
#[derive(Clone, Copy)]
pub struct Motif {
    pub template: Template,
    pub number: u64,
    pub ghost sound: { SoundTemplate template },
}

// A search: what it is over, and where it stands.
#[derive(Clone, Copy)]
pub struct Search {
    pub template: Template,
    pub quorum: u64,
    pub set: SequenceSet,
    pub place: Place,
}

// A record of a saved search.
#[derive(Clone, Copy)]
pub struct Record {
    pub bytes: [u8; Record::BYTES],
}

// The printing program's input: its most bytes, and the most digits of a number in a gap range and of the quorum.
#[derive(Clone, Copy)]
pub struct Text {}

impl Text {
    pub const BYTES: usize = 60000;

    pub const GAP_DIGITS: usize = 3;

    pub const QUORUM_DIGITS: usize = 5;
}

// A FASTA file: the most bytes of one that the program `lines` holds, and the most letters of a record, which a row of the lengths
// table can hold.
#[derive(Clone, Copy)]
pub struct Fasta {}

impl Fasta {
    pub const BYTES: usize = 1048576;

    pub const LENGTH: usize = 4294967295;
}

// Why a call refuses, one name for each number from 1 to 18 and 21 to 24, with the place where one is told.
#[derive(Clone, Copy)]
pub enum Refusal {
    SequenceCount,
    LetterCount,
    LengthSum,
    NotALetter(Offset),
    ComponentCount,
    ComponentLength(u8),
    MotifLength,
    GapRange(u8),
    Quorum,
    SavedSize,
    SavedKind(RecordNumber),
    OtherSet,
    NotACandidate,
    MotifNumber,
    FirstRow,
    JoinList,
    Room,
    TextLine(usize),
    SavedBlank(RecordNumber),
    SavedSum,
    PlaceRule(RecordNumber),
    Allowance,
}

// Why a leg stopped: no candidate was left, the budget was used, or there was a motif and no room for it.
#[derive(Clone, Copy)]
pub enum Stop {
    Ended,
    Spent,
    Full,
}

// What a leg answers: why it stopped, or what it was refused with; its steps, its rows, and the search at its new place. A refused leg
// took no step, wrote no row, and hands the search back as it was given.
#[derive(Clone, Copy)]
pub struct Leg {
    pub answer: Result<Stop, Refusal>,
    pub steps: u64,
    pub rows: usize,
    pub search: Search,
}

// What a recovery answers: the rows written, and the length of the whole list.
#[derive(Clone, Copy)]
pub struct Recovered {
    pub rows: usize,
    pub length: u64,
}

// A record's name, as a part of its file: from one offset up to another.
#[derive(Clone, Copy)]
pub struct Name {
    pub start: FileOffset,
    pub end: FileOffset,
}

// Why the FASTA reader refuses: text before the first record, no room for the next one, or a byte that is no letter, with its
// place in the file.
#[derive(Clone, Copy)]
pub enum FileRefusal {
    TextBefore,
    NoRoom,
    NotALetter(FileOffset),
}

// A record of a FASTA file, as the reader hands it out: its name, and how many letters it has.
#[derive(Clone, Copy)]
pub struct FastaRecord {
    pub name: Name,
    pub letters: usize,
}

// Each limit in the code is the definition of the same name.
pub fn limits()
    ensures letter_bases { Letter.BASES ≡ letter_bases }
    ensures letter_bits { Letter.BITS ≡ letter_bits }
    ensures letter_symbols { Letter.SYMBOLS ≡ letter_symbols }
    ensures letter_digits { Letter.DIGITS ≡ letter_digits }
    ensures letter_mark { Letter.MARK ≡ letter_mark }
    ensures profile_exact { Profile.EXACT ≡ profile_exact }
    ensures profile_mixed { Profile.MIXED ≡ profile_mixed }
    ensures template_components { Template.COMPONENTS ≡ template_components }
    ensures template_length { Template.LENGTH ≡ template_length }
    ensures template_letters { Template.LETTERS ≡ template_letters }
    ensures template_mixed { Template.MIXED ≡ template_mixed }
    ensures template_gap { Template.GAP ≡ template_gap }
    ensures sequence_set_sequences { SequenceSet.SEQUENCES ≡ sequence_set_sequences }
    ensures sequence_set_letters { SequenceSet.LETTERS ≡ sequence_set_letters }
    ensures record_bytes { Record.BYTES ≡ record_bytes }
    ensures record_size { Record.SIZE ≡ record_size }
    ensures record_component { Record.COMPONENT ≡ record_component }
    ensures record_place { Record.PLACE ≡ record_place }
    ensures record_extra { Record.EXTRA ≡ record_extra }
    ensures text_bytes { Text.BYTES ≡ text_bytes }
    ensures text_gap_digits { Text.GAP_DIGITS ≡ text_gap_digits }
    ensures text_quorum_digits { Text.QUORUM_DIGITS ≡ text_quorum_digits }
    ensures fasta_bytes { Fasta.BYTES ≡ fasta_bytes }
    ensures fasta_length { Fasta.LENGTH ≡ fasta_length }
{}

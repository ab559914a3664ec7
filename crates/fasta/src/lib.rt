// FASTA: a reader over a lent file, which hands out one record after another. It holds the file and a cursor.
#![tactic(auto)]

mod lines;
mod record;

ghost use Rattle.std.specs.Prelude.{◌≡◌};
ghost use Rattle.rules.specs.Fasta.{reader_rule};
ghost use Rattle.rules.specs.Told.{told_handed};
ghost use Rattle.fasta.specs.Scanned.{file_part, HeaderAt, leaves};

use lines::{Line, first_line};
use record::{copy_body, measure, name_length, no_room};
use rules::{FastaRecord, FileOffset, FileRefusal, Name};

// A reader: the file, and the cursor, an offset in it.
#[derive(Clone, Copy)]
pub struct Reader<'a> {
    pub file: &'a [u8],
    pub at: usize,
}

impl<'a> Reader<'a> {
    // A reader that stands at a file's first byte.
    pub fn new(file: &'a [u8]) -> Reader<'a>
        ensures { (result.file ≡ file.entry) × (result.at ≡ 0) }
    {
        Reader { file, at: 0 }
    }

    // THE NEXT RECORD: the reader moves on past it. Its letters go to `letters`, behind the `used` that it holds, and their number to
    // `lengths`, behind its `count` rows. A call that hands out none writes nothing, and the reader stays where it stood.
    //
    // `used` and `count` stay numbers beside the whole tables, of which `reader_rule` speaks: the C interface passes them so, and a
    // `used` past the buffer's end is refused (20), which no slice of the rest could show.
    #[tactic(auto, using(crate::proofs::Handing::rule_end, crate::proofs::Handing::rule_text))]
    pub fn next(
        &mut self,
        letters: &mut [u8],
        used: usize,
        lengths: &mut [u32],
        count: usize,
    ) -> Result<Option<FastaRecord>, FileRefusal>
        ensures file_unchanged { self.new.file ≡ self.old.file }
        ensures result_value { told_handed result ≡ (reader_rule self.old.file.now self.old.at letters.old used lengths.old count).told }
        ensures at_after { self.new.at ≡ (reader_rule self.old.file.now self.old.at letters.old used lengths.old count).at }
        ensures letters_after { letters.new ≡ (reader_rule self.old.file.now self.old.at letters.old used lengths.old count).letters }
        ensures lengths_after { lengths.new ≡ (reader_rule self.old.file.now self.old.at letters.old used lengths.old count).lengths }
    {
        let Some(header) = first_line(self.file, self.at) else {
            return Ok(None);
        };
        if header.text[0] != b'>' {
            return Err(FileRefusal::TextBefore);
        }
        self.hand_out(header, letters, used, lengths, count)
    }

    // Hands out the record whose header is a line, or refuses it.
    #[tactic(auto, using(crate::proofs::Names::name_fits))]
    fn hand_out(
        &mut self,
        header: Line,
        letters: &mut [u8],
        used: usize,
        lengths: &mut [u32],
        count: usize,
    ) -> Result<Option<FastaRecord>, FileRefusal>
        requires { HeaderAt self.old.file.now self.old.at header.start header.text.now header.next }
        ensures file_unchanged { self.new.file ≡ self.old.file }
        ensures rule { reader_rule self.old.file.now self.old.at letters.old used lengths.old count ≡ leaves (told_handed result) self.new.at letters.new lengths.new }
    {
        let body = measure(self.file, header.next);
        if no_room(letters, used, lengths, count, body.size) {
            return Err(FileRefusal::NoRoom);
        }
        if let Some(bad) = body.bad {
            return Err(FileRefusal::NotALetter(bad));
        }
        copy_body(self.file, header.next, &mut letters[used..]);
        lengths[count] = body.size as u32;
        self.at = body.next;
        let start = header.start + 1;
        let end = start + name_length(&header.text[1..]);
        Ok(Some(FastaRecord {
            name: Name {
                start: FileOffset(start),
                end: FileOffset(end),
            },
            letters: body.size,
        }))
    }

    // A record's name, as a part of the reader's file; what lies past the file is no part of it.
    pub fn name(&self, name: Name) -> &'a [u8]
        ensures { result.now ≡ file_part self.now.file.now name.start.0 name.end.0 }
    {
        let end = name.end.0.min(self.file.len());
        let start = name.start.0.min(end);
        &self.file[start..end]
    }
}

// What a call of the reader hands out, and where the reader stands then.
#[derive(Clone, Copy)]
pub struct Step {
    pub handed: Result<Option<FastaRecord>, FileRefusal>,
    pub at: usize,
}

// THE NEXT RECORD of a file from a cursor on: what a reader hands out that stands there, and where it stands then.
pub fn next_at(
    file: &[u8],
    at: usize,
    letters: &mut [u8],
    used: usize,
    lengths: &mut [u32],
    count: usize,
) -> Step
    ensures handed_value { told_handed result.handed ≡ (reader_rule file.now at letters.old used lengths.old count).told }
    ensures at_value { result.at ≡ (reader_rule file.now at letters.old used lengths.old count).at }
    ensures letters_after { letters.new ≡ (reader_rule file.now at letters.old used lengths.old count).letters }
    ensures lengths_after { lengths.new ≡ (reader_rule file.now at letters.old used lengths.old count).lengths }
{
    let mut reader = Reader { file, at };
    let handed = reader.next(letters, used, lengths, count);
    Step {
        handed,
        at: reader.at,
    }
}

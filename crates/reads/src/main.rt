// Runs the FASTA reader: files that stand here are read record by record. What each call hands out is printed, a record's name and
// letters, the end or a refusal, and then what the table and the buffer hold.
#![tactic(auto)]

ghost use Rattle.std.specs.Prelude.{◌≤◌, length};

use fasta::Reader;
use rules::{FastaRecord, FileRefusal, Offset, SequenceSet};

fn text(rt: &impl Print, what: &[u8]) {
    let _ = rt.write_all(what);
}

// A number, after a space.
fn number(rt: &impl Print, n: u64) {
    text(rt, b" ");
    let _ = rt.print(n);
}

// A refusal: its number and its place.
fn refused(rt: &impl Print, why: FileRefusal) {
    text(rt, b"refused");
    number(rt, why.number());
    number(rt, why.place());
    text(rt, b"\n");
}

// What a call handed out: of a record its name, its letters, which stand behind the `used` of a buffer, and how many they are. It
// answers how much of the buffer is used then.
fn tell(
    rt: &impl Print,
    reader: &Reader,
    handed: Result<Option<FastaRecord>, FileRefusal>,
    letters: &[u8],
    used: usize,
) -> usize
    requires { used ≤ length letters.now }
    ensures { result ≤ length letters.now }
{
    match handed {
        Ok(Some(record)) => {
            // No further than the buffer goes.
            let end = used + record.letters.min(letters.len() - used);
            text(rt, reader.name(record.name));
            text(rt, b" [");
            text(rt, SequenceSet::part(letters, Offset(used), Offset(end)));
            text(rt, b"]");
            number(rt, record.letters as u64);
            text(rt, b"\n");
            end
        }
        Ok(None) => {
            text(rt, b"end\n");
            used
        }
        Err(why) => {
            refused(rt, why);
            used
        }
    }
}

// All of a table, on one line.
fn rows(rt: &impl Print, table: &[u32]) {
    text(rt, b"lengths");
    for length in table {
        number(rt, u64::from(*length));
    }
    text(rt, b"\n");
}

// Reads a file by so many calls, and tells what each handed out.
fn read(rt: &impl Print, file: &[u8], calls: usize) {
    let mut reader = Reader::new(file);
    let mut letters = [b'.'; 16];
    let mut lengths = [9u32; 4];
    let mut used: usize = 0;
    for count in 0..calls {
        let handed = reader.next(&mut letters, used, &mut lengths, count);
        used = tell(rt, &reader, handed, &letters, used);
    }
    rows(rt, &lengths);
    text(rt, b"letters ");
    text(rt, &letters);
    text(rt, b"\n");
}

fn main(rt: HostRuntime) {
    // Lines with and without byte 13, a tab and a space behind a name, a record with no letters, empty lines, and no byte 10 at the end.
    read(
        &rt,
        b">one\tthe first\r\nACGT\r\nAC\r\n\r\n>two\r\n>three and more\n\nGG\nTT\n>four\nA",
        5,
    );
    // Text before the first record.
    read(&rt, b"AC\n>one\nA\n", 1);
    // A byte that is no letter, at offset 15: the reader stays, and nothing of its record is written.
    read(&rt, b">one\nAC\n>two\nACNG\n", 3);
    // A record that just fits, one with no letters, and one for which there is no room.
    read(&rt, b">one\nACGTACGTACGTACGT\n>two\n>three\nA\n", 3);
}

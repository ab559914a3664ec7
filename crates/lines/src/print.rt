// The printout of a FASTA file: one sequence a line, or one refusal. It has no end line and a refusal stands alone in it, so it is
// one page: a buffer holds it whole, and nothing is written before all of it is known.
ghost use Rattle.std.specs.Prelude.{◌≡◌, ◌+◌, ◌≤◌, ◌<◌, length, slice_set, take, IfOk, IfErr};
ghost use Rattle.rules.specs.Fasta.{lines_rule};
ghost use Rattle.rules.specs.Limits.{fasta_bytes};
ghost use Rattle.rules.specs.Text.{print_refused};
ghost use Rattle.rules.specs.Told.{file_refusal_number, file_refusal_place};
ghost use Rattle.text.specs.Printed.{line_room};

use fasta::Reader;
use rules::{Fasta, FileRefusal};
use text::print::{LINE, print_refused};

// The most bytes of a printout: a record's line is no longer than the record is in the file.
pub const BYTES: usize = Fasta::BYTES + LINE;

// Ends a record's line, whose letters stand behind the `used` bytes of the lines before it. It has its byte 10 even where it has no
// letters.
fn end_line(used: usize, letters: usize, out: &mut [u8]) -> usize
    requires { used + letters < length out.old }
    ensures value { result ≡ used + letters + 1 }
    ensures out_after { out.new ≡ slice_set out.old (used + letters) 10 }
{
    let end = used + letters;
    out[end] = b'\n';
    end + 1
}

// The lines of a file's records, at the front of `out`, and how many bytes they have; or what is refused.
fn print_records(file: &[u8], out: &mut [u8; BYTES]) -> Result<usize, FileRefusal>
    ensures lines { IfOk result (λ n. (take n out.new ≡ lines_rule file.now) × (n ≡ length (lines_rule file.now))) }
    ensures refusal { IfErr result (λ why. print_refused (file_refusal_number why) (file_refusal_place why) ≡ lines_rule file.now) }
{
    if Fasta::BYTES < file.len() {
        return Err(FileRefusal::NoRoom);
    }
    let mut reader = Reader::new(file);
    let mut used: usize = 0;
    // From record to record, as the reader hands them out: it fills what is lent to it, so that it is no iterator.
    while let Some(record) = reader.next(out, used, &mut [0; 1], 0)? {
        used = end_line(used, record.letters, out);
    }
    Ok(used)
}

// THE PRINTOUT of a file, at the front of `out`, and its length.
pub fn print_lines(file: &[u8], out: &mut [u8; BYTES]) -> usize
    ensures out_after { take result out.new ≡ lines_rule file.now }
    ensures value { result ≡ length (lines_rule file.now) }
{
    match print_records(file, out) {
        Ok(used) => used,
        Err(why) => print_refused(why.number(), why.place(), out),
    }
}

// The lines of a file, found by scanning it.
ghost use Rattle.std.specs.Prelude.{◌≡◌, [], ◌<◌, length, MatchOption};
ghost use Rattle.rules.specs.Fasta.{without_return, lines_from};
ghost use Rattle.fasta.specs.Scanned.{LineAt, FirstLine};

use text::pieces::find;

// A line: where it starts, its text, and where what follows it begins.
#[derive(Clone, Copy)]
pub(crate) struct Line<'a> {
    pub start: usize,
    pub text: &'a [u8],
    pub next: usize,
}

// The text of a line that a byte 10 ends: a byte 13 before that is none of it.
fn without_return(text: &[u8]) -> &[u8]
    ensures { result.now ≡ without_return text.now }
{
    text.strip_suffix(b"\r").unwrap_or(text)
}

// The line that begins at an offset. The file's end ends the last one.
pub(crate) fn line_at(file: &[u8], at: usize) -> Line<'_>
    requires { at < length file.now }
    ensures { (result.start ≡ at) × LineAt file.now at result.text.now result.next }
{
    match find(b'\n', &file[at..]) {
        Some(length) => {
            let stop = at + length;
            Line {
                start: at,
                text: without_return(&file[at..stop]),
                next: stop + 1,
            }
        }
        None => Line {
            start: at,
            text: &file[at..],
            next: file.len(),
        },
    }
}

// The first line from an offset on that is not empty.
#[tactic(auto, using(crate::proofs::FileLines::line_skip, crate::proofs::FileLines::lines_end))]
pub(crate) fn first_line(file: &[u8], at: usize) -> Option<Line<'_>>
    ensures { MatchOption result (lines_from file.now at ≡ []) (λ l. FirstLine file.now at l.start l.text.now l.next) }
{
    let mut start = at;
    // No `for`: it counts nothing, and goes from line to line.
    while start < file.len() {
        let line = line_at(file, start);
        if !line.text.is_empty() {
            return Some(line);
        }
        start = line.next;
    }
    None
}

// The record that begins at a header: what its lines hold, whether there is room for it, its letters copied, and its name.
ghost use Rattle.std.specs.Prelude.{Bool, true, false, ◌≡◌, ◌+◌, ◌≤◌, ◌<◌, ◌^◌, length, take, MatchOption};
ghost use Rattle.rules.specs.Fasta.{line, up_to_blank, texts, has_no_room, check_line};
ghost use Rattle.rules.specs.Lists.{put};
ghost use Rattle.fasta.specs.Scanned.{LineAt, is_in_body, body, told_bad, BodyAt};

use crate::lines::{Line, line_at};
use checks::{all_letters, find_mark};
use rules::{Fasta, FileOffset};

// A record's lines: how many bytes they have, where the first of them stands that is no letter, and where the next record begins.
#[derive(Clone, Copy)]
pub(crate) struct Body {
    pub size: usize,
    pub bad: Option<FileOffset>,
    pub next: usize,
}

// The line of a record's that begins at an offset; none where a header does, or where the file ends.
fn body_line(file: &[u8], at: usize) -> Option<Line<'_>>
    ensures { MatchOption result (is_in_body file.now at ≡ false) (λ l. (is_in_body file.now at ≡ true) × (l.start ≡ at) × LineAt file.now at l.text.now l.next) }
{
    if at < file.len() && file[at] != b'>' {
        Some(line_at(file, at))
    } else {
        None
    }
}

// The first byte of a line that is no letter.
#[tactic(auto, using(checks::proofs::Laws::all_letters))]
fn bad_in(start: usize, text: &[u8]) -> Option<FileOffset>
    requires { start + length text.now < 2 ^ 64 }
    ensures { check_line (line start text.now) ≡ told_bad result }
{
    if all_letters(text) {
        return None;
    }
    let mark = find_mark(text)?;
    Some(FileOffset(start + mark))
}

// Reads a record's lines, from the one behind its header to the next header.
pub(crate) fn measure(file: &[u8], from: usize) -> Body
    requires { from ≤ length file.now }
    ensures { BodyAt file.now from result.size result.bad result.next }
{
    let mut at = from;
    let mut size: usize = 0;
    let mut bad = None;
    // No `for`: it counts nothing, and goes from line to line.
    while let Some(line) = body_line(file, at) {
        bad = bad.or_else(|| bad_in(line.start, line.text));
        size += line.text.len();
        at = line.next;
    }
    Body {
        size,
        bad,
        next: at,
    }
}

// Copies `N` bytes of a line from a place on, behind those that are copied. They go through a block of their own, which no buffer lies
// over: a `copy_from_slice` of the line itself would have the library ask a C program for `memmove` too (tests/header.sh).
fn copy_block<const N: usize>(text: &[u8], at: usize, to: &mut [u8])
    requires { (at + N ≤ length text.now) × (length to.old ≡ length text.now) × (take at to.old ≡ take at text.now) }
    ensures { take (at + N) to.new ≡ take (at + N) text.now }
{
    if let Some(block) = text[at..at + N].first_chunk::<N>() {
        let block = *block;
        to[at..at + N].copy_from_slice(&block);
    }
}

// Copies a line of at least `N` bytes by as many at a time, and the last `N` of it, of which some may be copied by then.
fn copy_by<const N: usize>(text: &[u8], to: &mut [u8])
    requires { (1 ≤ N) × (N ≤ length text.now) × (length to.old ≡ length text.now) }
    ensures { to.new ≡ text.now }
{
    let last = text.len() - N;
    let mut at = 0;
    // No `for`: the steps are of `N`.
    while at < last {
        copy_block::<N>(text, at, to);
        at += N;
    }
    copy_block::<N>(text, last, to);
}

// Copies a line, by blocks that are at most as long. With a loop over its bytes in their place a line of 60 takes an eighth more
// instructions in all, and up to a fifth more time.
fn copy(text: &[u8], to: &mut [u8])
    requires { length to.old ≡ length text.now }
    ensures { to.new ≡ text.now }
{
    let n = text.len();
    if n < 4 {
        for i in 0..n {
            to[i] = text[i];
        }
    } else if n < 8 {
        copy_by::<4>(text, to);
    } else if n < 16 {
        copy_by::<8>(text, to);
    } else if n < 32 {
        copy_by::<16>(text, to);
    } else if n < 64 {
        copy_by::<32>(text, to);
    } else {
        copy_by::<64>(text, to);
    }
}

// Writes the bytes of those lines, joined, to the front of a buffer.
#[tactic(auto, using(crate::proofs::Body::copied_none, crate::proofs::Body::copied_fits, crate::proofs::Body::copied_all))]
pub(crate) fn copy_body(file: &[u8], from: usize, letters: &mut [u8])
    requires { (from ≤ length file.now) × (length (texts (body file.now from)) ≤ length letters.old) }
    ensures { letters.new ≡ put (texts (body file.now from)) letters.old }
{
    let mut at = from;
    let mut used: usize = 0;
    // No `for`: it counts nothing, and goes from line to line.
    while let Some(line) = body_line(file, at) {
        let end = used + line.text.len();
        copy(line.text, &mut letters[used..end]);
        used = end;
        at = line.next;
    }
}

// How long a name is that a text begins with: it ends before the first space or tab, or with the text.
pub(crate) fn name_length(text: &[u8]) -> usize
    ensures { result ≡ length (up_to_blank text.now) }
{
    text.iter()
        .position(|b| (*b == b' ') | (*b == b'\t'))
        .unwrap_or(text.len())
}

// Whether a buffer and a table have no room for a record of so many letters, `used` and `count` of them being filled.
// Tried as `get_mut` of the rest and of the row in the caller: that made three refusals of this one, and was no plainer.
pub(crate) fn no_room(
    letters: &[u8],
    used: usize,
    lengths: &[u32],
    count: usize,
    size: usize,
) -> bool
    ensures { result ≡ has_no_room (length letters.now) used (length lengths.now) count size }
{
    let end = used.saturating_add(size);
    (letters.len() < end) | (lengths.len() <= count) | (Fasta::LENGTH < size)
}

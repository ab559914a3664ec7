// A text cut into pieces at a byte: the lines of the printing program's input and of a FASTA file at byte 10, a template's
// components at [.
ghost use Rattle.std.specs.Prelude.{◌≡◌, [], ◌∷◌, ◌+◌, ◌≤◌, ⊤, false, length, drop, position, eqb, MatchOption};
ghost use Rattle.rules.specs.Text.{pieces};
ghost use Rattle.text.specs.Pieces.{find, is_two, pieces_left, bytes_left};

// Goes on by eight bytes at a time, as long as all of them are another. It answers a number: as a loop that answers what is left of the text
// it took a quarter more time over short lines, since it was then no longer made a part of its callers.
fn pass_eights(b: u8, text: &[u8]) -> usize
    ensures { (result ≤ length text.now) × (find b text.now ≡ result + find b (drop result text.now)) }
{
    let (eights, _) = text.as_chunks::<8>();
    for k in 0..eights.len() {
        if eights[k].contains(&b) {
            return 8 * k;
        }
    }
    8 * eights.len()
}

// Where a byte stands first.
pub fn find(b: u8, text: &[u8]) -> Option<usize>
    ensures { result ≡ position (λ x. eqb x b) text.now }
{
    let passed = pass_eights(b, text);
    let at = text[passed..].iter().position(|x| *x == b)?;
    Some(passed + at)
}

// What stands before a byte and what follows it, where it stands first.
pub(crate) fn split_once(b: u8, text: &[u8]) -> Option<(&[u8], &[u8])>
    ensures pieces { MatchOption result (pieces b text.now ≡ text.now ∷ [])
        (λ halves. pieces b text.now ≡ halves.0.now ∷ pieces b halves.1.now) }
    ensures long { MatchOption result ⊤ (λ halves. length halves.0.now + (length halves.1.now + 1) ≡ length text.now) }
{
    let end = find(b, text)?;
    Some((&text[..end], &text[end + 1..]))
}

// The first piece, and the text of the others, if there are any.
pub(crate) fn first_piece(b: u8, text: &[u8]) -> (&[u8], Option<&[u8]>)
    ensures pieces { pieces b text.now ≡ result.0.now ∷ pieces_left b result.1 }
    ensures long { length result.0.now + bytes_left result.1 ≡ length text.now }
{
    match split_once(b, text) {
        Some((first, others)) => (first, Some(others)),
        None => (text, None),
    }
}

// The two pieces of a text that has two.
pub(crate) fn in_two(b: u8, text: &[u8]) -> Option<(&[u8], &[u8])>
    ensures pieces { MatchOption result (is_two (pieces b text.now) ≡ false)
        (λ halves. pieces b text.now ≡ halves.0.now ∷ halves.1.now ∷ []) }
    ensures long { MatchOption result ⊤ (λ halves. length halves.0.now + (length halves.1.now + 1) ≡ length text.now) }
{
    let (first, second) = split_once(b, text)?;
    if second.contains(&b) {
        return None;
    }
    Some((first, second))
}

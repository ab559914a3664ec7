// An inner crate: what a call refuses, each check by its number in the paper, and the orders in which the calls check: one after
// another, up to the first that applies, so that what is long is read only where nothing was refused before.
#![tactic(auto)]

pub mod spelled;

ghost use Rattle.std.specs.Prelude.{◌≡◌, ℕ, ◌+◌, ◌<◌, length, IfSome};
ghost use Rattle.checks.specs.CheckOrders.{template_checks, end_before_13, value_checks_before_13};
ghost use Rattle.checks.specs.ScannedLetters.{LettersUpTo, told_first};
ghost use Rattle.rules.specs.Letters.{is_letter};
ghost use Rattle.rules.specs.Limits.{template_length};
ghost use Rattle.rules.specs.Lists.{all_pass};
ghost use Rattle.rules.specs.Refusals.{◌else◌, first, first_bad, bad_byte, outside, bad_gap, check1, check2, check3, check4, check5, check6, check7, check8, check9, check12, check23, check24, set_checks, new_checks};
ghost use Rattle.rules.specs.Saved.{meets_place_rule};
ghost use Rattle.rules.specs.Told.{told_checked};

use rules::{
    Component, Letter, Offset, Place, RecordNumber, Refusal, Search, SequenceSet, Sequences,
    Template,
};
use spelled::valid;

// 1: no sequences, or too many.
pub fn check_sequences(lengths: &[u32]) -> Result<(), Refusal>
    ensures { told_checked result ≡ check1 lengths.now }
{
    let n = lengths.len();
    Refusal::SequenceCount.when((n < 1) | (SequenceSet::SEQUENCES < n))
}

// 2: too many letters in all the sequences.
pub fn check_letters(letters: &[u8]) -> Result<(), Refusal>
    ensures { told_checked result ≡ check2 letters.now }
{
    let n = letters.len();
    Refusal::LetterCount.when(SequenceSet::LETTERS < n)
}

// 3: lengths that do not add up to the letters. Each is taken from what is left of the letters, so that no sum is formed.
pub fn check_sum(set: &Sequences) -> Result<(), Refusal>
    ensures { told_checked result ≡ check3 set.now.letters.now set.now.lengths.now }
{
    let mut left = set.letters.len();
    for n in set.lengths {
        let n = *n as usize;
        if left < n {
            return Err(Refusal::LengthSum);
        }
        left -= n;
    }
    Refusal::LengthSum.when(left != 0)
}

// Whether all bytes are letters. Every byte is looked at, also past one that is none: with no way out of the loop, many bytes
// can be taken at a time.
pub fn all_letters(bytes: &[u8]) -> bool
    ensures { result ≡ all_pass is_letter bytes.now }
{
    let mut all = true;
    for b in bytes {
        all = all & Letter::is_letter(*b);
    }
    all
}

// How many bytes are looked at together where the first that is no letter is sought.
const BLOCK: usize = 64;

// Goes on by a block at a time, as long as all of its bytes are letters.
fn pass_letters(bytes: &[u8]) -> usize
    ensures { LettersUpTo bytes.now result }
{
    let mut passed = 0;
    for block in bytes.chunks_exact(BLOCK) {
        if !all_letters(block) {
            return passed;
        }
        passed += BLOCK;
    }
    passed
}

// Where the first byte stands that is no letter, if there is one.
pub fn find_mark(bytes: &[u8]) -> Option<usize>
    ensures inside { IfSome result (λ i. i < length bytes.now) }
    ensures told { (o : ℕ) → first_bad 4 bad_byte o bytes.now ≡ told_first 4 o result }
{
    let passed = pass_letters(bytes);
    let mark = bytes[passed..].iter().position(|b| !Letter::is_letter(*b))?;
    Some(passed + mark)
}

// 4: the first byte that is no letter.
pub fn check_bytes(letters: &[u8]) -> Result<(), Refusal>
    ensures { told_checked result ≡ check4 letters.now }
{
    if all_letters(letters) {
        return Ok(());
    }
    match find_mark(letters) {
        Some(mark) => Err(Refusal::NotALetter(Offset(mark))),
        None => Ok(()),
    }
}

// 5: no components, or too many.
pub fn check_count(t: Template) -> Result<(), Refusal>
    ensures { told_checked result ≡ check5 t }
{
    let n = t.count;
    Refusal::ComponentCount.when((n < 1) | (Template::COMPONENTS < n))
}

// A length that no component may have.
fn bad_length(c: Component) -> bool
    ensures { result ≡ outside 1 template_length c.length }
{
    let n = c.length;
    (n < 1) | (Template::LENGTH < n)
}

// 6: the first component with such a length.
pub fn check_lengths(t: Template) -> Result<(), Refusal>
    ensures { told_checked result ≡ check6 t }
{
    let slots = t.components();
    match slots[..t.held() as usize]
        .iter()
        .position(|c| bad_length(*c))
    {
        Some(i) => Err(Refusal::ComponentLength((i + 1) as u8)),
        None => Ok(()),
    }
}

// 7: too many letters in all the components, K, for the kind of search.
pub fn check_size(t: Template) -> Result<(), Refusal>
    ensures { told_checked result ≡ check7 t }
{
    let k = t.letters();
    let profile = t.profile;
    let most = profile.most();
    Refusal::MotifLength.when(most < k)
}

// A gap range that the component after i others may not have: the first has 0, 0.
fn bad_gap(c: Component, i: usize) -> bool
    ensures { result ≡ bad_gap (i + 1) c }
{
    let low = c.low;
    let high = c.high;
    ((high < low) | (Template::GAP < high)) | ((i == 0) & !((low == 0) & (high == 0)))
}

// 8: the first component with such a range.
pub fn check_gaps(t: Template) -> Result<(), Refusal>
    ensures { told_checked result ≡ check8 t }
{
    let slots = t.components();
    match slots[..t.held() as usize]
        .iter()
        .enumerate()
        .position(|(i, c)| bad_gap(*c, i))
    {
        Some(i) => Err(Refusal::GapRange((i + 1) as u8)),
        None => Ok(()),
    }
}

// 24: an allowance above the component's length. No component is told.
pub fn check_allowances(t: Template) -> Result<(), Refusal>
    ensures { told_checked result ≡ check24 t }
{
    let slots = t.components();
    let profile = t.profile;
    Refusal::Allowance.when(
        slots[..t.held() as usize]
            .iter()
            .any(|c| c.length < c.allowance_in(profile)),
    )
}

// 9: a quorum of 0, or above the number of sequences.
pub fn check_quorum(lengths: &[u32], quorum: u64) -> Result<(), Refusal>
    ensures { told_checked result ≡ check9 lengths.now quorum }
{
    let n = lengths.len() as u64;
    Refusal::Quorum.when((quorum < 1) | (n < quorum))
}

// The place rule: a place is 0 to K, and its number is that of so many letters.
pub fn place_rule(t: Template, p: Place) -> bool
    ensures { result ≡ meets_place_rule t p }
{
    let j = p.letters as u32;
    (j <= t.letters()) & valid(t, j, p.number)
}

// 23: a place that breaks its rule. Its record comes after the size record and those of the components.
pub fn check_place(s: Search) -> Result<(), Refusal>
    ensures { told_checked result ≡ check23 s }
{
    let t = s.template;
    let at = t.count as u32 + 1;
    Refusal::PlaceRule(RecordNumber(at)).when(!place_rule(t, s.place))
}

// 12: a search over other sequences than the lent ones.
pub fn check_same_set(set: &Sequences, s: Search) -> Result<(), Refusal>
    ensures { told_checked result ≡ check12 set.now.letters.now set.now.lengths.now s }
{
    let n = s.set.sequences as usize;
    let m = s.set.letters as usize;
    Refusal::OtherSet.when(!((n == set.lengths.len()) & (m == set.letters.len())))
}

// 1 to 4: the checks of the sequences. No length and no letter is read where there are too many of either, and no letter where the
// lengths do not add up.
#[tactic(auto, using(rules::proofs::Verdicts::in_turn), unfolding(rules::specs::Refusals::first))]
pub fn check_set(set: &Sequences) -> Result<(), Refusal>
    ensures { told_checked result ≡ first (set_checks set.now.letters.now set.now.lengths.now) }
{
    check_sequences(set.lengths)?;
    check_letters(set.letters)?;
    check_sum(set)?;
    check_bytes(set.letters)
}

// 5 to 8 and 24: the checks of a template.
#[tactic(auto, using(rules::proofs::Verdicts::in_turn), unfolding(rules::specs::Refusals::first))]
pub fn check_template(t: Template) -> Result<(), Refusal>
    ensures { told_checked result ≡ first (template_checks t) }
{
    check_count(t)?;
    check_lengths(t)?;
    check_size(t)?;
    check_gaps(t)?;
    check_allowances(t)
}

// 1 to 8, 24 and 9: the checks of a new search.
#[tactic(auto, using(rules::proofs::Verdicts::in_turn, crate::proofs::Laws::new_in_turn))]
pub fn check_new(set: &Sequences, t: Template, quorum: u64) -> Result<(), Refusal>
    ensures { told_checked result ≡ first (new_checks set.now.letters.now set.now.lengths.now t quorum) }
{
    check_set(set)?;
    check_template(t)?;
    check_quorum(set.lengths, quorum)
}

// 23, 6, 7, 8, 24, 12, 9: those of a search value whose number of components is in order, before 13.
#[tactic(auto, using(rules::proofs::Verdicts::in_turn), unfolding(rules::specs::Refusals::first))]
pub fn check_end(set: &Sequences, s: Search) -> Result<(), Refusal>
    ensures { told_checked result ≡ first (end_before_13 set.now.letters.now set.now.lengths.now s) }
{
    let t = s.template;
    check_place(s)?;
    check_lengths(t)?;
    check_size(t)?;
    check_gaps(t)?;
    check_allowances(t)?;
    check_same_set(set, s)?;
    check_quorum(set.lengths, s.quorum)
}

// 5, 23, 6, 7, 8, 24, 12, 9: those of a search value, before 13.
#[tactic(auto, using(rules::proofs::Verdicts::in_turn), unfolding(rules::specs::Refusals::first))]
pub fn check_value(set: &Sequences, s: Search) -> Result<(), Refusal>
    ensures { told_checked result ≡ first (value_checks_before_13 set.now.letters.now set.now.lengths.now s) }
{
    check_count(s.template)?;
    check_end(set, s)
}

// The positional join: of two lists of positions, those of the first that have a partner in the second. `join` is the public
// call; the others are its parts.
#![tactic(auto)]

ghost use Rattle.std.specs.Prelude.{◌≡◌, true, ◌+◌, ◌≤◌, length};
ghost use Rattle.rules.specs.Calls.{join_rule};
ghost use Rattle.rules.specs.Join.{is_rising};
ghost use Rattle.rules.specs.Limits.{sequence_set_letters};
ghost use Rattle.rules.specs.Lists.{keep, put};
ghost use Rattle.rules.specs.Refusals.{check6_head, check8_range, check16, check17};
ghost use Rattle.rules.specs.Told.{told_checked, told_answer};
ghost use Rattle.joins.specs.Pass.{verdict, is_following, LieBefore, Reached, is_within, has_partner};

use rules::{Distances, Position, Refusal, SequenceSet, Template};

// 6: the head has the length of a component.
#[tactic(auto, unfolding(rules::specs::Refusals::check6_head))]
fn check_head(head: u16) -> Result<(), Refusal>
    ensures { told_checked result ≡ check6_head head }
{
    Refusal::ComponentLength(1).when((head < 1) | (Template::LENGTH < head))
}

// 8: the range is one of a gap.
#[tactic(auto, unfolding(rules::specs::Refusals::check8_range))]
fn check_range(low: u16, high: u16) -> Result<(), Refusal>
    ensures { told_checked result ≡ check8_range low high }
{
    Refusal::GapRange(1).when((high < low) | (Template::GAP < high))
}

// Whether a position may come after another in a list: it is higher, and not past the last letter that there may be.
fn follows(last: Position, p: Position) -> bool
    ensures { result ≡ is_following last.0 p.0 }
{
    (last.0 < p.0) & (p.0 <= SequenceSet::LETTERS)
}

// Whether the positions rise strictly from 1 on and none is past the last letter that there may be.
#[tactic(auto, using(crate::proofs::Rising::rises_not, crate::proofs::Rising::rises_on, crate::proofs::Rising::rises_end))]
fn rises(list: &[u32]) -> bool
    ensures { result ≡ is_rising 0 list.now }
{
    let mut last = Position(0);
    for p in list {
        let here = Position(*p as usize);
        if !follows(last, here) {
            return false;
        }
        last = here;
    }
    true
}

// 16: both lists rise.
#[tactic(auto, unfolding(rules::specs::Refusals::check16))]
fn check_lists(first: &[u32], second: &[u32]) -> Result<(), Refusal>
    ensures { told_checked result ≡ check16 first.now second.now }
{
    Refusal::JoinList.when(!(rises(first) && rises(second)))
}

// 17: the table has room for all of the first list.
#[tactic(auto, unfolding(rules::specs::Refusals::check17))]
fn check_room(first: &[u32], out: &[u32]) -> Result<(), Refusal>
    ensures { told_checked result ≡ check17 (length first.now) out.now }
{
    Refusal::Room.when(out.len() < first.len())
}

// What a join refuses, in the paper's order.
#[tactic(auto, using(rules::proofs::Verdicts::in_turn, crate::proofs::Checks::in_order))]
fn check_join(
    first: &[u32],
    second: &[u32],
    head: u16,
    low: u16,
    high: u16,
    out: &[u32],
) -> Result<(), Refusal>
    ensures { told_checked result ≡ verdict first.now second.now head low high out.now }
{
    check_head(head)?;
    check_range(low, high)?;
    check_lists(first, second)?;
    check_room(first, out)
}

// The index of the first position of a list that is not before `from`, looked for from `at` on: all up to there are. No `for`: it goes on
// from where it stopped before. With `position`, on a slice for each position of the first list, a join took a quarter or more longer.
// It is made a part of `pass` before either is worked on, so that whether the list has ended is not asked again in `within`: else a join
// takes up to a fifth more instructions.
#[inline(always)]
fn skip(list: &[u32], at: usize, from: Position) -> usize
    requires { (at ≤ length list.now) × LieBefore list.now at from.0 }
    ensures { Reached list.now from.0 result }
{
    let mut j = at;
    while let Some(p) = list.get(j) {
        if from.0 <= *p as usize {
            break;
        }
        j += 1;
    }
    j
}

// Whether a list has a position at `at`, and it is before `end`.
#[tactic(auto, unfolding(crate::specs::Pass::is_within))]
fn within(list: &[u32], at: usize, end: Position) -> bool
    ensures { result ≡ is_within list.now at end.0 }
{
    list.get(at).is_some_and(|p| (*p as usize) < end.0)
}

// Writes the positions of the first list that have a partner, and answers how many. Both lists rise, so the first of the second
// list that may be a partner only moves on: one pass over each, however wide the range.
fn pass(first: &[u32], second: &[u32], apart: Distances, out: &mut [u32]) -> usize
    requires first_rising { is_rising 0 first.now ≡ true }
    requires second_rising { is_rising 0 second.now ≡ true }
    requires near { apart.near + apart.count ≤ sequence_set_letters }
    requires room { length first.now ≤ length out.old }
    ensures value { result ≡ length (keep (has_partner second.now apart) first.now) }
    ensures out_after { out.new ≡ put (keep (has_partner second.now apart) first.now) out.old }
{
    let mut n = 0;
    let mut j = 0;
    for p in first {
        let from = *p as usize + apart.near;
        j = skip(second, j, Position(from));
        if within(second, j, Position(from + apart.count)) {
            out[n] = *p;
            n += 1;
        }
    }
    n
}

// Writes the positions of `first` that have a partner in `second`, one that starts after a head of `head` letters and a gap of
// `low` to `high`, in order, and answers how many; the rest of the table stays. Refused, with nothing written: a head that no
// component has (6), a range that no gap has (8), a list that does not rise or leaves 1 to 65,536 (16), and a table shorter than
// `first` (17).
pub fn join(
    first: &[u32],
    second: &[u32],
    head: u16,
    low: u16,
    high: u16,
    out: &mut [u32],
) -> Result<usize, Refusal>
    ensures result_value { told_answer result ≡ (join_rule first.now second.now head low high out.old).told }
    ensures out_after { out.new ≡ (join_rule first.now second.now head low high out.old).out }
{
    check_join(first, second, head, low, high, out)?;
    Ok(pass(first, second, Distances::over(head, low, high), out))
}

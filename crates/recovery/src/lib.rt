// Recovery: every occurrence of a motif, from a row of their list on.
#![tactic(auto)]

ghost use Rattle.std.specs.Prelude.{[], ◌∷◌, ◌++◌, map, ◌≡◌, suc, ◌+◌, ◌*◌, ◌^◌, ◌≤◌, ◌<◌, ltb, length, take, drop};
ghost use Rattle.descent.specs.Buffer.{buffer, emits, with_front};
ghost use Rattle.descent.specs.Paths.{Flagged};
ghost use Rattle.recovery.specs.Rule.{first_checks, rows_rule};
ghost use Rattle.rules.specs.Calls.{recover_rule};
ghost use Rattle.rules.specs.Letters.{value};
ghost use Rattle.rules.specs.Limits.{sequence_set_letters, sequence_set_sequences, template_components};
ghost use Rattle.rules.specs.Occurrence.{occurrences};
ghost use Rattle.rules.specs.Refusals.{first, check14};
ghost use Rattle.rules.specs.Sequences.{sequences};
ghost use Rattle.rules.specs.Sound.{SoundSet, SoundTemplate};
ghost use Rattle.rules.specs.Support.{occurrence_rows, parts};
ghost use Rattle.rules.specs.Template.{components, size};
ghost use Rattle.rules.specs.Told.{told_checked, told_answer};
ghost use Rattle.ways.specs.Counts.{counts, aligned};

use checks::spelled::valid;
use checks::{check_set, check_template};
use descent::{Descent, FLAGS, Page};
use rules::{Motif, Offset, Recovered, Refusal, SequenceNumber, SequenceSet, Sequences, Template};
use ways::{step, sum};

// A sequence of a sound set, with its number.
#[derive(Clone, Copy)]
struct Sequence<'a> {
    number: SequenceNumber,
    letters: &'a [u8],
    ghost numbered: { number.0 ≤ sequence_set_sequences },
    ghost short: { length letters.now ≤ sequence_set_letters },
}

// What a sequence is read by: in how many ways a component can start at each position with those after it, and for each component
// and position whether it can.
#[derive(Drop)]
struct Marks {
    ways: [u64; SequenceSet::LETTERS],
    flags: [bool; FLAGS],
}

// Sets the flags of the positions that have a number above 0, and clears the others.
fn set_flags(ways: &[u64], flags: &mut [bool])
    requires { length flags.old ≡ length ways.now }
    ensures { flags.new ≡ map (ltb 0) ways.now }
{
    for (i, flag) in flags.iter_mut().enumerate() {
        *flag = 0 < ways[i];
    }
}

impl Marks {
    // Marks a component in a sequence. The ways are those of the components after it, and then its own. The motif's letters are the
    // last of `word`, each by the bases that it stands for.
    fn mark_component(
        &mut self,
        sequence: Sequence<'_>,
        motif: Motif,
        word: &[u8],
        component: usize,
    )
        requires component_lt_count { (component < motif.template.count) × (size motif.template ≤ length word.now) }
        requires ways_value { component + 1 < motif.template.count → take (length sequence.letters.now) self.old.ways ≡ counts (aligned (drop (component + 1) (components motif.template)) word.now) sequence.letters.now }
        ensures ways_after { take (length sequence.entry.letters.now) self.new.ways ≡ counts (aligned (drop component (components motif.template)) word.now) sequence.entry.letters.now }
        ensures flags_after { self.new.flags ≡ take (component * sequence_set_letters) self.old.flags ++ (map (ltb 0) (take (length sequence.entry.letters.now) self.new.ways) ++ drop (component * sequence_set_letters + length sequence.entry.letters.now) self.old.flags) }
    {
        let n = sequence.letters.len();
        step(
            sequence.letters,
            motif.template,
            word,
            component,
            &mut self.ways[..n],
        );
        let begin = component * SequenceSet::LETTERS;
        let end = begin + n;
        set_flags(&self.ways[..n], &mut self.flags[begin..end]);
    }

    // Marks all components in a sequence, from the last to the first. The ways that are left are those of the first.
    fn mark(&mut self, sequence: Sequence<'_>, motif: Motif)
        ensures flagged { Flagged (parts motif.template (size motif.template) motif.number) (map value sequence.entry.letters.now) self.new.flags 0 }
        ensures ways_after { take (length sequence.entry.letters.now) self.new.ways ≡ counts (parts motif.template (size motif.template) motif.number) (map value sequence.entry.letters.now) }
    {
        let mut word = [0u8; Template::LETTERS as usize];
        let profile = motif.template.profile;
        profile.spell(motif.number, &mut word);
        for component in (0..motif.template.count as usize).rev() {
            self.mark_component(sequence, motif, &word, component);
        }
    }
}

// The rows of one sequence, and how many there are.
fn list_sequence(
    sequence: Sequence<'_>,
    motif: Motif,
    marks: &mut Marks,
    page: &mut Page<'_>,
) -> u64
    requires sequence_len_bound { length (occurrences (parts motif.template (size motif.template) motif.number) (map value sequence.letters.now)) < 2 ^ 64 }
    ensures same_buffer { page.new.out.ghost_name ≡ page.old.out.ghost_name }
    ensures page_after { buffer page.new.progress page.new.out.now ≡ emits (suc motif.template.count) (with_front (sequence.entry.number.0 ∷ []) (occurrences (parts motif.template (size motif.template) motif.number) (map value sequence.entry.letters.now))) (buffer page.old.progress page.old.out.now) }
    ensures length_value { result ≡ length (occurrences (parts motif.template (size motif.template) motif.number) (map value sequence.entry.letters.now)) }
{
    marks.mark(sequence, motif);
    let n = sequence.letters.len();
    let descent = Descent {
        template: motif.template,
        letters: n,
        flags: &marks.flags,
        ways: &marks.ways,
    };
    descent.list_starts(sequence.number, page);
    sum(&marks.ways[..n])
}

// The rows of all sequences, each by its own part of the letters, and how many there are.
fn list_sequences(set: &Sequences, motif: Motif, marks: &mut Marks, page: &mut Page<'_>) -> u64
    requires sound_set { SoundSet set.now.letters.now set.now.lengths.now }
    ensures same_buffer { page.new.out.ghost_name ≡ page.old.out.ghost_name }
    ensures page_after { buffer page.new.progress page.new.out.now ≡ emits (suc motif.template.count) (occurrence_rows (parts motif.template (size motif.template) motif.number) (sequences set.now.letters.now set.now.lengths.now)) (buffer page.old.progress page.old.out.now) }
    ensures length_value { result ≡ length (occurrence_rows (parts motif.template (size motif.template) motif.number) (sequences set.now.letters.now set.now.lengths.now)) }
{
    let mut length: u64 = 0;
    let mut begin: usize = 0;
    for (i, letters_here) in set.lengths.iter().enumerate() {
        let end = begin + *letters_here as usize;
        let number = i + 1;
        let sequence = Sequence {
            number: SequenceNumber(number),
            letters: SequenceSet::part(set.letters, Offset(begin), Offset(end)),
        };
        length += list_sequence(sequence, motif, marks, page);
        begin = end;
    }
    length
}

// 14: a number that is no motif's.
#[tactic(auto, unfolding(rules::specs::Refusals::check14))]
fn check_motif(template: Template, motif: u64) -> Result<(), Refusal>
    ensures { told_checked result ≡ check14 template motif }
{
    let k = template.letters();
    Refusal::MotifNumber.when(!valid(template, k, motif))
}

// 1 to 8, 24 and 14.
#[tactic(auto, using(rules::proofs::Verdicts::in_turn, crate::proofs::Rule::in_turn))]
fn check_recovery(set: &Sequences, template: Template, motif: u64) -> Result<(), Refusal>
    ensures { told_checked result ≡ first (first_checks set.now.letters.now set.now.lengths.now template motif) }
{
    check_set(set)?;
    check_template(template)?;
    check_motif(template, motif)
}

// What comes of it once those have passed. The list's length is counted, not listed; where the first row asked for lies above
// it, all rows are passed over and nothing is written.
fn recover_rows(
    set: &Sequences,
    motif: Motif,
    first: u64,
    out: &mut [u32],
) -> Result<Recovered, Refusal>
    requires sound_set { SoundSet set.now.letters.now set.now.lengths.now }
    ensures result_value { told_answer result ≡ (rows_rule set.now.letters.now set.now.lengths.now motif.template motif.number first out.old).told }
    ensures out_after { out.new ≡ (rows_rule set.now.letters.now set.now.lengths.now motif.template motif.number first out.old).out }
{
    let mut marks = Marks {
        ways: [0; SequenceSet::LETTERS],
        flags: [false; FLAGS],
    };
    let mut page = Page::new(first, out);
    let length = list_sequences(set, motif, &mut marks, &mut page);
    if length < first {
        return Err(Refusal::FirstRow);
    }
    Ok(Recovered {
        rows: page.progress.rows,
        length,
    })
}

// Lists the occurrences of a motif: rows of k + 1 numbers, the sequence's number and then the starts, ordered by sequence, by
// first start, by second start and so on. The rows from number `first` on, counted from 0, are written to `out` until the list
// ends or no whole row fits; the rest of `out` stays. The answer is how many were written and how long the whole list is.
// Refused, with nothing written: sequences (1 to 4) or a template (5 to 8, 24) that break a rule, a number that is no motif's (14),
// and a first row above the list's length (15).
pub fn recover(
    set: &Sequences,
    template: Template,
    motif: u64,
    first: u64,
    out: &mut [u32],
) -> Result<Recovered, Refusal>
    ensures result_value { told_answer result ≡ (recover_rule set.now.letters.now set.now.lengths.now template motif first out.old).told }
    ensures out_after { out.new ≡ (recover_rule set.now.letters.now set.now.lengths.now template motif first out.old).out }
{
    check_recovery(set, template, motif)?;
    let motif = Motif {
        template,
        number: motif,
    };
    recover_rows(set, motif, first, out)
}

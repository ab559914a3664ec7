// How many occurrences a motif has in one sequence, from each position: what recovery goes by. An inner crate: its functions require
// what the checks show of the sequences and the template.
#![tactic(auto)]

ghost use Rattle.std.specs.Prelude.{◌≡◌, map, ℕ, suc, ◌+◌, ◌^◌, ◌≤◌, ◌<◌, length, drop};
ghost use Rattle.rules.specs.Limits.{template_components, template_length, template_gap};
ghost use Rattle.rules.specs.Lists.{run, sum};
ghost use Rattle.rules.specs.Sound.{SoundTemplate};
ghost use Rattle.rules.specs.Template.{size, components};
ghost use Rattle.ways.specs.Counts.{stands_in_bytes, counts, most_ways, at_position, cell, ending, leading, letters_taken, aligned};

use rules::{Component, Distances, Letter, Template};

// Whether the letters of `word`, each given by the bases that it stands for, stand in `s` at the offset `o`.
fn stands(word: &[u8], s: &[u8], o: usize) -> bool
    requires { o ≤ length s.now }
    ensures { result ≡ stands_in_bytes word.now s.now (suc o) }
{
    let rest = &s[o..];
    // The bytes are cut to as many as there are letters, so that one end is asked for at each letter, and not two.
    word.len() <= rest.len()
        && word
            .iter()
            .zip(&rest[..word.len()])
            .all(|(set, byte)| Letter::has_base(*set, Letter::value(*byte)))
}

// `v` where the letters stand, and else 0. Where `v` is 0, as where nothing can follow, the letters are not looked at.
#[tactic(auto, using(crate::proofs::LetterByLetter::cell_true, crate::proofs::LetterByLetter::cell_false, crate::proofs::LetterByLetter::cell_none))]
fn cell(word: &[u8], s: &[u8], o: usize, v: u64) -> u64
    requires { o ≤ length s.now }
    ensures { result ≡ cell word.now s.now (suc o) v }
{
    if v == 0 {
        return 0;
    }
    if stands(word, s, o) { v } else { 0 }
}

// The number at `i`, and 0 past the end.
#[tactic(auto, unfolding(crate::specs::Counts::at_position))]
fn at(a: &[u64], i: usize) -> u64
    ensures { result ≡ at_position a.now (suc i) }
{
    a.get(i).copied().unwrap_or(0)
}

// The sum of the `count` numbers from `from` on.
fn window(a: &[u64], from: usize, count: usize) -> u64
    requires { (from ≤ template_length + template_gap) × (count ≤ template_gap + 1) × ((p : ℕ) → at_position a.now p ≤ most_ways) }
    ensures { result ≡ sum (map (at_position a.now) (run (suc from) count)) }
{
    (from..from + count).map(|i| at(a, i)).sum()
}

// The ways of the last component.
fn last(word: &[u8], s: &[u8], ways: &mut [u64])
    requires { length ways.old ≡ length s.now }
    ensures { ways.new ≡ map (ending word.now s.now) (run 1 (length s.now)) }
{
    for (o, here) in ways.iter_mut().enumerate() {
        *here = cell(word, s, o, 1);
    }
}

// The ways of a component and those after it, from the ways of those: the next one starts at one of some distances. One sum
// slides along, so many distances cost no more than a few, and no place is read once it is written.
fn pass(word: &[u8], apart: Distances, s: &[u8], ways: &mut [u64])
    requires { (length ways.old ≡ length s.now) × (apart.near ≤ template_length + template_gap) × (apart.count ≤ template_gap + 1) × ((p : ℕ) → at_position ways.old p ≤ most_ways) }
    ensures { ways.new ≡ map (leading word.now apart s.now ways.old) (run 1 (length s.now)) }
{
    let near = apart.near;
    let count = apart.count;
    let mut total = window(ways, near, count);
    for o in 0..ways.len() {
        let here = cell(word, s, o, total);
        total = total + at(ways, o + near + count) - at(ways, o + near);
        ways[o] = here;
    }
}

// How many letters some components take.
fn letters(components: &[Component]) -> usize
    requires { length components.now ≤ template_components }
    ensures { result ≡ letters_taken components.now }
{
    components
        .iter()
        .map(|component| component.length as usize)
        .sum()
}

// Where the letters of a component begin. The motif's letters are the last of `word`, each by the bases that it stands for.
#[tactic(auto, using(crate::proofs::Aligned::left_components, crate::proofs::Aligned::left_fit))]
fn begins(template: Template, word: &[u8], component: usize) -> usize
    requires sound_template { SoundTemplate template }
    requires component_le_count { (component ≤ template.count) × (size template ≤ length word.now) }
    ensures { result + letters_taken (drop component (components template)) ≡ length word.now }
{
    let components = template.components();
    let count = template.count as usize;
    let left = &components[component..count];
    word.len() - letters(left)
}

// The ways of the components from `component` on, from those of the ones after it; of the last, whatever `ways` holds. The
// motif's letters are the last of `word`. A start can be continued exactly if its number is above 0.
pub fn step(sequence: &[u8], template: Template, word: &[u8], component: usize, ways: &mut [u64])
    requires sound_template { SoundTemplate template }
    requires component_lt_count { (component < template.count) × (size template ≤ length word.now) × (length ways.old ≡ length sequence.now) }
    requires ways_value { component + 1 < template.count → ways.old ≡ counts (aligned (drop (component + 1) (components template)) word.now) sequence.now }
    ensures { ways.new ≡ counts (aligned (drop component (components template)) word.now) sequence.now }
{
    let components = template.components();
    let count = template.count as usize;
    let here = components[component];
    let length = here.length as usize;
    let begin = begins(template, word, component);
    let end = begin + length;
    let next = component + 1;
    if next == count {
        last(&word[begin..end], sequence, ways);
        return;
    }
    let later = components[next];
    let apart = later.after(here);
    pass(&word[begin..end], apart, sequence, ways);
}

// The sum of some counts. Of a sequence's ways from its first component on, it is the number of occurrences.
pub fn sum(ways: &[u64]) -> u64
    requires { sum ways.now < 2 ^ 64 }
    ensures { result ≡ sum ways.now }
{
    ways.iter().sum()
}

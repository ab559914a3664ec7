// Weighted supports: the counts of ways before a motif's last component, made once for all motifs of one prefix, and added where the
// motif's row has a bit.
ghost use Rattle.std.specs.Prelude.{true, map, ◌≡◌, ℕ, ◌+◌, ◌-◌, ◌*◌, ◌^◌, ◌≤◌, ◌<◌, length, take, drop, get_or};
ghost use Rattle.rules.specs.Profile.{base_of};
ghost use Rattle.rules.specs.Lists as lists;
ghost use Rattle.rules.specs.Sequences.{sequences};
ghost use Rattle.rules.specs.Support.{weight, parts};
ghost use Rattle.rows.specs.Bits.{held};
ghost use Rattle.rows.specs.Flags.{count_most, added, masked};
ghost use Rattle.matching.specs.Path.{prefix_starts, Path};
ghost use Rattle.rows.specs.Set.{row_marks, row_words, between, bits_at, is_marked, Bounded, Row};
ghost use Rattle.matching.specs.Weights.{counts_at, kept_counts, HoldsCounts, counted_from, begun_counts, weight_at, weight_of, prefix_of, Leads, Counted};

use super::made::Weighing;
use super::{SLOTS, WORDS, path};
use rows::gap::Reach;
use rows::set_bits::SetBits;
use rows::{BITS, MARKS, counts};
use rules::{Offset, Place};

// What a component's ways are counted from in one sequence, where the row has a bit: for the first one way, and else what there is.
fn begin(first: bool, row: &[u64], counts: &mut [u64])
    requires { length counts.old ≤ 64 * length row.now }
    ensures { masked (held row.now) counts.new ≡ masked (held row.now) (counted_from first counts.old) }
{
    if first {
        counts::ones(row, counts);
    }
}

// How the ways to a component are led on to the next one: the row of where that one stands, the gap between them, and the row with the gap
// opened; and whether it is the first, whose ways begin.
#[derive(Clone, Copy)]
struct Lead<'a> {
    row: &'a [u64; WORDS],
    opened: &'a [u64; WORDS],
    first: bool,
    reach: Reach,
}

// In one sequence, whose words are those from `from` up to `to` and whose counts are those from `a` up to `e`: opens a gap after the counts
// at which the row has a bit. Where the opened row has a bit the counts are right then, and elsewhere they are anything.
fn lead_between(from: usize, to: usize, a: Offset, e: Offset, lead: &Lead, counts: &mut [u64])
    requires from_le_to { (from ≤ to) × (to ≤ row_words) × (a.0 ≤ e.0) × (e.0 ≤ length counts.old) × (e.0 - a.0 ≤ 64 * (to - from)) }
    requires by_index { (i : ℕ) → get_or (masked (held (between from to lead.now.row.now)) (counted_from lead.now.first (between a.0 e.0 counts.old))) i 0 ≤ count_most }
    requires by_index_2 { (i : ℕ) → get_or (held (between from to lead.now.opened.now)) i 0 ≡ 0 → get_or (added lead.now.reach.apart.near (lead.now.reach.apart.near + lead.now.reach.apart.count - 1) (masked (held (between from to lead.now.row.now)) (counted_from lead.now.first (between a.0 e.0 counts.old)))) i 0 ≡ 0 }
    ensures counts_unchanged { (take a.0 counts.new ≡ take a.0 counts.old) × (drop e.0 counts.new ≡ drop e.0 counts.old) × (length counts.new ≡ length counts.old) }
    ensures counts_after { masked (held (between from to lead.now.opened.now)) (between a.0 e.0 counts.new) ≡ added lead.now.reach.apart.near (lead.now.reach.apart.near + lead.now.reach.apart.count - 1) (masked (held (between from to lead.now.row.now)) (counted_from lead.now.first (between a.0 e.0 counts.old))) }
{
    let x = a.0;
    let y = e.0;
    let row = lead.row;
    let opened = lead.opened;
    begin(lead.first, &row[from..to], &mut counts[x..y]);
    counts::lead(
        &row[from..to],
        &opened[from..to],
        lead.reach,
        &mut counts[x..y],
    );
}

// The same in the sequences of one word of marks, those that have one. Here and below, what is asked of a row stays in clauses: most of it
// is on the counts as well, and a type for the rest, that no sequence past the last has a mark, would be no plainer.
fn lead_sequences(weighing: &Weighing, w: usize, lead: &Lead, counts: &mut [u64])
    requires w_bound { w < row_marks }
    requires bounded { Bounded weighing.now.made.plan.layout.lengths.now lead.now.row.now }
    requires lengths_in_bounds { lists.sum weighing.now.made.plan.layout.lengths.now ≤ length counts.old }
    requires by_index { (k : ℕ) → w * 64 ≤ k → k < length weighing.now.made.plan.layout.lengths.now → is_marked lead.now.row.now k ≡ true → (i : ℕ) → get_or (begun_counts lead.now.first weighing.now.made.plan.layout.lengths.now lead.now.row.now counts.old k) i 0 ≤ count_most }
    requires by_index_2 { (k : ℕ) → w * 64 ≤ k → k < length weighing.now.made.plan.layout.lengths.now → is_marked lead.now.row.now k ≡ true → (i : ℕ) → get_or (bits_at weighing.now.made.plan.layout.lengths.now k lead.now.opened.now) i 0 ≡ 0 → get_or (added lead.now.reach.apart.near (lead.now.reach.apart.near + lead.now.reach.apart.count - 1) (begun_counts lead.now.first weighing.now.made.plan.layout.lengths.now lead.now.row.now counts.old k)) i 0 ≡ 0 }
    ensures by_index_3 { (k : ℕ) → w * 64 ≤ k → k < w * 64 + 64 → is_marked lead.now.row.now k ≡ true → kept_counts weighing.now.made.plan.layout.lengths.now lead.now.opened.now counts.new k ≡ added lead.now.reach.apart.near (lead.now.reach.apart.near + lead.now.reach.apart.count - 1) (begun_counts lead.now.first weighing.now.made.plan.layout.lengths.now lead.now.row.now counts.old k) }
    ensures by_index_4 { (k : ℕ) → k < w * 64 → k < length weighing.now.made.plan.layout.lengths.now → counts_at weighing.now.made.plan.layout.lengths.now k counts.new ≡ counts_at weighing.now.made.plan.layout.lengths.now k counts.old }
    ensures by_index_5 { (k : ℕ) → w * 64 + 64 ≤ k → k < length weighing.now.made.plan.layout.lengths.now → counts_at weighing.now.made.plan.layout.lengths.now k counts.new ≡ counts_at weighing.now.made.plan.layout.lengths.now k counts.old }
    ensures counts_len_unchanged { length counts.new ≡ length counts.old }
{
    let layout = weighing.made.plan.layout;
    let offsets = weighing.offsets;
    let base = w * BITS;
    for place in SetBits(lead.row[w]) {
        let at = base + place as usize;
        let (from, to) = layout.words(at);
        let a = offsets[at] as usize;
        let e = offsets[at + 1] as usize;
        lead_between(from, to, Offset(a), Offset(e), lead, counts);
    }
}

// The same in every sequence that has a mark. It stays a function of its own: as a part of a leg its loops lacked registers, and a leg over
// long sequences took a quarter longer.
#[inline(never)]
fn lead_all(weighing: &Weighing, lead: &Lead, counts: &mut [u64])
    requires bounded { Bounded weighing.now.made.plan.layout.lengths.now lead.now.row.now }
    requires lengths_in_bounds { lists.sum weighing.now.made.plan.layout.lengths.now ≤ length counts.old }
    requires by_index { (k : ℕ) → k < length weighing.now.made.plan.layout.lengths.now → is_marked lead.now.row.now k ≡ true → (i : ℕ) → get_or (begun_counts lead.now.first weighing.now.made.plan.layout.lengths.now lead.now.row.now counts.old k) i 0 ≤ count_most }
    requires by_index_2 { (k : ℕ) → k < length weighing.now.made.plan.layout.lengths.now → is_marked lead.now.row.now k ≡ true → (i : ℕ) → get_or (bits_at weighing.now.made.plan.layout.lengths.now k lead.now.opened.now) i 0 ≡ 0 → get_or (added lead.now.reach.apart.near (lead.now.reach.apart.near + lead.now.reach.apart.count - 1) (begun_counts lead.now.first weighing.now.made.plan.layout.lengths.now lead.now.row.now counts.old k)) i 0 ≡ 0 }
    ensures holds_counts { HoldsCounts (is_marked lead.now.row.now) (λ k. added lead.now.reach.apart.near (lead.now.reach.apart.near + lead.now.reach.apart.count - 1) (begun_counts lead.now.first weighing.now.made.plan.layout.lengths.now lead.now.row.now counts.old k)) weighing.now.made.plan.layout.lengths.now lead.now.opened.now counts.new (length weighing.now.made.plan.layout.lengths.now) }
    ensures counts_len_unchanged { length counts.new ≡ length counts.old }
{
    for w in 0..MARKS {
        lead_sequences(weighing, w, lead, counts);
    }
}

// The sum of the counts at which a row has a bit, in the sequences of one word of marks, those that have one.
fn add_sequences(weighing: &Weighing, w: usize, row: &[u64; WORDS], counts: &[u64]) -> u64
    requires w_bound { w < row_marks }
    requires bounded { Bounded weighing.now.made.plan.layout.lengths.now row.now }
    requires lengths_in_bounds { lists.sum weighing.now.made.plan.layout.lengths.now ≤ length counts.now }
    requires by_index { (k : ℕ) → k < length weighing.now.made.plan.layout.lengths.now → is_marked row.now k ≡ true → (p : ℕ) → get_or weighing.now.made.plan.layout.lengths.now k 0 ≤ p → get_or (bits_at weighing.now.made.plan.layout.lengths.now k row.now) p 0 ≡ 0 }
    requires w_bound_2 { lists.sum (map (weight_at weighing.now.made.plan.layout.lengths.now row.now counts.now) (lists.run (w * 64) 64)) < 2 ^ 64 }
    ensures { result ≡ lists.sum (map (weight_at weighing.now.made.plan.layout.lengths.now row.now counts.now) (lists.run (w * 64) 64)) }
{
    let layout = weighing.made.plan.layout;
    let offsets = weighing.offsets;
    let base = w * BITS;
    let mut total: u64 = 0;
    // Kept by hand: by `SetBits` searches took 4 to 8 in 100 longer, though they ran as many instructions.
    let mut rest = row[w];
    while rest != 0 {
        let zeros = u64::trailing_zeros(rest);
        let at = base + zeros as usize;
        let (from, to) = layout.words(at);
        let a = offsets[at] as usize;
        let e = offsets[at + 1] as usize;
        total += counts::add(&row[from..to], &counts[a..e]);
        rest &= rest - 1;
    }
    total
}

// The same in all sequences that have a mark.
fn add_all(weighing: &Weighing, row: &[u64; WORDS], counts: &[u64]) -> u64
    requires bounded { Bounded weighing.now.made.plan.layout.lengths.now row.now }
    requires lengths_in_bounds { lists.sum weighing.now.made.plan.layout.lengths.now ≤ length counts.now }
    requires by_index { (k : ℕ) → k < length weighing.now.made.plan.layout.lengths.now → is_marked row.now k ≡ true → (p : ℕ) → get_or weighing.now.made.plan.layout.lengths.now k 0 ≤ p → get_or (bits_at weighing.now.made.plan.layout.lengths.now k row.now) p 0 ≡ 0 }
    requires counts_bound { weight_of weighing.now.made.plan.layout.lengths.now row.now counts.now < 2 ^ 64 }
    ensures { result ≡ weight_of weighing.now.made.plan.layout.lengths.now row.now counts.now }
{
    let mut total: u64 = 0;
    for w in 0..MARKS {
        total += add_sequences(weighing, w, row, counts);
    }
    total
}

// Counts the ways before the last component, for the prefix of a motif whose path stands in the slots. From component to component: the
// row of the prefix that ends one says where it stands, and the gap after it is opened, as it is in the prefix's slot. Before an only
// component there is one way everywhere.
fn count_ways(
    weighing: &Weighing,
    motif: u64,
    slots: &[[u64; WORDS]; SLOTS],
    spare: &mut [u64; WORDS],
    ways: &mut [u64],
)
    requires motif_bound { motif < base_of weighing.now.made.plan.search.template ^ weighing.now.made.plan.depth }
    requires path { Path weighing.now.made.plan.search.template weighing.now.made.plan.layout.lengths.now weighing.now.made.plan.letters.now slots.now weighing.now.made.plan.depth motif }
    requires letters_in_bounds { length weighing.now.made.plan.letters.now ≤ length ways.old }
    ensures leads { Leads weighing.now.made.plan.search.template weighing.now.made.plan.layout.lengths.now weighing.now.made.plan.letters.now (prefix_of weighing.now.made.plan.search.template motif) ways.new }
    ensures ways_len_unchanged { length ways.new ≡ length ways.old }
{
    let plan = weighing.made.plan;
    let template = plan.search.template;
    let profile = template.profile;
    let components = template.components();
    let count = template.count as usize;
    if count == 1 {
        let n = plan.letters.len();
        ways[..n].fill(1);
        return;
    }
    let mut size: u8 = 0;
    for c in 1..count {
        let before = components[c - 1];
        let here = components[c];
        let reach = Reach {
            apart: here.after(before),
        };
        let more = before.length as u8;
        size += more;
        let left = (plan.depth - size) as u32;
        let number = profile.prefix(motif, left);
        let prefix = Place {
            letters: size,
            number,
        };
        path::support(&weighing.made, prefix, slots, 0, spare);
        let opened = path::slot(size as usize, slots);
        let lead = Lead {
            row: spare,
            opened,
            first: c == 1,
            reach,
        };
        lead_all(weighing, &lead, ways);
    }
}

// The weighted support of a motif whose path and row these are. `counted` is the prefix that `ways` was counted for, if it was: it is
// counted anew only for another one.
pub fn weight(
    weighing: &Weighing,
    motif: u64,
    prefix: u64,
    counted: Option<u64>,
    slots: &[[u64; WORDS]; SLOTS],
    row: &[u64; WORDS],
    spare: &mut [u64; WORDS],
    ways: &mut [u64],
) -> u64
    requires motif_bound { (motif < base_of weighing.now.made.plan.search.template ^ weighing.now.made.plan.depth) × (prefix ≡ prefix_of weighing.now.made.plan.search.template motif) }
    requires path { Path weighing.now.made.plan.search.template weighing.now.made.plan.layout.lengths.now weighing.now.made.plan.letters.now slots.now weighing.now.made.plan.depth motif }
    requires row { Row (prefix_starts weighing.now.made.plan.search.template weighing.now.made.plan.depth motif) weighing.now.made.plan.layout.lengths.now weighing.now.made.plan.letters.now row.now }
    requires counted { Counted weighing.now.made.plan.search.template weighing.now.made.plan.layout.lengths.now weighing.now.made.plan.letters.now counted ways.old }
    requires letters_in_bounds { length weighing.now.made.plan.letters.now ≤ length ways.old }
    ensures value { result ≡ weight (parts weighing.now.made.plan.search.template weighing.now.made.plan.depth motif) (sequences weighing.now.made.plan.letters.now weighing.now.made.plan.layout.lengths.now) }
    ensures leads { Leads weighing.now.made.plan.search.template weighing.now.made.plan.layout.lengths.now weighing.now.made.plan.letters.now prefix ways.new }
    ensures ways_len_unchanged { length ways.new ≡ length ways.old }
{
    let stale = counted != Some(prefix);
    if stale {
        count_ways(weighing, motif, slots, spare, ways);
    }
    add_all(weighing, row, ways)
}

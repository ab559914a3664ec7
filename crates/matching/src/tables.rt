// What a search's candidates are examined with, made once: where each letter of a motif stands, where each sequence's
// words begin, the letters' rows, and the first slot of the path.
ghost use Rattle.std.specs.Prelude.{true, ◌≡◌, ℕ, ◌+◌, ◌*◌, ◌≤◌, ◌<◌, length, take, get_or};
ghost use Rattle.rules.specs.Limits.{letter_bases, template_length, template_components};
ghost use Rattle.rules.specs.Profile.{base_of};
ghost use Rattle.rules.specs.Template as templates;
ghost use Rattle.matching.specs.Path.{letter_shifts, spot, Slot, Inside, BaseRows};
ghost use Rattle.rows.specs.Set.{Offsets};

use super::WORDS;
use super::letters::{letter_rows, letter_slots};
use super::made::{Made, Plan, Spot, Task, Weighing};
use super::path::first_slot;

// The places of the `n` letters of component `k`, the first of which is letter `from` of a motif.
fn place_component(k: u8, n: u8, from: usize, inside: &mut [Spot])
    requires { (k < template_components) × (n ≤ template_length) × (from + n ≤ length inside.old) }
    ensures by_index { (i : ℕ) → i < n → get_or inside.new (from + i) (spot 0 0) ≡ spot k i }
    ensures inside_unchanged { (take from inside.new ≡ take from inside.old) × (length inside.new ≡ length inside.old) }
{
    for i in 0..n {
        let at = from + i as usize;
        inside[at] = Spot {
            component: k,
            letter: i,
        };
    }
}

// The places of all letters of a motif. Here and below, that a table is long enough stays a clause:
// whichever is long enough may be lent, as before, and these are the crate's outermost calls, in which a clause is met once.
fn place_letters(task: &Task, inside: &mut [Spot])
    requires template_in_bounds { templates.size task.now.search.template ≤ length inside.old }
    ensures inside { Inside task.now.search.template inside.new }
    ensures inside_len_unchanged { length inside.new ≡ length inside.old }
{
    let template = task.search.template;
    let components = template.components();
    let count = template.count as usize;
    let mut from = 0;
    for k in 0..count {
        let n = components[k].length as u8;
        place_component(k as u8, n, from, inside);
        from += n as usize;
    }
}

// All but the rows of the letters that only a motif has. The plan holds the very tables that are lent, so what its types say of them
// (`placed`, `laid`) is so of those, as in `lay_out`.
pub fn begin<'a, 's: 'a>(
    task: &Task<'s>,
    inside: &'a mut [Spot],
    firsts: &'a mut [u32],
    offsets: &mut [u32],
    standing: &mut [[u64; WORDS]],
    slot: &mut [u64; WORDS],
) -> Plan<'a>
    requires template_in_bounds { (templates.size task.now.search.template ≤ length inside.old) × (length task.now.set.lengths.now < length firsts.old) × (length task.now.set.lengths.now < length offsets.old) × (letter_bases ≤ length standing.old) }
    ensures plan { (result.search ≡ task.now.search) × (result.letters.now ≡ task.now.set.letters.now) × (result.layout.lengths.now ≡ task.now.set.lengths.now) }
    ensures same_tables { (result.inside.ref_ptr ≡ inside.entry.ref_ptr) × (result.layout.firsts.ref_ptr ≡ firsts.entry.ref_ptr) }
    ensures offsets { Offsets task.now.set.lengths.now offsets.new }
    ensures base_rows { BaseRows task.now.set.lengths.now task.now.set.letters.now standing.new }
    ensures slot { Slot task.now.search.template task.now.set.lengths.now task.now.set.letters.now slot.new 0 0 }
    ensures inside_len_unchanged { (length result.inside.now ≡ length inside.old) × (length result.layout.firsts.now ≡ length firsts.old) }
    ensures standing_len_unchanged { (length offsets.new ≡ length offsets.old) × (length standing.new ≡ length standing.old) }
{
    let search = task.search;
    let set = task.set;
    place_letters(task, inside);
    let layout = rows::set::lay_out(set.lengths, firsts, offsets);
    let plan = Plan {
        search,
        depth: search.template.letters() as u8,
        letters: set.letters,
        layout,
        inside,
    };
    first_slot(&plan, slot);
    letter_slots(&plan, offsets, standing);
    plan
}

// All of it, in the tables that are lent, and the first slot of the path. `work` is lent for a row. The letters' rows are kept for as many
// places as `standing` has room for, at least one.
#[tactic(auto, using(rules::proofs::EachKind::base_least))]
pub fn make<'a, 's: 'a>(
    task: &Task<'s>,
    inside: &'a mut [Spot],
    firsts: &'a mut [u32],
    offsets: &'a mut [u32],
    standing: &'a mut [[u64; WORDS]],
    slot: &mut [u64; WORDS],
    work: &mut [u64; WORDS],
) -> Weighing<'a>
    requires template_in_bounds { (templates.size task.now.search.template ≤ length inside.old) × (length task.now.set.lengths.now < length firsts.old) × (length task.now.set.lengths.now < length offsets.old) × (base_of task.now.search.template ≤ length standing.old) × (length standing.old ≤ letter_shifts * letter_bases) }
    ensures plan { (result.made.plan.search ≡ task.now.search) × (result.made.plan.letters.now ≡ task.now.set.letters.now) × (result.made.plan.layout.lengths.now ≡ task.now.set.lengths.now) }
    ensures same_tables { (result.made.plan.inside.ref_ptr ≡ inside.entry.ref_ptr) × (result.made.plan.layout.firsts.ref_ptr ≡ firsts.entry.ref_ptr) × (result.offsets.ref_ptr ≡ offsets.entry.ref_ptr) × (result.made.standing.ref_ptr ≡ standing.entry.ref_ptr) }
    ensures slot { Slot task.now.search.template task.now.set.lengths.now task.now.set.letters.now slot.new 0 0 }
    ensures inside_len_unchanged { (length result.made.plan.inside.now ≡ length inside.old) × (length result.made.plan.layout.firsts.now ≡ length firsts.old) }
    ensures standing_len_unchanged { (length result.offsets.now ≡ length offsets.old) × (length result.made.standing.now ≡ length standing.old) }
{
    let plan = begin(task, inside, firsts, offsets, standing, slot);
    letter_rows(&plan, work, standing);
    let made = Made { plan, standing };
    Weighing { made, offsets }
}

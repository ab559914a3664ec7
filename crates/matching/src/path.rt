// The path of a search: the rows of the prefixes of its place, kept from step to step.
ghost use Rattle.std.specs.Prelude.{List, Option, Some, None, ◌≡◌, ℕ, ◌+◌, ◌-◌, ◌*◌, ◌/◌, ◌^◌, ◌≤◌, ◌<◌, length};
ghost use Rattle.rules.specs.Limits.{sequence_set_sequences, template_letters};
ghost use Rattle.rules.specs.Profile.{base_of, profile_by};
ghost use Rattle.rules.specs.Sequences.{sequences};
ghost use Rattle.rules.specs.Sound.{SoundSet};
ghost use Rattle.rules.specs.Support.{support, parts};
ghost use Rattle.rules.specs.Template as templates;
ghost use Rattle.matching.specs.Path.{row_slot, prefix_starts, gap_near, gap_far, Slot, Path, BaseRows, TestsLast};
ghost use Rattle.rows.specs.Set.{is_marked, window_at, Filled, Marked, Bounded, Row};

use super::letters::{Test, letter_row, test_for};
use super::made::{Made, Plan};
use super::{SLOTS, WORDS};
use rows::gap::{self, Reach};
use rows::set;
use rows::words::Shift;
use rules::{Place, Profile};

// The slot of the prefix of so many letters.
pub(crate) fn slot<'a>(size: usize, slots: &'a [[u64; WORDS]; SLOTS]) -> &'a [u64; WORDS]
    requires { size < template_letters }
    ensures slot { result.now ≡ row_slot size slots.now }
{
    &slots[size]
}

// Makes the slot of the prefix with no letters, which the first letter is added to: it has every mark and every bit.
pub fn first_slot(plan: &Plan, slot: &mut [u64; WORDS])
    ensures slot { Slot plan.now.search.template plan.now.layout.lengths.now plan.now.letters.now slot.new 0 0 }
{
    let n = plan.layout.lengths.len();
    set::begin(n, slot);
}

// The support of a candidate, and its row, from the slot of the prefix that is one letter shorter. Where the support is below `quorum`, a
// number may be answered that is below it too, and the row may not be whole.
fn extend(
    plan: &Plan,
    place: Place,
    test: Test,
    slot: &[u64; WORDS],
    quorum: u32,
    work: &mut [u64; WORDS],
) -> u32
    requires le_size { (1 ≤ place.letters) × (place.letters ≤ templates.size plan.now.search.template) }
    requires tests_last { TestsLast plan.now.search.template plan.now.layout.lengths.now plan.now.letters.now place.letters place.number test.row.now test.by.places }
    requires slot { Slot plan.now.search.template plan.now.layout.lengths.now plan.now.letters.now slot.now (place.letters - 1) (place.number / base_of plan.now.search.template) }
    ensures lower_bound { support (parts plan.now.search.template place.letters place.number) (sequences plan.now.letters.now plan.now.layout.lengths.now) ≤ result }
    ensures value { quorum ≤ result → result ≡ support (parts plan.now.search.template place.letters place.number) (sequences plan.now.letters.now plan.now.layout.lengths.now) }
    ensures row { quorum ≤ result → Row (prefix_starts plan.now.search.template place.letters place.number) plan.now.layout.lengths.now plan.now.letters.now work.new }
{
    let row = test.row;
    set::keep_all(&plan.layout, slot, row, test.by, quorum, work)
}

// The same for a candidate whose path stands in the slots.
pub fn support(
    made: &Made,
    place: Place,
    slots: &[[u64; WORDS]; SLOTS],
    quorum: u32,
    work: &mut [u64; WORDS],
) -> u32
    requires le_size { (1 ≤ place.letters) × (place.letters ≤ made.now.plan.depth) }
    requires path { Path made.now.plan.search.template made.now.plan.layout.lengths.now made.now.plan.letters.now slots.now place.letters place.number }
    ensures lower_bound { support (parts made.now.plan.search.template place.letters place.number) (sequences made.now.plan.letters.now made.now.plan.layout.lengths.now) ≤ result }
    ensures value { quorum ≤ result → result ≡ support (parts made.now.plan.search.template place.letters place.number) (sequences made.now.plan.letters.now made.now.plan.layout.lengths.now) }
    ensures row { quorum ≤ result → Row (prefix_starts made.now.plan.search.template place.letters place.number) made.now.plan.layout.lengths.now made.now.plan.letters.now work.new }
{
    let before = slot(place.letters as usize - 1, slots);
    extend(
        &made.plan,
        place,
        test_for(made, place),
        before,
        quorum,
        work,
    )
}

// Opens the gap before a component in a slot that has the row of a prefix which ends the one before it.
fn open_slot(plan: &Plan, component: usize, spare: &mut [u64; WORDS], slot: &mut [u64; WORDS])
    requires le_component { (1 ≤ component) × (component < plan.now.search.template.count) }
    requires bounded { Bounded plan.now.layout.lengths.now slot.old }
    ensures marked { Marked (is_marked slot.old) slot.new sequence_set_sequences }
    ensures filled { Filled (is_marked slot.old) (window_at (gap_near plan.now.search.template component) (templates.span (gap_near plan.now.search.template component) (gap_far plan.now.search.template component)) plan.now.layout.lengths.now slot.old) plan.now.layout.lengths.now slot.new (length plan.now.layout.lengths.now) }
{
    let components = plan.search.template.components();
    let before = components[component - 1];
    let here = components[component];
    let reach = Reach {
        apart: here.after(before),
    };
    gap::open_all(&plan.layout, reach, spare, slot);
}

// Makes a slot that has the row of a prefix what a further letter is added to: where that stands inside a component the row as it is, and
// else the row with the gap opened.
fn end_slot(plan: &Plan, size: u8, spare: &mut [u64; WORDS], slot: &mut [u64; WORDS])
    requires le_size { (1 ≤ size) × (size < templates.size plan.now.search.template) }
    requires bounded { Bounded plan.now.layout.lengths.now slot.old }
    ensures by_index { (number : ℕ) → Row (prefix_starts plan.now.search.template size number) plan.now.layout.lengths.now plan.now.letters.now slot.old → Slot plan.now.search.template plan.now.layout.lengths.now plan.now.letters.now slot.new size number }
{
    let spot = plan.inside[size as usize];
    if spot.letter > 0 {
        return;
    }
    open_slot(plan, spot.component as usize, spare, slot);
}

// Fills the slot of a prefix from that of the one a letter shorter, and answers its support. A further letter is added to its row where it
// stands inside a component, and else to that row with the gap opened. Where the support is below `quorum`, a number may be answered that
// is below it too, and the slot may not be whole.
fn fill_slot(
    plan: &Plan,
    place: Place,
    test: Test,
    before: &[u64; WORDS],
    quorum: u32,
    spare: &mut [u64; WORDS],
    slot: &mut [u64; WORDS],
) -> u32
    requires le_size { (1 ≤ place.letters) × (place.letters < templates.size plan.now.search.template) }
    requires tests_last { TestsLast plan.now.search.template plan.now.layout.lengths.now plan.now.letters.now place.letters place.number test.row.now test.by.places }
    requires slot { Slot plan.now.search.template plan.now.layout.lengths.now plan.now.letters.now before.now (place.letters - 1) (place.number / base_of plan.now.search.template) }
    ensures lower_bound { support (parts plan.now.search.template place.letters place.number) (sequences plan.now.letters.now plan.now.layout.lengths.now) ≤ result }
    ensures value { quorum ≤ result → result ≡ support (parts plan.now.search.template place.letters place.number) (sequences plan.now.letters.now plan.now.layout.lengths.now) }
    ensures slot_2 { quorum ≤ result → Slot plan.now.search.template plan.now.layout.lengths.now plan.now.letters.now slot.new place.letters place.number }
{
    let found = extend(plan, place, test, before, quorum, slot);
    if found < quorum {
        return found;
    }
    end_slot(plan, place.letters, spare, slot);
    found
}

// The same for a prefix whose path stands in the slots: with its own slot there is the path to each candidate that has one letter more.
fn push(
    made: &Made,
    place: Place,
    quorum: u32,
    slots: &mut [[u64; WORDS]; SLOTS],
    spare: &mut [u64; WORDS],
) -> u32
    requires le_size { (1 ≤ place.letters) × (place.letters < made.now.plan.depth) }
    requires path { Path made.now.plan.search.template made.now.plan.layout.lengths.now made.now.plan.letters.now slots.old place.letters place.number }
    ensures lower_bound { support (parts made.now.plan.search.template place.letters place.number) (sequences made.now.plan.letters.now made.now.plan.layout.lengths.now) ≤ result }
    ensures value { quorum ≤ result → result ≡ support (parts made.now.plan.search.template place.letters place.number) (sequences made.now.plan.letters.now made.now.plan.layout.lengths.now) }
    ensures path_2 { quorum ≤ result → (x : ℕ) → x < base_of made.now.plan.search.template → Path made.now.plan.search.template made.now.plan.layout.lengths.now made.now.plan.letters.now slots.new (place.letters + 1) (place.number * base_of made.now.plan.search.template + x) }
    ensures path_3 { Path made.now.plan.search.template made.now.plan.layout.lengths.now made.now.plan.letters.now slots.new place.letters place.number }
{
    let test = test_for(made, place);
    let size = place.letters as usize;
    let (below, rest) = slots.split_at_mut(size);
    fill_slot(
        &made.plan,
        place,
        test,
        &below[size - 1],
        quorum,
        spare,
        &mut rest[0],
    )
}

// Examines a candidate whose path stands in the slots, and answers its support. Where that reaches `quorum`, there is then the path to each
// candidate that has one letter more, or, of a whole motif, its row in `work`. Where it is below, a number may be answered that is below it
// too. The slots and the two rows are tables of their own, and no struct: a part of one field lent by `&` beside another field lent by
// `&mut` is not covered by the check.
pub fn examine(
    made: &Made,
    place: Place,
    quorum: u32,
    slots: &mut [[u64; WORDS]; SLOTS],
    work: &mut [u64; WORDS],
    spare: &mut [u64; WORDS],
) -> u32
    requires le_size { (1 ≤ place.letters) × (place.letters ≤ made.now.plan.depth) }
    requires path { Path made.now.plan.search.template made.now.plan.layout.lengths.now made.now.plan.letters.now slots.old place.letters place.number }
    ensures lower_bound { support (parts made.now.plan.search.template place.letters place.number) (sequences made.now.plan.letters.now made.now.plan.layout.lengths.now) ≤ result }
    ensures value { quorum ≤ result → result ≡ support (parts made.now.plan.search.template place.letters place.number) (sequences made.now.plan.letters.now made.now.plan.layout.lengths.now) }
    ensures path_2 { quorum ≤ result → place.letters < made.now.plan.depth → (x : ℕ) → x < base_of made.now.plan.search.template → Path made.now.plan.search.template made.now.plan.layout.lengths.now made.now.plan.letters.now slots.new (place.letters + 1) (place.number * base_of made.now.plan.search.template + x) }
    ensures row { quorum ≤ result → place.letters ≡ made.now.plan.depth → Row (prefix_starts made.now.plan.search.template place.letters place.number) made.now.plan.layout.lengths.now made.now.plan.letters.now work.new }
    ensures path_3 { Path made.now.plan.search.template made.now.plan.layout.lengths.now made.now.plan.letters.now slots.new place.letters place.number }
{
    if place.letters < made.plan.depth {
        return push(made, place, quorum, slots, spare);
    }
    support(made, place, slots, quorum, work)
}

// The prefix of a place that has so many letters.
fn prefix(profile: Profile, place: Place, letters: u8) -> Place
    requires { letters ≤ place.letters }
    ensures { result ≡ record { letters = letters; number = place.number / (profile_by profile).base ^ (place.letters - letters) } }
{
    let left = (place.letters - letters) as u32;
    Place {
        letters,
        number: profile.prefix(place.number, left),
    }
}

// Makes the rows of the path to the search's place, from the first slot on, and answers the support of the prefix one letter shorter, if it
// has a letter.
pub fn replay(
    made: &Made,
    slots: &mut [[u64; WORDS]; SLOTS],
    spare: &mut [u64; WORDS],
) -> Option<u32>
    requires le_letters { (1 ≤ made.now.plan.search.place.letters) × (made.now.plan.search.place.letters ≤ templates.size made.now.plan.search.template) × (made.now.plan.search.place.number < base_of made.now.plan.search.template ^ made.now.plan.search.place.letters) }
    ensures none { made.now.plan.search.place.letters ≡ 1 → result ≡ None }
    ensures value { 2 ≤ made.now.plan.search.place.letters → result ≡ Some (support (parts made.now.plan.search.template (made.now.plan.search.place.letters - 1) (made.now.plan.search.place.number / base_of made.now.plan.search.template)) (sequences made.now.plan.letters.now made.now.plan.layout.lengths.now)) }
    ensures path { Path made.now.plan.search.template made.now.plan.layout.lengths.now made.now.plan.letters.now slots.new made.now.plan.search.place.letters made.now.plan.search.place.number }
{
    let place = made.plan.search.place;
    let profile = made.plan.search.template.profile;
    first_slot(&made.plan, &mut slots[0]);
    let mut found: Option<u32> = None;
    for d in 1..place.letters {
        found = Some(push(made, prefix(profile, place, d), 0, slots, spare));
    }
    found
}

// Fills the slot of a prefix from that of the one a letter shorter, and answers its support. `bases` has the rows of the four letters of
// a sequence; `letter` is lent for that of the prefix's last one, and then for the gap.
fn take_turn(
    plan: &Plan,
    place: Place,
    bases: &[[u64; WORDS]],
    letter: &mut [u64; WORDS],
    before: &[u64; WORDS],
    slot: &mut [u64; WORDS],
) -> u32
    requires le_size { (1 ≤ place.letters) × (place.letters < templates.size plan.now.search.template) }
    requires base_rows { BaseRows plan.now.layout.lengths.now plan.now.letters.now bases.now }
    requires slot { Slot plan.now.search.template plan.now.layout.lengths.now plan.now.letters.now before.now (place.letters - 1) (place.number / base_of plan.now.search.template) }
    ensures value { result ≡ support (parts plan.now.search.template place.letters place.number) (sequences plan.now.letters.now plan.now.layout.lengths.now) }
    ensures slot_2 { Slot plan.now.search.template plan.now.layout.lengths.now plan.now.letters.now slot.new place.letters place.number }
{
    let below = place.letters as usize - 1;
    let by = Shift {
        places: plan.inside[below].letter as usize,
    };
    let profile = plan.search.template.profile;
    letter_row(profile.last(place.number), bases, letter);
    let found = extend(plan, place, Test { row: letter, by }, before, 0, slot);
    end_slot(plan, place.letters, letter, slot);
    found
}

// The support of the prefix of the search's place that is one letter shorter, if it has a letter: the prefixes one after another, in two
// slots, the first of which is at first that of the prefix with no letters.
// It stands beside `replay`: one walk for both, which takes the step as a closure, is no plainer, as its contract would have to say what
// steps make of slots that it does not see.
pub fn shorter(
    plan: &Plan,
    bases: &[[u64; WORDS]],
    letter: &mut [u64; WORDS],
    even: &mut [u64; WORDS],
    odd: &mut [u64; WORDS],
) -> Option<u32>
    requires le_letters { (1 ≤ plan.now.search.place.letters) × (plan.now.search.place.letters ≤ templates.size plan.now.search.template) × (plan.now.search.place.number < base_of plan.now.search.template ^ plan.now.search.place.letters) }
    requires base_rows { BaseRows plan.now.layout.lengths.now plan.now.letters.now bases.now }
    requires slot { Slot plan.now.search.template plan.now.layout.lengths.now plan.now.letters.now even.old 0 0 }
    ensures none { plan.now.search.place.letters ≡ 1 → result ≡ None }
    ensures value { 2 ≤ plan.now.search.place.letters → result ≡ Some (support (parts plan.now.search.template (plan.now.search.place.letters - 1) (plan.now.search.place.number / base_of plan.now.search.template)) (sequences plan.now.letters.now plan.now.layout.lengths.now)) }
{
    let place = plan.search.place;
    let profile = plan.search.template.profile;
    let mut before = &mut *even;
    let mut slot = &mut *odd;
    let mut found: Option<u32> = None;
    for d in 1..place.letters {
        let prefix = prefix(profile, place, d);
        found = Some(take_turn(plan, prefix, bases, letter, before, slot));
        (before, slot) = (slot, before);
    }
    found
}

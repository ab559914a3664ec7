// A template from and to numbers: its kind of search, length, low and high of each of its slots in turn, and the allowance of each.
ghost use Rattle.std.specs.Prelude.{◌≡◌, ◌*◌, get_or};
ghost use Rattle.exports.specs.Shape.{slot_at, shaped_template, shape_of, allowances_of, fill};
ghost use Rattle.rules.specs.Template.{allowing};

use rules::{Component, Profile, Template};

// The numbers of a shape: three for each slot that there is.
const SIZE: usize = 3 * Template::COMPONENTS as usize;

// The number at an index of a shape, and 0 past its end: a name for the library's chain, as `ways` has one for its width. A generic of both
// would have to stand in `rules`, among the paper's types.
fn at(shape: &[u16], i: usize) -> u16
    ensures { result ≡ get_or shape.now i 0 }
{
    shape.get(i).copied().unwrap_or(0)
}

// Slot i, from 0: its three numbers in the shape, and its allowance.
#[tactic(auto, unfolding(crate::specs::Shape::slot_at))]
fn slot(shape: &[u16], allowances: &[u16], i: u8) -> Component
    ensures { result ≡ allowing (get_or allowances.now i 0) (slot_at shape.now (3 * i)) }
{
    let from = 3 * usize::from(i);
    let length = at(shape, from);
    let low = at(shape, from + 1);
    let high = at(shape, from + 2);
    Component::new(length, low, high).allowing(at(allowances, usize::from(i)))
}

// The template of a profile, so many components, a shape and allowances.
#[tactic(auto, unfolding(crate::specs::Shape::shaped_template))]
pub fn read(profile: u16, components: u16, shape: &[u16], allowances: &[u16]) -> Template
    ensures { result ≡ shaped_template profile components shape.now allowances.now }
{
    let profile = Profile::of(u64::from(profile));
    let [c1, c2, c3, c4, c5, c6] = [0, 1, 2, 3, 4, 5].map(|i| slot(shape, allowances, i));
    Template::new(profile, components, c1, c2, c3, c4, c5, c6)
}

// The shape of a template.
#[tactic(auto, unfolding(crate::specs::Shape::shape_of, rules::specs::Lists::each))]
fn numbers(t: Template) -> [u16; SIZE]
    ensures { result ≡ shape_of t }
{
    let mut all = [0; SIZE];
    for (i, c) in t.components().iter().enumerate() {
        all[3 * i..3 * i + 3].copy_from_slice(&[c.length, c.low, c.high]);
    }
    all
}

// Copies numbers to the front of a table, as many as it has room for.
fn copy(from: &[u16], to: &mut [u16])
    ensures { to.new ≡ fill from.now to.old }
{
    let n = from.len().min(to.len());
    to[..n].copy_from_slice(&from[..n]);
}

// Writes the shape of a template and the allowances of its slots, of each as many numbers as there is room for.
#[tactic(auto, unfolding(crate::specs::Shape::allowances_of))]
pub fn write(t: Template, shape: &mut [u16], allowances: &mut [u16])
    ensures shape_after { shape.new ≡ fill (shape_of t) shape.old }
    ensures allowances_after { allowances.new ≡ fill (allowances_of t) allowances.old }
{
    copy(&numbers(t), shape);
    copy(&t.components().map(|c| c.allowance), allowances);
}

// The first two lines of the input: numbers, and a template's components.
ghost use Rattle.std.specs.Prelude.{true, ◌≡◌, ◌<◌, ◌≤◌, ◌^◌, length, IfSome};
ghost use Rattle.rules.specs.Limits.{text_bytes, text_quorum_digits};
ghost use Rattle.rules.specs.Lists.{all_pass};
ghost use Rattle.rules.specs.Text.{pieces, is_in_range, is_number_text, digits, is_run, parse_number, parse_ranged, parse_component, parse_first, parse_components, template_of};
ghost use Rattle.text.specs.Parsed.{told_parse, parsed_by};

use super::pieces::{first_piece, in_two};
use rules::{Component, Profile, Template, Text};

// Whether the text is a number: 1 to `most` digits, with no leading zero but 0 itself.
fn is_number(most: usize, text: &[u8]) -> bool
    ensures { result ≡ is_number_text most text.now }
{
    let digits = text.iter().all(|b| b.is_ascii_digit());
    let leading = text.starts_with(b"0");
    (1 <= text.len()) & (text.len() <= most) & digits & ((text.len() == 1) | !leading)
}

// The number that some digits make.
fn value(text: &[u8]) -> u64
    requires { (all_pass (is_in_range 48 57) text.now ≡ true) × (length text.now ≤ text_quorum_digits) }
    ensures { (result ≡ digits text.now) × (result < 10 ^ length text.now) }
{
    let mut value = 0;
    for digit in text {
        value = 10 * value + u64::from(*digit - b'0');
    }
    value
}

// A number of at most `most` digits.
pub(crate) fn parse_number(most: usize, text: &[u8]) -> Option<u64>
    requires { most ≤ text_quorum_digits }
    ensures value { told_parse result ≡ parse_number most text.now }
    ensures bound { IfSome result (λ n. n < 10 ^ most) }
{
    if is_number(most, text) {
        Some(value(text))
    } else {
        None
    }
}

// Whether the text is a run of at least one N.
fn is_run(text: &[u8]) -> bool
    ensures { result ≡ is_run text.now }
{
    !text.is_empty() & text.iter().all(|b| *b == b'N')
}

// A component from its lower limit's text and all that follows the comma.
fn parse_ranged(low: &[u8], rest: &[u8]) -> Option<Component>
    requires { length rest.now < 2 ^ 16 }
    ensures { told_parse result ≡ parse_ranged low.now (pieces 93 rest.now) }
{
    let (high, run) = in_two(b']', rest)?;
    let least = parse_number(Text::GAP_DIGITS, low)?;
    let most = parse_number(Text::GAP_DIGITS, high)?;
    if !is_run(run) {
        return None;
    }
    Some(Component::new(run.len() as u16, least as u16, most as u16))
}

// A component after the first, from the text after its [.
#[tactic(auto, unfolding(rules::specs::Text::parse_component))]
fn parse_component(text: &[u8]) -> Option<Component>
    requires { length text.now < 2 ^ 16 }
    ensures { told_parse result ≡ parse_component text.now }
{
    let (low, rest) = in_two(b',', text)?;
    parse_ranged(low, rest)
}

// The first component, which has no gap range before it.
#[tactic(auto, unfolding(rules::specs::Text::parse_first))]
fn parse_first(text: &[u8]) -> Option<Component>
    requires { length text.now < 2 ^ 16 }
    ensures { told_parse result ≡ parse_first text.now }
{
    if is_run(text) {
        Some(Component::new(text.len() as u16, 0, 0))
    } else {
        None
    }
}

// The template that a line says. Components that have no slot are counted.
pub(crate) fn parse_template(text: &[u8]) -> Option<Template>
    requires { length text.now ≤ text_bytes }
    ensures { told_parse result ≡ parsed_by template_of (parse_components text.now) }
{
    let mut slots = [Component::none(); Template::COMPONENTS as usize];
    let (first, mut rest) = first_piece(b'[', text);
    slots[0] = parse_first(first)?;
    let mut count = 1;
    // No `for` over `text.split(..)`: its proof did not close, since that iterator holds a closure.
    while let Some(pieces) = rest {
        let (piece, others) = first_piece(b'[', pieces);
        let component = parse_component(piece)?;
        if count < slots.len() {
            slots[count] = component;
        }
        count += 1;
        rest = others;
    }
    let [c1, c2, c3, c4, c5, c6] = slots;
    Some(Template::new(Profile::Exact, count as u16, c1, c2, c3, c4, c5, c6))
}

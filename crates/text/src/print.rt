// Printing: each method of a printer writes its text behind what it wrote before.
ghost use Rattle.std.specs.Prelude.{◌≡◌, [], ◌∷◌, ◌++◌, ◌+◌, ◌*◌, ◌≤◌, length, take};
ghost use Rattle.rules.specs.Limits.{template_letters};
ghost use Rattle.rules.specs.Text.{decimal, print_motif, print_end, print_refused};
ghost use Rattle.rules.specs.Sound.{SoundTemplate};
ghost use Rattle.text.specs.Printed.{line_room, WroteLine, Prints, HasRoom, HasLine, number_pair, motif_letters, ranged_word, size_from, shape_from, row, printed_page, Page};

use super::read::copy_part;
use rules::{Component, Letter, Motif, Template};

// Room for the longest line that is printed. Each function that prints one asks for it by a clause: a type of a lent buffer that is long
// enough would want a clause too, that it is still the caller's.
pub const LINE: usize = 256;

// A buffer, and the place up to which it is written.
#[derive(Drop)]
struct Printer<'a> {
    out: &'a mut [u8],
    at: usize,
}

impl<'a> Printer<'a> {
    // Some bytes, as they are.
    fn bytes(&mut self, text: &[u8])
        requires { HasRoom text.now self.old }
        ensures { Prints text.now self.old self.new }
    {
        self.at = copy_part(text, self.at, self.out);
    }

    // A byte.
    fn byte(&mut self, b: u8)
        requires { HasRoom (b ∷ []) self.old }
        ensures { Prints (b ∷ []) self.old self.new }
    {
        self.out[self.at] = b;
        self.at += 1;
    }

    // A number in its digits: those of its tenth part, and the last one.
    fn number(&mut self, n: u64)
        requires { HasRoom (decimal n) self.old }
        ensures { Prints (decimal n) self.old self.new }
    {
        let last = b'0' + (n % 10) as u8;
        if n < 10 {
            self.byte(last);
            return;
        }
        self.number(n / 10);
        self.byte(last);
    }

    // Two numbers, with a byte before, between and after them.
    fn pair(&mut self, before: u8, a: u64, between: u8, b: u64, after: u8)
        requires { HasRoom (number_pair before a between b after) self.old }
        ensures { Prints (number_pair before a between b after) self.old self.new }
    {
        self.byte(before);
        self.number(a);
        self.byte(between);
        self.number(b);
        self.byte(after);
    }

    // The first `n` of the last `left` letters of a motif.
    fn letters(&mut self, motif: u64, left: u64, n: u64)
        requires { (n ≤ left) × (left ≤ template_letters) × HasRoom (motif_letters n left motif) self.old }
        ensures { Prints (motif_letters n left motif) self.old self.new }
    {
        for i in 0..n {
            let after = left - 1 - i;
            self.byte(Letter::byte((motif >> (Letter::BITS * after)) % Letter::BASES));
        }
    }

    // A component after the first: its gap range and its letters, the first of the last `left` of the motif.
    fn component(&mut self, c: Component, motif: u64, left: u64)
        requires { (c.length ≤ left) × (left ≤ template_letters) × HasRoom (ranged_word c left motif) self.old }
        ensures { Prints (ranged_word c left motif) self.old self.new }
    {
        self.pair(b'[', u64::from(c.low), b',', u64::from(c.high), b']');
        self.letters(motif, left, u64::from(c.length));
    }

    // The components after the first, which have the last `left` letters of the motif.
    fn rest(&mut self, motif: Motif, left: u64)
        requires { (left ≡ size_from motif.template 1) × HasRoom (shape_from motif.template 1 motif.number) self.old }
        ensures { Prints (shape_from motif.template 1 motif.number) self.old self.new }
    {
        let slots = motif.template.components();
        let mut left = left;
        for i in 1..usize::from(motif.template.count) {
            let c = slots[i];
            self.component(c, motif.number, left);
            left -= u64::from(c.length);
        }
    }

    // A motif in the template's shape.
    fn motif(&mut self, motif: Motif)
        requires { HasLine self.old }
        ensures { Prints (print_motif motif.template motif.number) self.old self.new }
    {
        let all = u64::from(motif.template.letters());
        let first = u64::from(motif.template.c1.length);
        self.letters(motif.number, all, first);
        self.rest(motif, all - first);
    }

    // A row: the motif in the template's shape, its support and its weighted support.
    fn row(&mut self, motif: Motif, support: u32, weight: u64)
        requires { HasLine self.old }
        ensures row { Prints (row motif.template motif.number support weight) self.old self.new }
        ensures short { self.new.at ≤ self.old.at + line_room }
    {
        self.motif(motif);
        self.pair(b' ', u64::from(support), b' ', weight, b'\n');
    }
}

// A row alone.
pub fn print_row(template: Template, motif: u64, support: u32, weight: u64, out: &mut [u8]) -> usize
    requires { SoundTemplate template × (line_room ≤ length out.old) }
    ensures { WroteLine (row template motif support weight) out.old out.new result }
{
    let mut line = Printer { out, at: 0 };
    let number = motif;
    line.row(Motif { template, number }, support, weight);
    line.at
}

// A page: the lines of the first `rows` rows of three tables, which hold motifs, their supports and their weighted supports: apart, as a
// leg fills them for C.
pub fn print_page(
    template: Template,
    motifs: &[u64],
    supports: &[u32],
    weights: &[u64],
    rows: usize,
    out: &mut [u8],
) -> usize
    requires sound_template { 1 ≤ rows → SoundTemplate template }
    requires rows_in_bounds { (rows ≤ length motifs.now) × (rows ≤ length supports.now) × (rows ≤ length weights.now) }
    requires rows_in_bounds_2 { rows * line_room ≤ length out.old }
    ensures { Page rows (printed_page template (take rows motifs.now) (take rows supports.now) (take rows weights.now)) out.old out.new result }
{
    let mut page = Printer { out, at: 0 };
    for i in 0..rows {
        let number = motifs[i];
        page.row(Motif { template, number }, supports[i], weights[i]);
    }
    page.at
}

// A line of a short word and two numbers, of at most 20 digits each: as room a line has more than it needs where the word is no longer
// than a motif's shape can be, 77 bytes.
fn print_line(word: &[u8], a: u64, b: u64, out: &mut [u8]) -> usize
    requires { (length word.now ≤ 77) × (line_room ≤ length out.old) }
    ensures { WroteLine (word.now ++ number_pair 32 a 32 b 10) out.old out.new result }
{
    let mut line = Printer { out, at: 0 };
    line.bytes(word);
    line.pair(b' ', a, b' ', b, b'\n');
    line.at
}

// The last line: "end", the steps, the rows.
pub fn print_end(steps: u64, rows: u64, out: &mut [u8]) -> usize
    requires { line_room ≤ length out.old }
    ensures { WroteLine (print_end steps rows) out.old out.new result }
{
    print_line(b"end", steps, rows, out)
}

// The only line of a refusal: "refused", its number, its place.
pub fn print_refused(number: u64, place: u64, out: &mut [u8]) -> usize
    requires { line_room ≤ length out.old }
    ensures { WroteLine (print_refused number place) out.old out.new result }
{
    print_line(b"refused", number, place, out)
}

// The printing program: it reads a template, a quorum and sequences from standard input, and prints the frequent motifs as they
// are found and then the end line, or one refusal. What it prints is proved page by page (`pages`); that each page is written
// and none twice is this file's to do, since what a write does to the outside has no contract.
#![tactic(auto)]

mod input;
mod pages;

ghost use Rattle.motifs.specs.Left.{told_left};
ghost use Rattle.motifs.specs.Pages.{Printable};

use input::{Input, Tables};
use pages::{Left, Pages};
use rules::{Sequences, Text};
use stdin::{not_read, read_all};

// Writes what is left, one page after another, and stops where a write failed.
fn write_pages(rt: &impl Print, set: &Sequences, first: Left)
    requires { Printable set.now.letters.now set.now.lengths.now (told_left first) }
{
    let mut pages = Pages::new(set);
    let mut left = Some(first);
    // From what is left to what a page leaves, which is known once it is written.
    while let Some(now) = left {
        let page = pages.next(now);
        let wrote = rt.write_all(&pages.out[..page.length]).is_ok();
        left = page.if_written(wrote);
    }
}

// Answers an input.
fn answer(rt: &impl Print, input: &[u8], tables: &mut Tables) {
    let Input { begun, read } = input::read(input, tables);
    write_pages(rt, &tables.front(read), Left::opening(begun));
}

fn main(rt: HostRuntime) {
    let mut input = [0u8; Text::BYTES + 1];
    match read_all(&mut rt.stdin(), &mut input) {
        Ok(n) => {
            let mut tables = Tables {
                letters: [0; Text::BYTES],
                lengths: [0; Text::BYTES],
            };
            answer(&rt, &input[..n], &mut tables);
        }
        Err(_) => not_read(&rt.stderr(), b"motifs"),
    }
}

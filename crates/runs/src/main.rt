// The facts that are run: each side of every limit, every byte as a letter, only empty sequences, and the worked example of
// Zhang and Zaki. What each new search answers is printed, and where it is accepted a first leg of it.
#![tactic(auto)]

mod tell;

use rules::{Component, Offset, Profile, SequenceSet, Sequences, Template};
use std::fmt::Display;

// What a search is begun over: the letters and the lengths apart, since a fact changes one of them.
#[derive(Clone, Copy)]
struct Case<'a> {
    letters: &'a [u8],
    lengths: &'a [u32],
    template: Template,
    quorum: u64,
}

impl<'a> Case<'a> {
    // Begins the search, and tells what it answers.
    fn tell(self, rt: &impl Print, what: impl Display + Drop) {
        let _ = print!(rt; "{what}");
        let Case {
            letters,
            lengths,
            ..
        } = self;
        let set = Sequences { letters, lengths };
        let begun = search::begin(&set, self.template, self.quorum);
        tell::begun(rt, &set, begun);
    }
}

// A template of the first of six components, of which the last three have one letter and no gap.
fn template(count: u16, [c1, c2, c3]: [Component; 3]) -> Template {
    let c = Component::new(1, 0, 0);
    Template::new(Profile::Exact, count, c1, c2, c3, c, c, c)
}

// Two components of one letter, with the range before each.
fn gaps(before: [(u16, u16); 2]) -> Template {
    let [first, second] = before.map(|(low, high)| Component::new(1, low, high));
    template(2, [first, second, Component::none()])
}

// Components of the lengths given, with no gap.
fn words(count: u16, lengths: [u16; 3]) -> Template {
    template(count, lengths.map(|length| Component::new(length, 0, 0)))
}

// One letter, and after at most one more another, in two of three sequences: N[0,1]N. Each fact but the last is this with a change.
fn short() -> Case<'static> {
    let c = Component::new(1, 0, 0);
    Case {
        letters: b"ACGTACAGGTAT",
        lengths: &[5, 5, 2],
        template: template(2, [c, Component::new(1, 0, 1), c]),
        quorum: 2,
    }
}

// As many empty sequences as there may be, one more, and none.
fn sequences(rt: &impl Print) {
    let empty = [0; SequenceSet::SEQUENCES + 1];
    for n in [SequenceSet::SEQUENCES, SequenceSet::SEQUENCES + 1, 0] {
        Case {
            letters: b"",
            lengths: &empty[..n],
            quorum: 1,
            ..short()
        }
        .tell(rt, format_args!("{n} sequences"));
    }
}

// One sequence of as many letters as there may be, and of one more.
fn letters(rt: &impl Print) {
    let letters = [b'A'; SequenceSet::LETTERS + 1];
    for n in [SequenceSet::LETTERS, SequenceSet::LETTERS + 1] {
        Case {
            letters: SequenceSet::part(&letters, Offset(0), Offset(n)),
            lengths: &[n as u32],
            quorum: 1,
            ..short()
        }
        .tell(rt, format_args!("{n} letters"));
    }
}

fn lengths(rt: &impl Print) {
    for (what, lengths) in [
        ("lengths 5, 5, 2 of 12 letters", [5, 5, 2]),
        ("lengths 5, 5, 1", [5, 5, 1]),
        ("lengths 5, 5, 3", [5, 5, 3]),
        (
            "lengths 4294967295, 4294967295, 14",
            [4294967295, 4294967295, 14],
        ),
    ] {
        Case {
            lengths: &lengths,
            ..short()
        }
        .tell(rt, what);
    }
}

fn templates(rt: &impl Print) {
    for (what, template) in [
        ("0 components", words(0, [1, 1, 1])),
        ("6 components", words(6, [1, 1, 1])),
        ("7 components", words(7, [1, 1, 1])),
        ("component lengths 12, 12, 8", words(3, [12, 12, 8])),
        ("component lengths 12, 12, 9", words(3, [12, 12, 9])),
        ("component lengths 12, 0, 1", words(3, [12, 0, 1])),
        ("component lengths 12, 13, 1", words(3, [12, 13, 1])),
        ("component lengths 13, 0, 1", words(3, [13, 0, 1])),
        ("gap range 0, 255", gaps([(0, 0), (0, 255)])),
        ("gap range 0, 256", gaps([(0, 0), (0, 256)])),
        ("gap range 3, 3", gaps([(0, 0), (3, 3)])),
        ("gap range 4, 3", gaps([(0, 0), (4, 3)])),
        ("gap range 0, 1 before the first", gaps([(0, 1), (0, 1)])),
        ("gap range 1, 1 before the first", gaps([(1, 1), (0, 1)])),
    ] {
        Case {
            template,
            ..short()
        }
        .tell(rt, what);
    }
}

fn quorums(rt: &impl Print) {
    for quorum in [0, 1, 3, 4] {
        Case { quorum, ..short() }.tell(rt, format_args!("quorum {quorum} of 3"));
    }
}

// Each byte, after a letter.
fn bytes(rt: &impl Print) {
    for b in 0..=255u8 {
        Case {
            letters: &[b'A', b],
            lengths: &[2],
            quorum: 1,
            ..short()
        }
        .tell(rt, format_args!("A and byte {b}"));
    }
}

// Zhang and Zaki's example, their Table 1: four sequences, NNN[0,3]NN[1,3]NNNN, quorum 2; and every occurrence of its motif
// CCG[0,3]TA[1,3]GAAC, whose number is 93313.
fn example(rt: &impl Print) {
    let letters = b"CCGTACCGAACCTCAAACCGTTATAGGAACCATTTATGGAACCATCTTTAACGGATCCCTTT";
    let lengths = [17, 17, 14, 14];
    let components = [
        Component::new(3, 0, 0),
        Component::new(2, 0, 3),
        Component::new(4, 1, 3),
    ];
    let template = template(3, components);
    Case {
        letters,
        lengths: &lengths,
        template,
        quorum: 2,
    }
    .tell(rt, "example");
    let set = Sequences {
        letters,
        lengths: &lengths,
    };
    let mut out = [0u32; 16];
    let _ = print!(rt; "example, motif 93313");
    let recovered = recovery::recover(&set, template, 93313, 0, &mut out);
    tell::recovered(rt, recovered, &out);
}

fn main(rt: HostRuntime) {
    sequences(&rt);
    letters(&rt);
    lengths(&rt);
    templates(&rt);
    quorums(&rt);
    bytes(&rt);
    example(&rt);
}

// Cuts FASTA to the printing program's lines: it reads a file from standard input and prints one sequence a line, or one refusal.
// What it prints is proved to be what the rules say, whole (`print`); that it is written once is this file's to do, since what a
// write does to the outside has no contract.
#![tactic(auto)]

mod print;

ghost use Rattle.std.specs.Prelude.{◌≡◌, ◌+◌, length};
ghost use Rattle.rules.specs.Limits.{fasta_bytes};
ghost use Rattle.text.specs.Printed.{line_room};

use print::{BYTES, print_lines};
use stdin::{not_read, read_all};

// Room for a file and a little more, so that one that is too long shows, or for a printout. The `ensures` gives only the length:
// no proof looks into that many bytes.
fn room() -> [u8; BYTES]
    ensures { fasta_bytes + line_room ≡ length result }
{
    [0; BYTES]
}

// Says that the printout was not written whole.
fn check_written(errors: &impl Print, wrote: bool) {
    if !wrote {
        let _ = errors.write_all(b"lines: standard output cannot be written\n");
    }
}

// Answers a file.
fn answer(rt: &impl Print, errors: &impl Print, file: &[u8], out: &mut [u8; BYTES]) {
    let n = print_lines(file, out);
    let wrote = rt.write_all(&out[..n]).is_ok();
    check_written(errors, wrote);
}

fn main(rt: HostRuntime) {
    let mut file = room();
    let came = read_all(&mut rt.stdin(), &mut file);
    match came {
        Ok(n) => {
            let mut out = room();
            answer(&rt, &rt.stderr(), &file[..n], &mut out);
        }
        Err(_) => not_read(&rt.stderr(), b"lines"),
    }
}

// Standard input, read to its end. What a read does is the system's: its contract says how many bytes it moved, or that it failed,
// and of standard input nothing of the bytes. An inner crate, of the programs.
#![tactic(auto)]

ghost use Rattle.std.specs.Prelude.{◌≡◌, ℕ, ◌+◌, ◌≤◌, ◌<◌, take, length, IfOk, OnErr};
ghost use Rattle.std.specs.Io.KnownBytes.{Consumes, IsAtEnd};
ghost use Rattle.stdin.specs.Came.{came_after};

use std::io;
use std::io::Read;

// What came to the front of a buffer: so many bytes, and whether they are all that there are, or that the buffer has room for.
#[derive(Clone, Copy)]
struct Came {
    bytes: usize,
    all: bool,
}

// What came, after a read behind the first n bytes of a buffer answered `got`. A read that failed is told as failed, and no other.
fn after(n: usize, got: io::Result<usize>, room: usize) -> io::Result<Came>
    requires { IfOk got (λ k. n + k ≤ room) }
    ensures { result ≡ came_after room n got }
{
    let moved = got?;
    let bytes = n + moved;
    Ok(Came {
        bytes,
        all: (moved == 0) | (bytes == room),
    })
}

// Reads until the input ends, the buffer is full or a read fails, and answers how many bytes came to the front of the buffer. A
// failed read is not the input's end: what came before it may look whole and is not. It stands at the front of the buffer, which is
// not full then, and the input gave up nothing else.
#[tactic(auto, using(crate::proofs::ReadByRead::read_more, crate::proofs::ReadByRead::read_failed))]
pub fn read_all<R: Read>(input: &mut R, buffer: &mut [u8]) -> io::Result<usize>
    ensures room { IfOk result (λ n. n ≤ length buffer.old) }
    ensures bytes { IfOk result (λ n. Consumes (R.remaining input.old) (R.remaining input.new) (take n buffer.new)) }
    ensures end { IfOk result (λ n. n < length buffer.old → IsAtEnd (R.remaining input.new)) }
    ensures failed { OnErr result ((n : ℕ) × (n < length buffer.old) × Consumes (R.remaining input.old) (R.remaining input.new) (take n buffer.new)) }
{
    let mut came = Came {
        bytes: 0,
        all: buffer.is_empty(),
    };
    // It adds up how much each read moved; `read_to_end` would want a heap.
    while !came.all {
        let got = input.read(&mut buffer[came.bytes..]);
        came = after(came.bytes, got, buffer.len())?;
    }
    Ok(came.bytes)
}

// A program says on standard error that its input failed.
pub fn not_read(errors: &impl Print, program: &[u8]) {
    let _ = errors.write_all(program);
    let _ = errors.write_all(b": standard input cannot be read\n");
}

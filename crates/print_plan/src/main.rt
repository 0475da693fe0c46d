// The print program: reads a sheet from standard input, plans it with 4,096 cells, and prints the plan or the refusal.
#![tactic(auto)]

ghost use Rattle.std.specs.Prelude.{◌≤◌, ◌<◌, length, take, IfOk, ℕ};
ghost use Rattle.std.specs.Result.{IfErr};
ghost use Rattle.std.specs.Io.KnownBytes.{Consumes, IsAtEnd};

use std::io::{self, Read, Write};

// One byte more than the longest sheet has: a longer input is cut there, and refused all the same.
const INPUT_BYTES: usize = 9639;

const CELLS: usize = 4096;

// Reads until the buffer is full, the input ends or a read fails, and answers how many bytes were read.
// After a failed read the reader has lost just the bytes that stand in front of the buffer.
fn read_input<R: Read>(input: &mut R, buf: &mut [u8]) -> io::Result<usize>
    ensures within { IfOk result (λ n. n ≤ length buf.new) }
    ensures bytes { IfOk result (λ n. Consumes (R.remaining input.old) (R.remaining input.new) (take n buf.new)) }
    ensures failed { IfErr result (λ _. (n : ℕ) × (n ≤ length buf.new) × Consumes (R.remaining input.old) (R.remaining input.new) (take n buf.new)) }
    ensures ended { IfOk result (λ n. n < length buf.new → IsAtEnd (R.remaining input.new)) }
{
    let mut done = 0;
    // No `for` counts these: each turn goes on by as many bytes as came.
    while done < buf.len() {
        let more = input.read(&mut buf[done..])?;
        if more == 0 {
            break;
        }
        done += more;
    }
    Ok(done)
}

fn main(rt: HostRuntime) {
    let mut sheet = [0u8; INPUT_BYTES];
    let Ok(n) = read_input(&mut rt.stdin(), &mut sheet) else {
        let _ = rt
            .stderr()
            .write_all(b"print_plan: standard input cannot be read\n");
        return;
    };
    let mut cells = [0u64; CELLS];
    let mut out = [0u8; text::TEXT_BYTES];
    let end = text::print(&sheet[..n], &mut cells, &mut out);
    if rt.stdout().write_all(&out[..end]).is_err() {
        let _ = rt
            .stderr()
            .write_all(b"print_plan: standard output cannot be written\n");
    }
}

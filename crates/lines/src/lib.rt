// Lines: the lines that the print program prints, one by one, each laid into a buffer.
#![tactic(auto)]

ghost use Rattle.std.specs.Prelude.{◌+◌, ◌≤◌, length};
ghost use Rattle.model.specs.Printing.{refusal_line, step_line};
ghost use Rattle.lines.specs.Lines.{labelled, line_of, head_lines, max_digits, max_head, max_step, Laid};

use decimal::{put_number, put_text};

// Each of these takes the buffer and where to begin, and answers where it ended. A cursor that holds both would be no plainer: each contract would need a clause
// more, that the cursor still holds the same buffer, and each caller a line that makes it and one that asks where it stands.

// Lays a label and a number into the buffer from byte `at` on, where there is room for any number, and answers where they end.
fn labelled(out: &mut [u8], at: usize, label: &[u8], n: u64) -> usize
    requires { at + length label.now + max_digits ≤ length out.old }
    ensures { Laid at (labelled label.now n) out.old out.new result }
{
    let behind = at + put_text(out, at, label);
    behind + put_number(out, behind, n)
}

// The same with the end of the line behind them.
fn line(out: &mut [u8], at: usize, label: &[u8], n: u64) -> usize
    requires { at + length label.now + max_digits + 1 ≤ length out.old }
    ensures { Laid at (line_of label.now n) out.old out.new result }
{
    let end = labelled(out, at, label, n);
    end + put_text(out, end, b"\n")
}

// Lays the line of a step into the buffer from byte `at` on: door, task, and the list that is open before the step.
pub fn step_line(out: &mut [u8], at: usize, door: u16, task: u16, left: u32) -> usize
    requires { at + max_step ≤ length out.old }
    ensures { Laid at (step_line door task left) out.old out.new result }
{
    let behind_door = labelled(out, at, b"door ", door as u64);
    let behind_task = labelled(out, behind_door, b" task ", task as u64);
    line(out, behind_task, b" open ", left as u64)
}

// Lays the lines of the cost and the start of a plan into the front of the buffer.
pub fn head_lines(out: &mut [u8], cost: u64, start: u16) -> usize
    requires { max_head ≤ length out.old }
    ensures { Laid 0 (head_lines cost start) out.old out.new result }
{
    let behind_cost = line(out, 0, b"cost ", cost);
    line(out, behind_cost, b"start ", start as u64)
}

// Lays the line of a refusal into the front of the buffer, which has room for the lines of cost and start.
pub fn refusal_line(out: &mut [u8], number: u32) -> usize
    requires { max_head ≤ length out.old }
    ensures { Laid 0 (refusal_line number) out.old out.new result }
{
    line(out, 0, b"refused ", number as u64)
}

// Text: all that the print program prints for a sheet, line by line.
#![tactic(auto)]

ghost use Rattle.std.specs.Prelude.{◌≡◌, ◌+◌, ◌*◌, ◌≤◌, length};
ghost use Rattle.model.specs.SheetLayout.{decode};
ghost use Rattle.model.specs.PlanLayout.{max_plan_doors};
ghost use Rattle.model.specs.Printing.{step_lines, plan_lines, printed_with, print};
ghost use Rattle.view.specs.Sheets.{sheet_of};
ghost use Rattle.lines.specs.Lines.{max_step, max_text, Laid};
ghost use Rattle.text.specs.Steps.{Steps, plan_in, Printable};

use decimal::put_text;
use view::{TaskSheet, View};

// Room for the bytes of any plan.
const PLAN_BYTES: usize = 56;

// Room for all that is printed for any sheet: the lines of cost, start and twelve steps, with 20 digits for each number.
pub const TEXT_BYTES: usize = 989;

// Lays a line for each of the doors into the buffer from byte `at` on. They complete the full list, which loses a task with each step.
fn step_lines(sheet: &TaskSheet, doors: &[u16], out: &mut [u8], at: usize) -> usize
    requires { Steps sheet.now.bytes.now doors.now × (at + max_step * max_plan_doors ≤ length out.old) }
    ensures { Laid at (step_lines (sheet_of sheet.now) doors.now) out.old out.new result }
{
    let mut left = tasklist::full(sheet.view.tasks);
    let mut end = at;
    for &d in doors {
        let t = sheet.task(d);
        let after = tasklist::without(left, t);
        end = lines::step_line(out, end, d, t, left);
        left = after;
    }
    end
}

// Lays the lines of a plan into the buffer: the cost, the start and the steps of the plan that the bytes q hold.
fn plan_lines(s: &[u8], q: &[u8], out: &mut [u8]) -> usize
    requires { Printable s.now q.now × (max_text ≤ length out.old) }
    ensures { Laid 0 (plan_lines (decode s.now) (plan_in s.now q.now)) out.old out.new result }
{
    let view = View::of(s);
    let sheet = TaskSheet { bytes: s, view };
    let x = hand::in_hand(view.tasks, q);
    let behind_head = lines::head_lines(out, x.cost, layout::start_in(q));
    step_lines(&sheet, &x.doors[..view.tasks as usize], out, behind_head)
}

// Lays all that is printed for a sheet into the buffer, which has room for any of it: the lines of its plan or of the refusal.
fn answer_lines(s: &[u8], cells: &mut [u64], out: &mut [u8]) -> usize
    requires { max_text ≤ length out.old }
    ensures text { Laid 0 (printed_with (length cells.old) s.now) out.old out.new result }
    ensures cells { cells.new ≡ (print s.now cells.old out.old).cells }
{
    let mut q = [0; PLAN_BYTES];
    match planner::plan(s, cells, &mut q) {
        Ok(_) => plan_lines(s, &q, out),
        Err(refusal) => lines::refusal_line(out, u32::from(refusal)),
    }
}

// Prints a sheet: plans it in the cells, and writes what the print program prints to the front of the buffer, if it fits. Answers how many bytes it wrote;
// a buffer that is too short stays as it is, and the answer is 0.
pub fn print(s: &[u8], cells: &mut [u64], out: &mut [u8]) -> usize
    ensures written { result ≡ (print s.now cells.old out.old).written }
    ensures bytes { out.new ≡ (print s.now cells.old out.old).bytes }
    ensures cells { cells.new ≡ (print s.now cells.old out.old).cells }
{
    let mut text = [0; TEXT_BYTES];
    let end = answer_lines(s, cells, &mut text);
    put_text(out, 0, &text[..end])
}

// Plans written as bytes and read from them.
#![tactic(auto)]

ghost use Rattle.std.specs.Prelude.{◌≡◌, length};
ghost use Rattle.model.specs.Answer.{status};
ghost use Rattle.model.specs.PlanLayout.{write_plan, read_plan, start_left, doors_left, cost_left};
ghost use Rattle.refusal.specs.Answers.{answered, answer_by};

use layout::{COST_BYTES, DOORS_AT, START_AT};
use refusal::Refusal;
use store::{write_row, write_u16, write_u64};

// Writes a plan of n doors, the first n of those lent, to the front of the buffer. Answers its length, or 12 or 21.
pub fn write(
    n: usize,
    start: u16,
    doors: &[u16],
    cost: u64,
    buf: &mut [u8],
) -> Result<usize, Refusal>
    ensures answer { answered result ≡ (write_plan n start doors.now cost buf.old).answer }
    ensures bytes { buf.new ≡ (write_plan n start doors.now cost buf.old).bytes }
{
    if layout::wrong_tasks(n, doors.len()) {
        return Err(Refusal::WrongEntries);
    }
    let tasks = n as u16;
    let length = layout::byte_length(tasks);
    if buf.len() < length {
        return Err(Refusal::ShortBuffer);
    }
    layout::write_head(buf, tasks);
    write_u16(buf, START_AT, start);
    write_row(buf, DOORS_AT, &doors[..n]);
    write_u64(buf, length - COST_BYTES, cost);
    Ok(length)
}

// Reads a plan of n doors into what was lent, or answers 12 or 30. Of the doors lent, those from n on are set to 0.
pub fn read(
    n: usize,
    q: &[u8],
    start: &mut u16,
    doors: &mut [u16],
    cost: &mut u64,
) -> Result<(), Refusal>
    ensures answer { status (answer_by (λ u. u) result) ≡ status (read_plan n (length doors.old) q.now) }
    ensures start { start.new ≡ start_left n (length doors.old) q.now start.old }
    ensures doors { doors.new ≡ doors_left n q.now doors.old }
    ensures cost { cost.new ≡ cost_left n (length doors.old) q.now cost.old }
{
    if layout::wrong_tasks(n, doors.len()) {
        return Err(Refusal::WrongEntries);
    }
    let tasks = n as u16;
    if layout::ill_formed(tasks, q) {
        return Err(Refusal::IllFormed);
    }
    *start = layout::start_in(q);
    layout::read_doors(tasks, q, doors);
    *cost = layout::cost_in(tasks, q);
    Ok(())
}

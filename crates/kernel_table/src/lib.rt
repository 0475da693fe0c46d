// The table of costs to go: a row of P cells for each list that the pairs allow, list after list in the order of their numbers.
#![tactic(auto)]

ghost use Rattle.std.specs.Prelude.{◌≡◌, ◌+◌, ◌*◌, ◌≤◌, length};
ghost use Rattle.model.specs.Folds.{map_below};
ghost use Rattle.model.specs.Bytes.{overwrite_at};
ghost use Rattle.model.specs.Sheet.{Sheet};
ghost use Rattle.model.specs.Plans.{cost_to_go};
ghost use Rattle.model.specs.Planning.{cells_needed, cells_after};
ghost use Rattle.kernel_sheet.specs.Prepared.{ReceiversOf, Prepared};
ghost use Rattle.kernel_bellman.specs.Rests.{Arrayed, Listed};
ghost use Rattle.kernel_table.specs.Cells.{Shown, Begun, backs_of, Backable, TableRests};

use kernel_bellman::{Room, Sources};
use kernel_sheet::{MAX_DOORS, Numbers};

// How far before the row of a list the cell of the rest behind each door stands. That of `kernel_layers` counts within one row, this one to another list's.
pub fn backs(x: &Numbers) -> [u32; MAX_DOORS]
    requires { Backable x.now.counts.points x.now.counts.doors x.now.doors.task x.now.doors.depart }
    ensures { result ≡ backs_of x.now.counts.points x.now.counts.doors x.now.doors.task x.now.doors.depart }
{
    let points = u32::from(x.counts.points);
    let task = &x.doors.task;
    let depart = &x.doors.depart;
    let mut back = [0; MAX_DOORS];
    for d in 0..x.counts.doors as usize {
        back[d] = (points << task[d]) - u32::from(depart[d]);
    }
    back
}

// Writes the row of the essential list k, from cells that show the lists below it. Its rests stand in the rows below its own, so the cells are cut there.
fn list_row(from: &Sources, k: u32, waiting: u32, room: &mut Room, cells: &mut [u64])
    requires { (S : Sheet) × Listed S from.now.numbers.now k waiting from.now.columns.now × TableRests S from.now.slot.now from.now.back.now × Shown S k cells.old × ((k + 1) * S.points ≤ length cells.old) }
    ensures { (S : Sheet) → Listed S from.now.numbers.now k waiting from.now.columns.now → TableRests S from.now.slot.now from.now.back.now → Shown S k cells.old → cells.new ≡ overwrite_at (k * S.points) (map_below S.points (cost_to_go S k)) cells.old }
{
    let points = from.numbers.counts.points as usize;
    let at = k as usize * points;
    let ends = [at];
    let (below, rest) = cells.split_at_mut(at);
    kernel_bellman::list_row(from, k, waiting, &ends, below, room, &mut rest[..points]);
}

// Writes the row of every essential list, in the order of their numbers, behind the end costs.
fn list_rows(from: &Sources, cells: &mut [u64])
    requires { (S : Sheet) × Arrayed S from.now.numbers.now from.now.columns.now × ReceiversOf S from.now.numbers.now.tasks.receivers × TableRests S from.now.slot.now from.now.back.now × Begun S cells.old }
    ensures { (S : Sheet) → Arrayed S from.now.numbers.now from.now.columns.now → ReceiversOf S from.now.numbers.now.tasks.receivers → TableRests S from.now.slot.now from.now.back.now → Begun S cells.old → cells.new ≡ cells_after S cells.old }
{
    let numbers = from.numbers;
    let lists = tasklist::lists(numbers.counts.tasks);
    let mut room = Room::new();
    for k in 1..lists {
        let waiting = kernel_list::waiting(&numbers.tasks.receivers, k);
        if kernel_list::has_all(k, waiting) {
            list_row(from, k, waiting, &mut room, cells);
        }
    }
}

// Fills the table: the end costs, then for every essential list its row. Every other cell stays. Kept out of its caller, in whose frame its arrays would take more of the stack.
#[inline(never)]
pub fn fill(x: &Numbers, columns: &[u64], cells: &mut [u64])
    requires { (S : Sheet) × Prepared S x.now columns.now × (cells_needed S ≤ length cells.old) }
    ensures { (S : Sheet) → Prepared S x.now columns.now → cells.new ≡ cells_after S cells.old }
{
    let points = x.counts.points as usize;
    kernel_row::end_row(&x.ends, &mut cells[..points]);
    let slot = [0; MAX_DOORS];
    let back = backs(x);
    let from = Sources {
        numbers: x,
        columns,
        slot: &slot,
        back: &back,
    };
    list_rows(&from, cells);
}

// Planning: the cheapest plan of a sheet, written as bytes, with the table of costs to go left in the cells.
#![tactic(auto)]

ghost use Rattle.std.specs.Prelude.{◌≡◌, ◌<◌};
ghost use Rattle.model.specs.Method.{mask_bits};
ghost use Rattle.model.specs.Planning.{cells_needed, plan};
ghost use Rattle.refusal.specs.Answers.{answered};
ghost use Rattle.view.specs.Sheets.{sheet_of};

use kernel_sheet::MAX_DISTANCES;
use refusal::Refusal;
use sheet::ReadSheet;
use view::TaskSheet;

// One word more than the distances take: the columns then begin at a multiple of 16 bytes, as vectors of two cells like it.
const COLUMNS: usize = MAX_DISTANCES + 1;

// Plans the sheet s: fills the cells with the costs to go, writes the cheapest plan to the front of the buffer, and answers its cost; or the sheet's own refusal, or 20 or 21.
// A refusal leaves both as they are.
pub fn plan(s: &[u8], cells: &mut [u64], buf: &mut [u8]) -> Result<u64, Refusal>
    ensures answer { answered result ≡ (plan s.now cells.old buf.old).answer }
    ensures cells { cells.new ≡ (plan s.now cells.old buf.old).cells }
    ensures bytes { buf.new ≡ (plan s.now cells.old buf.old).bytes }
{
    let read = sheet::read(s)?;
    plan_sheet(&read, cells, buf)
}

// How many cells a sheet needs that has fewer tasks than a mask has bits.
fn cells_needed(sheet: &TaskSheet) -> usize
    requires { (sheet_of sheet.now).tasks < mask_bits }
    ensures { result ≡ cells_needed (sheet_of sheet.now) }
{
    tasklist::lists(sheet.view.tasks) as usize * sheet.view.points as usize
}

// The same as `plan` for a sheet that reads: 20 and 21 are tested before anything is touched.
fn plan_sheet(read: &ReadSheet, cells: &mut [u64], buf: &mut [u8]) -> Result<u64, Refusal>
    ensures answer { answered result ≡ (plan read.now.sheet.bytes.now cells.old buf.old).answer }
    ensures cells { cells.new ≡ (plan read.now.sheet.bytes.now cells.old buf.old).cells }
    ensures bytes { buf.new ≡ (plan read.now.sheet.bytes.now cells.old buf.old).bytes }
{
    let sheet = &read.sheet;
    let view = sheet.view;
    let few = cells.len() < cells_needed(sheet);
    let short = buf.len() < layout::byte_length(view.tasks);
    if few {
        return Err(Refusal::FewCells);
    }
    if short {
        return Err(Refusal::ShortBuffer);
    }
    let numbers = kernel_prepare::numbers(sheet);
    let mut columns = [0; COLUMNS];
    kernel_columns::columns(sheet, &mut columns);
    kernel_table::fill(&numbers, &columns, cells);
    let full = tasklist::full(view.tasks);
    let from = full as usize * view.points as usize;
    let starts = &numbers.starts[..view.starts as usize];
    let start = kernel_start::first_start(starts, &cells[from..]);
    let point = starts[start as usize];
    let x = kernel_complete::complete(&numbers, &columns, point, full, cells);
    // There is room, and as many doors as tasks.
    let _ = plan::write(view.tasks as usize, start, &x.doors, x.cost, buf);
    Ok(x.cost)
}

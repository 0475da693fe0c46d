// The calls of the C interface, which vanplan_c exports and include/vanplan.h documents. Each returns 0, or the refusal's number with
// nothing written.
#![tactic(auto)]

ghost use Rattle.std.specs.Prelude.{◌≡◌, length};
ghost use Rattle.model.specs.Answer.{status, placed, placed_number};
ghost use Rattle.model.specs.Faults.{read_sheet, tasks_left, points_left};
ghost use Rattle.model.specs.PlanLayout.{write_plan, read_plan, start_left, doors_left, cost_left};
ghost use Rattle.model.specs.Planning.{plan};
ghost use Rattle.model.specs.Validating.{validate};
ghost use Rattle.refusal.specs.Answers.{answer_by};
ghost use Rattle.price.specs.Pricing.{price, LayersAfter, row_place, price_cost, price_start, row_layer, row_cells};

use refusal::Refusal;

// What a call returns, a number as the C interface has it: 0, or that of the refusal.
fn status_of<T>(answer: &Result<T, Refusal>) -> u32
    ensures { result ≡ status (answer_by (λ x. x) answer.now) }
{
    match answer {
        Ok(_) => 0,
        Err(refusal) => u32::from(*refusal),
    }
}

// Reads a sheet: its numbers of tasks and points.
pub fn vanplan_read(sheet: &[u8], tasks: &mut u64, points: &mut u64) -> u32
    ensures returned { result ≡ status (read_sheet sheet.now) }
    ensures tasks { tasks.new ≡ tasks_left sheet.now tasks.old }
    ensures points { points.new ≡ points_left sheet.now points.old }
{
    let reading = sheet::read(sheet);
    if let Ok(read) = &reading {
        *tasks = u64::from(read.sheet.view.tasks);
        *points = u64::from(read.sheet.view.points);
    }
    status_of(&reading)
}

// Plans a sheet: the costs to go in the cells, the cheapest plan at the front of the buffer, and its cost.
pub fn vanplan_plan(sheet: &[u8], cells: &mut [u64], buf: &mut [u8], cost: &mut u64) -> u32
    ensures returned { result ≡ status (plan sheet.now cells.old buf.old).answer }
    ensures cells { cells.new ≡ (plan sheet.now cells.old buf.old).cells }
    ensures bytes { buf.new ≡ (plan sheet.now cells.old buf.old).bytes }
    ensures cost { cost.new ≡ placed_number (plan sheet.now cells.old buf.old).answer cost.old }
{
    let planning = planner::plan(sheet, cells, buf);
    if let Ok(least) = &planning {
        *cost = *least;
    }
    status_of(&planning)
}

// Writes a plan of n doors, the first n of those lent, to the front of the buffer.
pub fn vanplan_write_plan(
    n: usize,
    start: u16,
    doors: &[u16],
    cost: u64,
    buf: &mut [u8],
    written: &mut usize,
) -> u32
    ensures returned { result ≡ status (write_plan n start doors.now cost buf.old).answer }
    ensures buffer { buf.new ≡ (write_plan n start doors.now cost buf.old).bytes }
    ensures written { written.new ≡ placed_number (write_plan n start doors.now cost buf.old).answer written.old }
{
    let writing = plan::write(n, start, doors, cost, buf);
    if let Ok(length) = &writing {
        *written = *length;
    }
    status_of(&writing)
}

// Reads a plan of n doors: its start, its doors and its cost. Doors lent from n on are set to 0.
pub fn vanplan_read_plan(
    n: usize,
    bytes: &[u8],
    start: &mut u16,
    doors: &mut [u16],
    cost: &mut u64,
) -> u32
    ensures returned { result ≡ status (read_plan n (length doors.old) bytes.now) }
    ensures start { start.new ≡ start_left n (length doors.old) bytes.now start.old }
    ensures doors { doors.new ≡ doors_left n bytes.now doors.old }
    ensures cost { cost.new ≡ cost_left n (length doors.old) bytes.now cost.old }
{
    let read = plan::read(n, bytes, start, doors, cost);
    status_of(&read)
}

// Validates a plan for a sheet: its cost.
pub fn vanplan_validate(sheet: &[u8], plan: &[u8], cost: &mut u64) -> u32
    ensures returned { result ≡ status (validate sheet.now plan.now) }
    ensures cost { cost.new ≡ placed_number (validate sheet.now plan.now) cost.old }
{
    let validation = validate::validate(sheet, plan);
    if let Ok(value) = &validation {
        *cost = *value;
    }
    status_of(&validation)
}

// Prices a sheet in two layers of cells: the least cost and its first start.
pub fn vanplan_price(
    sheet: &[u8],
    even: &mut [u64],
    odd: &mut [u64],
    cost: &mut u64,
    start: &mut u16,
) -> u32
    ensures returned { result ≡ status (price sheet.now (length even.old) (length odd.old)) }
    ensures layers { LayersAfter sheet.now even.old odd.old even.new odd.new }
    ensures cost { cost.new ≡ placed price_cost (price sheet.now (length even.old) (length odd.old)) cost.old }
    ensures start { start.new ≡ placed price_start (price sheet.now (length even.old) (length odd.old)) start.old }
{
    let pricing = price::price(sheet, even, odd);
    if let Ok(quote) = &pricing {
        *cost = quote.cost;
        *start = quote.start;
    }
    status_of(&pricing)
}

// Which layer begins with the row of the full list, 0 for the even one and 1 for the odd one, and of how many cells that row is.
pub fn vanplan_price_row<'a>(
    sheet: &[u8],
    even: &'a [u64],
    odd: &'a [u64],
    layer: &mut usize,
    cells: &mut usize,
) -> u32
    ensures returned { result ≡ status (price sheet.now (length even.now) (length odd.now)) }
    ensures layer { layer.new ≡ placed row_layer (row_place sheet.now (length even.now) (length odd.now)) layer.old }
    ensures cells { cells.new ≡ placed row_cells (row_place sheet.now (length even.now) (length odd.now)) cells.old }
{
    let fitting = price::fit(sheet, even.len(), odd.len());
    if let Ok(read) = &fitting {
        let row = price::row(sheet, even, odd);
        *layer = usize::from(read.sheet.view.tasks) % 2;
        *cells = row.len();
    }
    status_of(&fitting)
}

// The judge of document 01: whether bytes are a plan for a sheet, a solution with the cost that they state.
#![tactic(auto)]

ghost use Rattle.std.specs.Prelude.{◌≡◌, length};
ghost use Rattle.model.specs.Answer.{accepted, refuse_first};
ghost use Rattle.model.specs.Validating.{route_tests, validate};
ghost use Rattle.refusal.specs.Answers.{answered};
ghost use Rattle.view.specs.Sheets.{sheet_of};

use layout::MAX_DOORS;
use refusal::Refusal;
use sheet::ReadSheet;

// Validates the plan q for the sheet s: the cost, or the sheet's own refusal, or one of 30 to 34. The first refusal that applies is the answer.
pub fn validate(s: &[u8], q: &[u8]) -> Result<u64, Refusal>
    ensures { answered result ≡ validate s.now q.now }
{
    let read = sheet::read(s)?;
    validate_plan(&read, q)
}

// The same for a sheet that reads: the plan's form, and then the route that its bytes hold.
fn validate_plan(read: &ReadSheet, q: &[u8]) -> Result<u64, Refusal>
    ensures { answered result ≡ validate read.now.sheet.bytes.now q.now }
{
    let tasks = read.sheet.view.tasks;
    if layout::ill_formed(tasks, q) {
        return Err(Refusal::IllFormed);
    }
    let start = layout::start_in(q);
    let mut doors = [0u16; MAX_DOORS];
    layout::read_doors(tasks, q, &mut doors);
    let stated = layout::cost_in(tasks, q);
    validate_route(read, start, &doors[..tasks as usize], stated)
}

// Validates a start, as many doors as there are tasks, and the cost stated, for a sheet that reads.
fn validate_route(read: &ReadSheet, start: u16, doors: &[u16], stated: u64) -> Result<u64, Refusal>
    requires { length doors.now ≡ (sheet_of read.now.sheet).tasks }
    ensures { answered result ≡ refuse_first (route_tests (sheet_of read.now.sheet) start doors.now stated) (accepted stated) }
{
    let sheet = &read.sheet;
    if checks::not_in_sheet(sheet, start, doors) {
        return Err(Refusal::NotInSheet);
    }
    let array = checks::tasks_of(sheet, doors);
    let tasks = &array[..doors.len()];
    if checks::done_twice(sheet.bytes, tasks) {
        return Err(Refusal::DoneTwice);
    }
    if checks::breaks_pair(sheet, tasks) {
        return Err(Refusal::ReceiverFirst);
    }
    let from = sheet.start_point(start);
    let cost = route::cost(sheet, from, doors, tasks);
    if stated != cost {
        return Err(Refusal::WrongCost);
    }
    Ok(cost)
}

// The head of a task sheet, of any bytes: its kind, and what its contents lines state. A byte beyond the end counts as 0.
#![tactic(auto)]

ghost use Rattle.std.specs.Prelude.{◌≡◌, ◌+◌, ◌*◌};
ghost use Rattle.model.specs.Bytes.{number_at};
ghost use Rattle.model.specs.SheetLayout.{line_body, line_offset, entries};

use number::read_u16;

// The bodies, counted from 0. They are numbers and no enum: the readers below take any number for a line, and a type of seven would ask more of callers.
pub const TASKS_BODY: u16 = 0;

pub const DOORS_BODY: u16 = 1;

pub const STARTS_BODY: u16 = 2;

pub const PAIRS_BODY: u16 = 3;

pub const RULES_BODY: u16 = 4;

pub const POINTS_BODY: u16 = 5;

pub const DISTANCES_BODY: u16 = 6;

pub const BODIES: u16 = 7;

pub fn kind(s: &[u8]) -> u16
    ensures { result ≡ number_at 2 s.now 0 }
{
    read_u16(s, 0)
}

// The number of two bytes in contents line i, `before` bytes of the line before it.
fn in_line(s: &[u8], i: u16, before: u16) -> u16
    ensures { result ≡ number_at 2 s.now (4 + 6 * i + before) }
{
    read_u16(s, 4 + 6 * i as usize + before as usize)
}

// Of contents line i: the body number, the offset and the number of entries that it states.
#[tactic(auto, unfolding(model::specs::SheetLayout::line_at, model::specs::SheetLayout::line_body))]
pub fn line_body(s: &[u8], i: u16) -> u16
    ensures { result ≡ line_body s.now i }
{
    in_line(s, i, 0)
}

#[tactic(auto, unfolding(model::specs::SheetLayout::line_at, model::specs::SheetLayout::line_offset))]
pub fn line_offset(s: &[u8], i: u16) -> u16
    ensures { result ≡ line_offset s.now i }
{
    in_line(s, i, 2)
}

#[tactic(auto, unfolding(model::specs::SheetLayout::line_at, model::specs::SheetLayout::entries))]
pub fn entries(s: &[u8], i: u16) -> u16
    ensures { result ≡ entries s.now i }
{
    in_line(s, i, 4)
}

// A view of a task sheet: its counts and the places of its bodies, computed once, and the fields read straight from the bytes over it.
// Each reader asks that the view is that of the bytes, that the sheet ends with its last body, and that the entry is below its count.
#![tactic(auto)]

ghost use Rattle.std.specs.Prelude.{◌≡◌, ℕ, ◌+◌, ◌*◌, ◌≤◌, ◌<◌, length, slice_index};
ghost use Rattle.model.specs.Folds.{map_below};
ghost use Rattle.view.specs.Views.{view_of, Viewed};

use head::{DOORS_BODY, PAIRS_BODY, POINTS_BODY, RULES_BODY, STARTS_BODY, TASKS_BODY, entries};
use number::to_i16;

// The bytes before the first body, and those of an entry of each body.
pub const HEAD_BYTES: u32 = 46;

pub const TASK_BYTES: u32 = 2;

pub const DOOR_BYTES: u32 = 10;

pub const START_BYTES: u32 = 2;

pub const PAIR_BYTES: u32 = 4;

pub const RULE_BYTES: u32 = 10;

pub const POINT_BYTES: u32 = 4;

pub const DISTANCE_BYTES: u32 = 2;

// The most tasks and doors of a sheet.
pub const MAX_TASKS: usize = 12;

pub const MAX_DOORS: usize = 64;

// The places of the bodies behind the first, each where the one before ends.
#[derive(Clone, Copy)]
pub struct Places {
    pub doors: u32,
    pub starts: u32,
    pub pairs: u32,
    pub rules: u32,
    pub points: u32,
    pub distances: u32,
}

// The counts of a sheet and the places of its bodies.
#[derive(Clone, Copy)]
pub struct View {
    pub tasks: u16,
    pub doors: u16,
    pub starts: u16,
    pub pairs: u16,
    pub rules: u16,
    pub points: u16,
    pub at: Places,
}

// A task sheet whose layout holds: its bytes, with the view of them.
#[derive(Clone, Copy)]
pub struct TaskSheet<'a> {
    pub bytes: &'a [u8],
    pub view: View,
    ghost viewed: { Viewed bytes.now view },
}

// Where a body ends that begins at byte `at` and has that many entries of `size` bytes.
fn behind(at: u32, entries: u16, size: u32) -> u32
    requires { at + entries * size < 4294967296 }
    ensures { result ≡ at + entries * size }
{
    at + entries as u32 * size
}

impl View {
    // The view of a sheet, of any bytes.
    pub fn of(s: &[u8]) -> Self
        ensures { result ≡ view_of s.now }
    {
        let tasks = entries(s, TASKS_BODY);
        let doors = entries(s, DOORS_BODY);
        let starts = entries(s, STARTS_BODY);
        let pairs = entries(s, PAIRS_BODY);
        let rules = entries(s, RULES_BODY);
        let points = entries(s, POINTS_BODY);
        let doors_at = behind(HEAD_BYTES, tasks, TASK_BYTES);
        let starts_at = behind(doors_at, doors, DOOR_BYTES);
        let pairs_at = behind(starts_at, starts, START_BYTES);
        let rules_at = behind(pairs_at, pairs, PAIR_BYTES);
        let points_at = behind(rules_at, rules, RULE_BYTES);
        let distances_at = behind(points_at, points, POINT_BYTES);
        View {
            tasks,
            doors,
            starts,
            pairs,
            rules,
            points,
            at: Places {
                doors: doors_at,
                starts: starts_at,
                pairs: pairs_at,
                rules: rules_at,
                points: points_at,
                distances: distances_at,
            },
        }
    }
}

// The N bytes from byte i on, all within the bytes: one load of the machine.
fn bytes_at<const N: usize>(s: &[u8], i: usize) -> [u8; N]
    requires { i + N ≤ length s.now }
    ensures { result ≡ map_below N (λ k. slice_index s.now (i + k)) }
{
    let mut bytes = [0; N];
    bytes.copy_from_slice(&s[i..i + N]);
    bytes
}

// The fields of a task sheet. Each reader asks that the entry is below its count.
impl<'a> TaskSheet<'a> {
    ghost use Rattle.view.specs.Sheets.{sheet_of};

    // The N bytes in entry e of the body at byte `at`, whose entries have `size` bytes, `before` of them before those.
    fn field<const N: usize>(&self, at: u32, e: u16, size: u32, before: u16) -> [u8; N]
        requires { at + e * size + before + N ≤ length self.now.bytes.now }
        ensures { result ≡ map_below N (λ k. slice_index self.now.bytes.now (at + e * size + before + k)) }
    {
        bytes_at(
            self.bytes,
            at as usize + e as usize * size as usize + before as usize,
        )
    }

    // Van and goods when all tasks are done.
    pub fn end_load(&self) -> u16
        ensures { result ≡ (sheet_of self.now).end_load }
    {
        u16::from_le_bytes(bytes_at(self.bytes, 2))
    }

    // Of a task.
    pub fn change(&self, t: u16) -> i16
        requires { t < (sheet_of self.now).tasks }
        ensures { result ≡ (sheet_of self.now).change t }
    {
        to_i16(u16::from_le_bytes(self.field(HEAD_BYTES, t, TASK_BYTES, 0)))
    }

    // Of a door.
    pub fn task(&self, d: u16) -> u16
        requires { d < (sheet_of self.now).doors }
        ensures { result ≡ (sheet_of self.now).task d }
    {
        u16::from_le_bytes(self.field(self.view.at.doors, d, DOOR_BYTES, 0))
    }

    pub fn arrive(&self, d: u16) -> u16
        requires { d < (sheet_of self.now).doors }
        ensures { result ≡ (sheet_of self.now).arrive d }
    {
        u16::from_le_bytes(self.field(self.view.at.doors, d, DOOR_BYTES, 2))
    }

    pub fn depart(&self, d: u16) -> u16
        requires { d < (sheet_of self.now).doors }
        ensures { result ≡ (sheet_of self.now).depart d }
    {
        u16::from_le_bytes(self.field(self.view.at.doors, d, DOOR_BYTES, 4))
    }

    pub fn work(&self, d: u16) -> u32
        requires { d < (sheet_of self.now).doors }
        ensures { result ≡ (sheet_of self.now).work d }
    {
        u32::from_le_bytes(self.field(self.view.at.doors, d, DOOR_BYTES, 6))
    }

    // Of a start.
    pub fn start_point(&self, i: u16) -> u16
        requires { i < (sheet_of self.now).starts }
        ensures { result ≡ (sheet_of self.now).start_point i }
    {
        u16::from_le_bytes(self.field(self.view.at.starts, i, START_BYTES, 0))
    }

    // Of a pair.
    pub fn sender(&self, i: u16) -> u16
        requires { i < (sheet_of self.now).pairs }
        ensures { result ≡ (sheet_of self.now).sender i }
    {
        u16::from_le_bytes(self.field(self.view.at.pairs, i, PAIR_BYTES, 0))
    }

    pub fn receiver(&self, i: u16) -> u16
        requires { i < (sheet_of self.now).pairs }
        ensures { result ≡ (sheet_of self.now).receiver i }
    {
        u16::from_le_bytes(self.field(self.view.at.pairs, i, PAIR_BYTES, 2))
    }

    // Of an access rule.
    pub fn rule_door(&self, i: u16) -> u16
        requires { i < (sheet_of self.now).rules }
        ensures { result ≡ (sheet_of self.now).rule_door i }
    {
        u16::from_le_bytes(self.field(self.view.at.rules, i, RULE_BYTES, 0))
    }

    pub fn watched(&self, i: u16) -> u16
        requires { i < (sheet_of self.now).rules }
        ensures { result ≡ (sheet_of self.now).watched i }
    {
        u16::from_le_bytes(self.field(self.view.at.rules, i, RULE_BYTES, 2))
    }

    pub fn least_count(&self, i: u16) -> u16
        requires { i < (sheet_of self.now).rules }
        ensures { result ≡ (sheet_of self.now).least_count i }
    {
        u16::from_le_bytes(self.field(self.view.at.rules, i, RULE_BYTES, 4))
    }

    pub fn charge(&self, i: u16) -> u32
        requires { i < (sheet_of self.now).rules }
        ensures { result ≡ (sheet_of self.now).charge i }
    {
        u32::from_le_bytes(self.field(self.view.at.rules, i, RULE_BYTES, 6))
    }

    // Of a point.
    pub fn end_cost(&self, p: u16) -> u32
        requires { p < (sheet_of self.now).points }
        ensures { result ≡ (sheet_of self.now).end_cost p }
    {
        u32::from_le_bytes(self.field(self.view.at.points, p, POINT_BYTES, 0))
    }

    // From one point to another. As wide as a distance may become.
    pub fn distance(&self, p: u16, q: u16) -> u32
        requires { (p < (sheet_of self.now).points) × (q < (sheet_of self.now).points) }
        ensures { result ≡ (sheet_of self.now).distance p q }
    {
        let at = self.view.at.distances as usize;
        let e = p as usize * self.view.points as usize + q as usize;
        u16::from_le_bytes(bytes_at(self.bytes, at + e * DISTANCE_BYTES as usize)) as u32
    }
}

// Faults 10 to 13: the head of a sheet, its contents lines and its length.
ghost use Rattle.std.specs.Prelude.{◌≡◌, ◌<◌};
ghost use Rattle.model.specs.SheetLayout.{distances_body, bodies, entry_bytes, body_at, layout_of};
ghost use Rattle.model.specs.Faults.{too_short, wrong_kind, wrong_entries, some_wrong_entries, wrong_line, wrong_places};

use head::{BODIES, DISTANCES_BODY, POINTS_BODY, entries};

const KIND: u16 = 1;

// The fewest and the most entries of each body before the distances.
const FEWEST: [u16; 6] = [1, 1, 1, 0, 0, 1];

const MOST: [u16; 6] = [12, 64, 16, 32, 32, 64];

// The bytes of an entry of each body.
const SIZES: [u32; 7] = [
    view::TASK_BYTES,
    view::DOOR_BYTES,
    view::START_BYTES,
    view::PAIR_BYTES,
    view::RULE_BYTES,
    view::POINT_BYTES,
    view::DISTANCE_BYTES,
];

pub(crate) fn too_short(s: &[u8]) -> bool
    ensures { result ≡ too_short s.now }
{
    s.len() < view::HEAD_BYTES as usize
}

pub(crate) fn wrong_kind(s: &[u8]) -> bool
    ensures { result ≡ wrong_kind (layout_of s.now) s.now }
{
    head::kind(s) != KIND
}

// Whether the number of entries of body i, one before the distances, is outside its limits.
fn wrong_entries(s: &[u8], i: u16) -> bool
    requires { i < distances_body }
    ensures { result ≡ wrong_entries (layout_of s.now) s.now i }
{
    let count = entries(s, i);
    let at = i as usize;
    (count < FEWEST[at]) | (MOST[at] < count)
}

// There are P times P distances; the other bodies have their limits.
pub(crate) fn some_wrong_entries(s: &[u8]) -> bool
    ensures { result ≡ some_wrong_entries (layout_of s.now) s.now }
{
    let points = entries(s, POINTS_BODY) as u32;
    (0..DISTANCES_BODY).any(|i| wrong_entries(s, i))
        || entries(s, DISTANCES_BODY) as u32 != points * points
}

// The bytes of an entry of body i, by the layout of the sheet. There is one, whatever the sheet.
fn entry_bytes(s: &[u8], i: u16) -> u32
    requires { i < bodies }
    ensures { result ≡ entry_bytes (layout_of s.now) i }
{
    SIZES[i as usize]
}

// Whether contents line i has a wrong body number or offset, where the body is at a place.
fn wrong_line(s: &[u8], i: u16, at: usize) -> bool
    requires { (i < bodies) × (at ≡ body_at (layout_of s.now) s.now i) }
    ensures { result ≡ wrong_line (layout_of s.now) s.now i }
{
    (head::line_body(s, i) != i + 1) | (head::line_offset(s, i) as usize != at)
}

// The place of each body is summed up from the numbers of entries.
pub(crate) fn wrong_places(s: &[u8]) -> bool
    ensures { result ≡ wrong_places (layout_of s.now) s.now }
{
    let mut at = view::HEAD_BYTES as usize;
    for i in 0..BODIES {
        if wrong_line(s, i, at) {
            return true;
        }
        at += entries(s, i) as usize * entry_bytes(s, i) as usize;
    }
    s.len() != at
}

// Bellman's equation: the row of a list, from any rows in which its rests stand. A list is opened and its doors are gathered, and each point has the least over them.
#![tactic(auto)]

ghost use Rattle.std.specs.Prelude.{◌≡◌, map, length, take, replicate};
ghost use Rattle.model.specs.Folds.{map_below};
ghost use Rattle.model.specs.Sheet.{Sheet};
ghost use Rattle.model.specs.SheetLayout.{max_doors};
ghost use Rattle.model.specs.Plans.{cost_to_go};
ghost use Rattle.kernel_gather.specs.Gathering.{doors_in, way_at};
ghost use Rattle.kernel_bellman.specs.Rests.{Rests, Listed, OpenList};

use kernel_sheet::{MAX_DOORS, Numbers, Way};

// What rows are made from: the numbers of a sheet, its distances by columns, and of each door which end its slot names and how far before it the rest behind the door stands.
// That all are of one sheet is `Arrayed`, of any sheet S, which no field can name.
#[derive(Clone, Copy)]
pub struct Sources<'a> {
    pub numbers: &'a Numbers,
    pub columns: &'a [u64],
    pub slot: &'a [u16; MAX_DOORS],
    pub back: &'a [u32; MAX_DOORS],
}

// Room for the list at hand: the sums at the doors, and the doors that are gathered.
#[derive(Clone, Copy)]
pub struct Room {
    pub sums: [u64; MAX_DOORS],
    pub ways: [Way; MAX_DOORS],
}

impl Room {
    // Empty room.
    pub fn new() -> Self
        ensures sums { result.sums ≡ replicate max_doors 0 }
        ensures ways { result.ways ≡ replicate max_doors (record { begin = 0; part = 0 }) }
    {
        Room {
            sums: [0; MAX_DOORS],
            ways: [Way { begin: 0, part: 0 }; MAX_DOORS],
        }
    }
}

// What a list has once its doors are gathered: its load, the set of these doors, and how many they are.
#[derive(Clone, Copy)]
pub struct GatheredList {
    pub load: u32,
    pub doors: u64,
    pub count: usize,
}

// Opens the essential list k and gathers the doors whose task can come first to the front of the room, with the rests that stand in the cells.
pub fn gather(
    from: &Sources,
    k: u32,
    waiting: u32,
    ends: &[usize],
    cells: &[u64],
    room: &mut Room,
) -> GatheredList
    requires { (S : Sheet) × Listed S from.now.numbers.now k waiting from.now.columns.now × Rests S k from.now.slot.now from.now.back.now ends.now cells.now }
    ensures open { (S : Sheet) → Listed S from.now.numbers.now k waiting from.now.columns.now → Rests S k from.now.slot.now from.now.back.now ends.now cells.now → OpenList S k result.load result.doors room.old.sums room.new.sums from.now.slot.now from.now.back.now ends.now cells.now }
    ensures count { result.count ≡ length (doors_in result.doors) }
    ensures ways { take result.count room.new.ways ≡ map (way_at from.now.numbers.now.doors.column room.new.sums from.now.slot.now from.now.back.now ends.now cells.now) (doors_in result.doors) }
{
    let numbers = from.numbers;
    let open = kernel_list::open(numbers, k, waiting, &mut room.sums);
    let count = kernel_gather::gather(
        open.doors,
        &numbers.doors.column,
        &room.sums,
        from.slot,
        from.back,
        ends,
        cells,
        &mut room.ways,
    );
    GatheredList {
        load: open.load,
        doors: open.doors,
        count,
    }
}

// Writes the row of the essential list k: from each point the cost to go with it open.
pub fn list_row(
    from: &Sources,
    k: u32,
    waiting: u32,
    ends: &[usize],
    cells: &[u64],
    room: &mut Room,
    row: &mut [u64],
)
    requires { (S : Sheet) × Listed S from.now.numbers.now k waiting from.now.columns.now × Rests S k from.now.slot.now from.now.back.now ends.now cells.now × (length row.old ≡ S.points) }
    ensures { (S : Sheet) → Listed S from.now.numbers.now k waiting from.now.columns.now → Rests S k from.now.slot.now from.now.back.now ends.now cells.now → row.new ≡ map_below S.points (cost_to_go S k) }
{
    let hand = gather(from, k, waiting, ends, cells, room);
    kernel_row::row(from.columns, hand.load, &room.ways[..hand.count], row);
}

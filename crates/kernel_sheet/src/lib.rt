// A sheet as the kernel has it: plain numbers in arrays, prepared once a call. The kernel knows no bytes, no view and no kind.
#![tactic(auto)]

// The most entries of each body.
pub const MAX_TASKS: usize = 12;

pub const MAX_DOORS: usize = 64;

pub const MAX_STARTS: usize = 16;

pub const MAX_RULES: usize = 32;

pub const MAX_POINTS: usize = 64;

// And the most distances: 64 times 64.
pub const MAX_DISTANCES: usize = 4096;

// The end load, and how many entries there are.
#[derive(Clone, Copy)]
pub struct Counts {
    pub end_load: u16,
    pub tasks: u16,
    pub doors: u16,
    pub starts: u16,
    pub rules: u16,
    pub points: u16,
}

// Of each task its change, its receivers as a mask, and its doors as 64 bits.
#[derive(Clone, Copy)]
pub struct Tasks {
    pub change: [i16; MAX_TASKS],
    pub receivers: [u32; MAX_TASKS],
    pub doors: [u64; MAX_TASKS],
}

// Of each door where the column of its arrival point begins, its task, its departure point and its work.
#[derive(Clone, Copy)]
pub struct Doors {
    pub column: [u16; MAX_DOORS],
    pub task: [u16; MAX_DOORS],
    pub depart: [u16; MAX_DOORS],
    pub work: [u32; MAX_DOORS],
}

// Of each access rule its door, the watched tasks, the least count, how often it is charged at most, and the charge.
#[derive(Clone, Copy)]
pub struct Rules {
    pub door: [u16; MAX_RULES],
    pub watched: [u16; MAX_RULES],
    pub least: [u16; MAX_RULES],
    pub most: [u16; MAX_RULES],
    pub charge: [u32; MAX_RULES],
}

// All but the distances: also of each start its point, and of each point its end cost.
#[derive(Clone, Copy)]
pub struct Numbers {
    pub counts: Counts,
    pub tasks: Tasks,
    pub doors: Doors,
    pub rules: Rules,
    pub starts: [u16; MAX_STARTS],
    pub ends: [u64; MAX_POINTS],
}

// A door that was gathered: where the column of its arrival point begins, and the part of its cost that does not hang on the point.
#[derive(Clone, Copy)]
pub struct Way {
    pub begin: u16,
    pub part: u64,
}

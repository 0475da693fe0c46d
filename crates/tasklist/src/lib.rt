// Lists of tasks as masks of 32 bits: bit j stands for task j. A task is tested, joined and struck off by shift and mask, and counted by the ones of a
// masked list: the form that the scope fixes. Every function takes any number of its type.
#![tactic(auto)]

ghost use Rattle.std.specs.Prelude.{◌≡◌};
ghost use Rattle.model.specs.TaskList.{member, without, watched_in};
ghost use Rattle.model.specs.Method.{with_in, meets, mask_bits, lists_of, full_of};

const MASK_BITS: u16 = 32;

// Bit j alone: the mask of task j. A task from 32 on has no bit.
#[tactic(auto, using(crate::proofs::Shifts::lone_bit))]
fn bit(j: u16) -> u32
    ensures { result ≡ lists_of j }
{
    1u32.checked_shl(j.into()).unwrap_or(0)
}

// Whether task j is in list k. The list is shifted: `k & bit(j) != 0` takes the machine more steps.
pub fn contains(k: u32, j: u16) -> bool
    ensures { result ≡ member k j }
{
    j < MASK_BITS && (k >> j) & 1 == 1
}

// List k with task j joined. A task from 32 on has no bit, and k stays as it is.
#[tactic(auto, using(crate::proofs::Shifts::bit_joined))]
pub fn with(k: u32, j: u16) -> u32
    ensures { result ≡ with_in mask_bits k j }
{
    k | bit(j)
}

// List k with task j struck off.
#[tactic(auto, using(crate::proofs::Shifts::bit_struck))]
pub fn without(k: u32, j: u16) -> u32
    ensures { result ≡ without k j }
{
    k & !bit(j)
}

// Whether some task is in both lists.
#[tactic(auto, using(crate::proofs::Shifts::met))]
pub fn meets(j: u32, k: u32) -> bool
    ensures { result ≡ meets mask_bits j k }
{
    j & k != 0
}

// How many of the watched tasks are in list k.
#[tactic(auto, using(crate::proofs::Shifts::counted_in))]
pub fn watched_in(watched: u32, k: u32) -> u32
    ensures { result ≡ watched_in mask_bits watched k }
{
    (k & watched).count_ones()
}

// The number of lists of n tasks, 2 to the power n; 0 from 32 tasks on, where a mask has no room for it. The code's only source of that power, but for a constant of `rank`.
pub fn lists(n: u16) -> u32
    ensures { result ≡ lists_of n }
{
    bit(n)
}

// The full list of n tasks; empty from 32 tasks on.
#[tactic(auto, using(model::proofs::TaskLists::Masks::full_lists))]
pub fn full(n: u16) -> u32
    ensures { result ≡ full_of n }
{
    lists(n).saturating_sub(1)
}

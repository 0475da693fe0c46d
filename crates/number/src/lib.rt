// Numbers read from bytes, the least significant first. A byte beyond the end counts as 0, so any place can be read.
#![tactic(auto)]

ghost use Rattle.std.specs.Prelude.{◌≡◌, ℕ, ◌+◌, slice_index};
ghost use Rattle.model.specs.Folds.{map_below};
ghost use Rattle.model.specs.Bytes.{number_at, signed};

// N bytes, with zeros behind those that are there. Cold, so that the compiler puts it out of the way of the reads that end before the bytes do.
#[cold]
fn padded<const N: usize>(rest: &[u8]) -> [u8; N]
    ensures { result ≡ map_below N (λ k. slice_index rest.now k) }
{
    let mut bytes = [0; N];
    for k in 0..N {
        bytes[k] = rest.get(k).copied().unwrap_or(0);
    }
    bytes
}

// The N bytes from byte i on.
fn bytes_at<const N: usize>(s: &[u8], i: usize) -> [u8; N]
    ensures { result ≡ map_below N (λ k. slice_index s.now (i + k)) }
{
    let rest = &s[i.min(s.len())..];
    match rest.first_chunk() {
        Some(bytes) => *bytes,
        None => padded(rest),
    }
}

// The number in the two bytes from byte i on.
#[tactic(auto, using(crate::proofs::Bytes::le_number_2))]
pub fn read_u16(s: &[u8], i: usize) -> u16
    ensures { result ≡ number_at 2 s.now i }
{
    u16::from_le_bytes(bytes_at(s, i))
}

// The number in the four bytes from byte i on.
#[tactic(auto, using(crate::proofs::Bytes::le_number_4))]
pub fn read_u32(s: &[u8], i: usize) -> u32
    ensures { result ≡ number_at 4 s.now i }
{
    u32::from_le_bytes(bytes_at(s, i))
}

// The number in the eight bytes from byte i on.
#[tactic(auto, using(crate::proofs::Bytes::le_number_8))]
pub fn read_u64(s: &[u8], i: usize) -> u64
    ensures { result ≡ number_at 8 s.now i }
{
    u64::from_le_bytes(bytes_at(s, i))
}

// The integer that a number of two bytes stands for in two's complement.
#[tactic(auto, using(crate::proofs::Signs::signed_16, crate::proofs::Signs::signed_small))]
pub fn to_i16(n: u16) -> i16
    ensures { result ≡ signed 2 n }
{
    n.cast_signed()
}

// Numbers written as bytes, the least significant first. What would pass the end is not written.
#![tactic(auto)]

ghost use Rattle.std.specs.Prelude.{◌≡◌};
ghost use Rattle.model.specs.Bytes.{bytes_of, overwrite_at};
ghost use Rattle.store.specs.Rows.{row_bytes};

// Writes bytes from byte i on, if all are in the buffer.
fn write(b: &mut [u8], i: usize, bytes: &[u8])
    ensures { b.new ≡ overwrite_at i bytes.now b.old }
{
    if i <= b.len() && bytes.len() <= b.len() - i {
        b[i..i + bytes.len()].copy_from_slice(bytes);
    }
}

// Writes a number to the two bytes from byte i on, if both are in the buffer.
#[tactic(auto, using(crate::proofs::Writing::two_written))]
pub fn write_u16(b: &mut [u8], i: usize, v: u16)
    ensures { b.new ≡ overwrite_at i (bytes_of 2 v) b.old }
{
    let two = v.to_le_bytes();
    write(b, i, &two);
}

// Writes the numbers of a row one behind the other from byte `at` on, if all are in the buffer.
pub fn write_row(b: &mut [u8], at: usize, row: &[u16])
    ensures { b.new ≡ overwrite_at at (row_bytes row.now) b.old }
{
    if at <= b.len() && row.len() <= (b.len() - at) / 2 {
        for (i, v) in row.iter().enumerate() {
            write_u16(b, at + 2 * i, *v);
        }
    }
}

// Writes a number to the eight bytes from byte i on, if all are in the buffer.
#[tactic(auto, using(crate::proofs::Writing::eight_written))]
pub fn write_u64(b: &mut [u8], i: usize, v: u64)
    ensures { b.new ≡ overwrite_at i (bytes_of 8 v) b.old }
{
    let eight = v.to_le_bytes();
    write(b, i, &eight);
}

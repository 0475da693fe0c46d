// Texts and decimal numbers put into a buffer that is lent: one that does not fit is not written, and no byte of the buffer changes.
#![tactic(auto)]

ghost use Rattle.std.specs.Prelude.{◌≡◌};
ghost use Rattle.model.specs.Bytes.{overwrite_at, written_at};
ghost use Rattle.model.specs.Printing.{decimal};

// Writes a text to the buffer from byte `at` on, if it fits, and answers how many bytes it wrote.
pub fn put_text(out: &mut [u8], at: usize, text: &[u8]) -> usize
    ensures written { result ≡ written_at at text.now out.old }
    ensures bytes { out.new ≡ overwrite_at at text.now out.old }
{
    let n = text.len();
    let room = out.len();
    if room < at || room - at < n {
        return 0;
    }
    out[at..at + n].copy_from_slice(text);
    n
}

// The most digits of a number of 64 bits.
const MAX_DIGITS: usize = 20;

// Writes a number in decimal to the buffer from byte `at` on, if it fits, and answers how many bytes it wrote.
pub fn put_number(out: &mut [u8], at: usize, n: u64) -> usize
    ensures written { result ≡ written_at at (decimal n) out.old }
    ensures bytes { out.new ≡ overwrite_at at (decimal n) out.old }
{
    // The digits from place k on are found, from the last to the first. The loop stays: of std only `fmt` writes decimals, piece by piece into a writer of one's own,
    // which would then have to put them here.
    let mut digits = [0; MAX_DIGITS];
    let mut k = MAX_DIGITS;
    let mut rest = n;
    loop {
        k -= 1;
        digits[k] = b'0' + (rest % 10) as u8;
        rest /= 10;
        if rest == 0 {
            break;
        }
    }
    put_text(out, at, &digits[k..])
}

// Numbers written to bytes.
ghost use Rattle.library.specs.Library.{bytes_of, Put};

use tasklist::Short;

// Writes numbers to the front of `out`, four bytes for each, and leaves the rest as it is. Where `out` is too short for them
// nothing is written.
// Kept: by places. Of a slice whose chunks were lent, by `as_chunks_mut`, nothing is known of what it ends as.
pub fn write_numbers(numbers: &[u32], out: &mut [u8]) -> Result<(), Short>
    ensures { Put (bytes_of numbers.now) out.old out.new result }
{
    if out.len() / 4 < numbers.len() {
        return Err(Short);
    }
    for (i, number) in numbers.iter().enumerate() {
        out[4 * i..4 * i + 4].copy_from_slice(&number.to_le_bytes());
    }
    Ok(())
}

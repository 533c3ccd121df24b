// Numbers read from bytes.
ghost use Rattle.library.specs.Library.{Read};
ghost use Rattle.library.specs.Table.{ReadTable};

use crate::Numbers;

// The numbers of a library. No number where its length is no multiple of 4, or above 256: such a library fits no list.
pub fn read_numbers(bytes: &[u8]) -> Numbers
    ensures { Read bytes.now result }
{
    let (read, rest) = bytes.as_chunks::<4>();
    let mut fours = [[0; 4]; 64];
    if fours.len() < read.len() || !rest.is_empty() {
        return Numbers {
            values: [0; 64],
            count: 0,
        };
    }
    fours[..read.len()].copy_from_slice(read);
    Numbers {
        values: fours.map(u32::from_le_bytes),
        count: read.len(),
    }
}

// The numbers of a table of weights (request 105). None where there are other than 30 bytes: they are no table.
pub fn read_table(bytes: &[u8]) -> Option<[u16; 15]>
    ensures { ReadTable bytes.now result }
{
    let (pairs, []) = bytes.as_chunks::<2>() else {
        return None;
    };
    let pairs = <[[u8; 2]; 15]>::try_from(pairs).ok()?;
    Some(pairs.map(u16::from_le_bytes))
}

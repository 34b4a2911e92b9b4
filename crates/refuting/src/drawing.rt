// The bytes of runs with 256 positions.
use std::alloc::{AllocError, Global};

// A table with a stem that is below 256, and its words by chance.
pub(crate) fn table_bytes(heap: Global, stem: u16) -> Result<Vec<u8>, AllocError> {
    let mut bytes = Vec::new(heap);
    bytes.extend_from_slice(&stem.to_le_bytes())?;
    bytes.extend_from_slice(&256u16.saturating_sub(stem).to_le_bytes())?;
    let mut word = u32::from(stem);
    for _ in 0..256 {
        word = word.wrapping_mul(1_664_525).wrapping_add(1_013_904_223);
        bytes.extend_from_slice(&word.to_le_bytes())?;
    }
    Ok(bytes)
}

// A pulse for each of the 32 atoms, which begins where the loop does, once in each turn of the loop.
pub(crate) fn pulse_bytes(heap: Global, stem: u16) -> Result<Vec<u8>, AllocError> {
    let loop_length = 256u16.saturating_sub(stem);
    let mut bytes = Vec::new(heap);
    bytes.extend_from_slice(&loop_length.to_le_bytes())?;
    for atom in 0..32 {
        for field in [atom, stem, loop_length, loop_length.min(atom)] {
            bytes.extend_from_slice(&field.to_le_bytes())?;
        }
    }
    Ok(bytes)
}

// Pulses by chance: their bytes, and the run that they give, drawn by counting.
use crate::chance::Chance;
use std::alloc::{AllocError, Global};

// From its first position on, an atom is there for its width in every period.
#[derive(Clone, Copy)]
pub(crate) struct Pulse {
    first: u16,
    period: u16,
    width: u16,
}

// A pulse for a run with this loop. Its period goes into the loop.
pub(crate) fn draw_pulse(chance: &mut Chance, first: u16, loop_length: u16) -> Pulse {
    let parts = match chance.below(6) {
        0 => 1,
        1 => 2,
        2 => 3,
        3 => 4,
        4 => 7,
        _ => loop_length,
    };
    let period = if loop_length.checked_rem(parts) == Some(0) {
        parts
    } else {
        loop_length
    };
    let width = match chance.below(4) {
        0 => period,
        1 => period.saturating_sub(1),
        _ => chance.below(period.saturating_add(1)),
    };
    Pulse {
        first,
        period,
        width,
    }
}

// The words of a run, with one atom more.
pub(crate) fn with_pulse(
    heap: Global,
    words: &[u32],
    bit: u32,
    pulse: Pulse,
) -> Result<Vec<u32>, AllocError> {
    let mut more = Vec::new(heap);
    let mut phase = 0;
    for (position, word) in words.iter().enumerate() {
        let begun = position >= usize::from(pulse.first);
        if begun && phase < pulse.width {
            more.push(*word | bit)?;
        } else {
            more.push(*word)?;
        }
        if begun {
            phase = phase.wrapping_add(1);
            if phase == pulse.period {
                phase = 0;
            }
        }
    }
    Ok(more)
}

// The bytes of a pulse.
pub(crate) fn add_bytes(bytes: &mut Vec<u8>, atom: u16, pulse: Pulse) -> Result<(), AllocError> {
    for field in [atom, pulse.first, pulse.period, pulse.width] {
        bytes.extend_from_slice(&field.to_le_bytes())?;
    }
    Ok(())
}

// Cases and runs by chance.
use crate::chance::Chance;
use crate::walk::Walk;
use cases::{OpenCase, SealedCase};
use std::alloc::{AllocError, Global};

// The atoms that a case and its run tell of, by rising number, with their bits.
pub(crate) type Atoms = [(u16, u32); 3];

// Three of the 32 atoms: one up to 10, one from 11 to 21, and one from 22 on.
pub(crate) fn draw_atoms(chance: &mut Chance) -> Atoms {
    let low = chance.below(11);
    let middle = chance.below(11).wrapping_add(11);
    let high = chance.below(10).wrapping_add(22);
    [with_bit(low), with_bit(middle), with_bit(high)]
}

fn with_bit(atom: u16) -> (u16, u32) {
    (atom, 1u32.wrapping_shl(u32::from(atom)))
}

// False, the three atoms, and some formulas over these, of which up to three are assumed.
pub(crate) fn draw_case(
    heap: Global,
    chance: &mut Chance,
    atoms: Atoms,
) -> Result<SealedCase, AllocError> {
    let mut case = OpenCase::new(heap)?;
    let _ = case.form(0, 0, 0);
    for (atom, _) in atoms {
        let _ = case.form(1, atom, 0);
    }
    let mut count = 4;
    for _ in 0..10 {
        let left = chance.below(count);
        let right = chance.below(count);
        let formed = match chance.below(4) {
            0 => case.form(3, left, 0),
            1 => case.form(4, left, 0),
            _ => case.form(2, left, right),
        };
        if let Ok(number) = formed {
            count = count.max(number.saturating_add(1));
        }
    }
    for _ in 0..chance.below(4) {
        let _ = case.assume(chance.below(count));
    }
    Ok(case.seal())
}

// A run with a stem and a loop. Each atom is at home in one of five ways: always there, mostly, often, now and then, or
// seldom.
pub(crate) fn draw_walk(
    heap: Global,
    chance: &mut Chance,
    atoms: Atoms,
    stem: u16,
    loop_length: u16,
) -> Result<Walk, AllocError> {
    let ways = [chance.below(5), chance.below(5), chance.below(5)];
    let mut words = Vec::new(heap);
    for _ in 0..stem.saturating_add(loop_length) {
        let mut word = 0;
        for ((_, bit), way) in atoms.into_iter().zip(ways) {
            if is_there(chance, way) {
                word |= bit;
            }
        }
        words.push(word)?;
    }
    Ok(Walk {
        stem: usize::from(stem),
        words,
    })
}

fn is_there(chance: &mut Chance, way: u16) -> bool {
    match way {
        0 => true,
        1 => chance.below(100) != 0,
        2 => chance.below(8) != 0,
        3 => chance.below(2) != 0,
        _ => chance.below(100) == 0,
    }
}

// The bytes of a table run that is walked like this.
pub(crate) fn table_bytes(
    heap: Global,
    walk: &Walk,
    stem: u16,
    loop_length: u16,
) -> Result<Vec<u8>, AllocError> {
    let mut bytes = Vec::new(heap);
    bytes.extend_from_slice(&stem.to_le_bytes())?;
    bytes.extend_from_slice(&loop_length.to_le_bytes())?;
    for word in &walk.words {
        bytes.extend_from_slice(&word.to_le_bytes())?;
    }
    Ok(bytes)
}

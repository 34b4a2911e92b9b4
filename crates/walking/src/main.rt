// Walks runs position by position, and compares what it finds with the answers and the rows of cases.
// It takes from a case nothing but its entries and its assumptions, and draws its runs itself.
// The numbers beside `different 0` tell how much was compared, and that no kind of answer is rare. The file `expected`
// beside src/ draws and walks all of it anew, and stdout was made by it.
#![tactic(auto)]

use chance::Chance;
use drawing::{draw_atoms, draw_case, draw_walk, table_bytes};
use pulsing::{add_bytes, draw_pulse, with_pulse};
use runs::{PulseRun, TableRun};
use std::alloc::{AllocError, Global};
use totals::Totals;
use walk::Walk;

mod chance;
mod comparing;
mod drawing;
mod pulsing;
mod refuting;
mod totals;
mod walk;

// Stems and loops: the shortest and the longest, and those that end with a word or beside its end.
const SHAPES: [(u16, u16); 16] = [
    (0, 1),
    (1, 1),
    (3, 4),
    (0, 63),
    (0, 64),
    (1, 63),
    (5, 59),
    (63, 1),
    (64, 1),
    (30, 36),
    (64, 64),
    (127, 6),
    (0, 256),
    (2, 254),
    (192, 64),
    (255, 1),
];

fn main(rt: HostRuntime) -> anyhow::Result<()> {
    let heap = rt.alloc();
    let mut chance = Chance::new();
    let mut totals = Totals::new();
    for (stem, loop_length) in SHAPES {
        for _ in 0..8 {
            try_table(heap, &mut chance, stem, loop_length, &mut totals)?;
            try_pulses(heap, &mut chance, stem, loop_length, &mut totals)?;
        }
    }
    totals.report(&rt)
}

fn try_table(
    heap: Global,
    chance: &mut Chance,
    stem: u16,
    loop_length: u16,
    totals: &mut Totals,
) -> Result<(), AllocError> {
    let atoms = draw_atoms(chance);
    let case = draw_case(heap, chance, atoms)?;
    let walk = draw_walk(heap, chance, atoms, stem, loop_length)?;
    let bytes = table_bytes(heap, &walk, stem, loop_length)?;
    let truths = walk.judge(heap, &case)?;
    totals.compare(heap, chance, case, &TableRun::new(&bytes), &truths)
}

// The pulse of the first atom begins with the loop, the others there or before it.
fn try_pulses(
    heap: Global,
    chance: &mut Chance,
    stem: u16,
    loop_length: u16,
    totals: &mut Totals,
) -> Result<(), AllocError> {
    let atoms = draw_atoms(chance);
    let case = draw_case(heap, chance, atoms)?;
    let mut bytes = Vec::new(heap);
    bytes.extend_from_slice(&loop_length.to_le_bytes())?;
    let mut words = vec![in heap; 0u32; usize::from(stem) + usize::from(loop_length)]?;
    let mut first = stem;
    for (atom, bit) in atoms {
        let pulse = draw_pulse(chance, first, loop_length);
        words = with_pulse(heap, &words, bit, pulse)?;
        add_bytes(&mut bytes, atom, pulse)?;
        first = chance.below(stem.saturating_add(1));
    }
    let walk = Walk {
        stem: usize::from(stem),
        words,
    };
    let truths = walk.judge(heap, &case)?;
    totals.compare(heap, chance, case, &PulseRun::new(&bytes), &truths)
}

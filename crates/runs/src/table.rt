// Runs that are given position by position.
ghost use Rattle.std.specs.Prelude.{◌≡◌, true};
ghost use Rattle.runs.specs.AsGiven.{TablesAsGiven, SilentOtherwise};
ghost use Rattle.runs.specs.Meanings.{meant, table_meaning};
ghost use Rattle.runs.specs.Tables.{table_check, table_given, table_run, words_say};

use crate::fault::RunFault;
use crate::looped::{Looped, Positions};

/// A word for each position up to the loop's end, or none at all.
#[derive(Clone, Copy)]
pub struct Words<'a>(&'a [[u8; 4]]);

/// A run from bytes: its stem and its loop in two bytes each, the low byte first, then four bytes for each position up to the
/// loop's end, whose bit a, counted from the lowest of the first byte, is the truth of atom a.
pub type TableRun<'a> = Looped<Words<'a>>;

impl<'a> TableRun<'a> {
    /// Whether bytes give a table run, or else what is wrong: `WrongLength` where they are not as long as their stem and
    /// their loop ask for, `NoRun` where the loop is 0.
    pub fn check(bytes: &[u8]) -> Result<(), RunFault>
        ensures { result ≡ table_check bytes.now }
    {
        TableRun::try_from(bytes).map(|_| ())
    }

    /// The run that the bytes give; its words stay where they are. Bytes that give none give the run with stem 0 and
    /// loop 1 on which no atom is true.
    #[tactic(auto, using(crate::proofs::Given::tables_as_given, crate::proofs::Checks::table_silent))]
    pub fn new(bytes: &'a [u8]) -> TableRun<'a>
        ensures run { table_meaning result ≡ table_run bytes.now }
        ensures given { TablesAsGiven bytes.now }
        ensures otherwise { SilentOtherwise (table_check bytes.now) (table_run bytes.now) }
    {
        TableRun::try_from(bytes).unwrap_or(Looped::of_one_position(Words(&[])))
    }
}

impl<'a> TryFrom<&'a [u8]> for TableRun<'a> {
    type Error = RunFault;

    ghost try_from_gives = { λ bytes result. meant table_meaning result ≡ table_given bytes.now };

    #[tactic(auto, unfolding(crate::specs::Tables::table_check))]
    fn try_from(bytes: &'a [u8]) -> Result<Self, RunFault> {
        let [stem_low, stem_high, loop_low, loop_high, words @ ..] = bytes else {
            return Err(RunFault::WrongLength);
        };
        let (words, []) = words.as_chunks::<4>() else {
            return Err(RunFault::WrongLength);
        };
        let stem = u16::from_le_bytes([*stem_low, *stem_high]);
        let loop_length = u16::from_le_bytes([*loop_low, *loop_high]);
        if words.len() != usize::from(stem) + usize::from(loop_length) {
            return Err(RunFault::WrongLength);
        }
        if loop_length == 0 {
            return Err(RunFault::NoRun);
        }
        Ok(Looped {
            stem,
            loop_length,
            positions: Words(words),
        })
    }
}

impl Positions for Words<'_> {
    ghost fits = { λ loop words. true };

    ghost truths = { λ words. words_say words.0.now };

    fn is_true(&self, atom: u8, position: usize) -> bool {
        let word = self
            .0
            .get(position)
            .map_or(0, |word| u32::from_le_bytes(*word));
        (word >> atom) % 2 == 1
    }
}

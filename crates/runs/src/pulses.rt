// Runs that are given by pulses.
ghost use Rattle.std.specs.Prelude.{◌≡◌, ℕ, true};
ghost use Rattle.runs.specs.AsGiven.{PulsesAllAlong, SilentOtherwise};
ghost use Rattle.runs.specs.Meanings.{meant, pulse_meaning};
ghost use Rattle.runs.specs.Pulses.{pulses_of, pulsed, in_order, latest, FindsPulse, pulse_check, pulse_given, pulse_run};

use crate::fault::RunFault;
use crate::looped::{Looped, Positions};
use crate::pulse::Pulse;
use rows::{EMPTY, Row, and, mask};

/// The pulses of a run, by rising atom.
#[derive(Clone, Copy)]
pub struct Pulses<'a>(&'a [[u8; 8]]);

/// A run from bytes: its loop in two bytes, the low byte first, then eight bytes for each pulse, its atom, its first
/// position, its period and its width in two bytes each. From its first position on, the atom is true for the width in
/// every period.
pub type PulseRun<'a> = Looped<Pulses<'a>>;

impl<'a> PulseRun<'a> {
    /// Whether bytes give a pulse run, or else what is wrong: `WrongLength` where they are not a loop and whole pulses
    /// long, `NoRun` where the loop is 0, an atom is above 31, the atoms do not rise, a period is 0 or does not divide
    /// the loop, or a width exceeds its period.
    pub fn check(bytes: &[u8]) -> Result<(), RunFault>
        ensures { result ≡ pulse_check bytes.now }
    {
        PulseRun::try_from(bytes).map(|_| ())
    }

    /// The run that the bytes give; its pulses stay where they are. Bytes that give none give the run with stem 0 and
    /// loop 1 on which no atom is true.
    #[tactic(auto, using(crate::proofs::Given::pulses_all_along, crate::proofs::Checks::pulses_silent))]
    pub fn new(bytes: &'a [u8]) -> PulseRun<'a>
        ensures run { pulse_meaning result ≡ pulse_run bytes.now }
        ensures along { PulsesAllAlong bytes.now }
        ensures otherwise { SilentOtherwise (pulse_check bytes.now) (pulse_run bytes.now) }
    {
        PulseRun::try_from(bytes).unwrap_or(Looped::of_one_position(Pulses(&[])))
    }
}

impl<'a> TryFrom<&'a [u8]> for PulseRun<'a> {
    type Error = RunFault;

    ghost try_from_gives = { λ bytes result. meant pulse_meaning result ≡ pulse_given bytes.now };

    #[tactic(auto, unfolding(crate::specs::Pulses::pulse_check))]
    fn try_from(bytes: &'a [u8]) -> Result<Self, RunFault> {
        let [loop_low, loop_high, pulses @ ..] = bytes else {
            return Err(RunFault::WrongLength);
        };
        let (pulses, []) = pulses.as_chunks::<8>() else {
            return Err(RunFault::WrongLength);
        };
        let pulses = Pulses(pulses);
        let loop_length = u16::from_le_bytes([*loop_low, *loop_high]);
        if loop_length == 0 || !pulses.are_in_order(loop_length) {
            return Err(RunFault::NoRun);
        }
        Ok(Looped {
            stem: pulses.latest_first(),
            loop_length,
            positions: pulses,
        })
    }
}

impl Positions for Pulses<'_> {
    ghost fits = { λ loop pulses. in_order loop (pulses_of pulses.0.now) };

    ghost truths = { λ pulses. pulsed (pulses_of pulses.0.now) };

    fn is_true(&self, atom: u8, position: usize) -> bool {
        self.of_atom(atom)
            .is_some_and(|pulse| pulse.is_on(position))
    }

    fn row(&self, atom: u8, end: usize) -> Row {
        match self.of_atom(atom) {
            Some(pulse) => and(mask(end), pulse.row()),
            None => EMPTY,
        }
    }
}

impl Pulses<'_> {
    // The pulse of an atom, if there is one: in order there is one at most.
    fn of_atom(&self, atom: u8) -> Option<Pulse>
        requires { (loop : ℕ) × (in_order loop (pulses_of self.now.0.now) ≡ true) }
        ensures { FindsPulse (pulses_of self.now.0.now) atom result }
    {
        let place = self
            .0
            .binary_search_by_key(&u16::from(atom), |bytes| Pulse::from(bytes).atom)
            .ok()?;
        Some(Pulse::from(&self.0[place]))
    }

    // Whether a run with a loop may have these pulses, their atoms strictly rising.
    fn are_in_order(&self, loop_length: u16) -> bool
        ensures { result ≡ in_order loop_length (pulses_of self.now.0.now) }
    {
        let mut pulses = self.0.iter().map(Pulse::from);
        pulses.all(|pulse| pulse.is_allowed(loop_length))
            && self.0.is_sorted_by(|before, after| {
                Pulse::from(before).atom < Pulse::from(after).atom
            })
    }

    // The largest first position, or 0 without pulses.
    fn latest_first(&self) -> u16
        ensures { result ≡ latest (pulses_of self.now.0.now) }
    {
        self.0
            .iter()
            .map(|bytes| Pulse::from(bytes).first)
            .fold(0, u16::max)
    }
}

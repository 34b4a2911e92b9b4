// One atom's pulse.
ghost use Rattle.std.specs.Prelude.{◌≡◌, ◌<◌};
ghost use Rattle.rows.specs.Row.{row_of};
ghost use Rattle.runs.specs.Pulses.{pulse_of, on, allowed};

use crate::looped::ATOMS;
use rows::{POSITIONS, Row, and, later, mask, or};

// From its first position on, an atom is true for its width in every period.
#[derive(Clone, Copy)]
pub(crate) struct Pulse {
    pub atom: u16,
    pub first: u16,
    pub period: u16,
    pub width: u16,
}

impl From<&[u8; 8]> for Pulse {
    ghost from_gives = { λ bytes pulse. pulse ≡ pulse_of bytes.now };

    fn from(bytes: &[u8; 8]) -> Pulse {
        let [
            atom_low,
            atom_high,
            first_low,
            first_high,
            period_low,
            period_high,
            width_low,
            width_high,
        ] = *bytes;
        Pulse {
            atom: u16::from_le_bytes([atom_low, atom_high]),
            first: u16::from_le_bytes([first_low, first_high]),
            period: u16::from_le_bytes([period_low, period_high]),
            width: u16::from_le_bytes([width_low, width_high]),
        }
    }
}

impl Pulse {
    // Whether the pulse is on at a position.
    pub(crate) fn is_on(self, position: usize) -> bool
        requires { 0 < self.period }
        ensures { result ≡ on self position }
    {
        let first = usize::from(self.first);
        first <= position && (position - first) % usize::from(self.period) < usize::from(self.width)
    }

    // Where the pulse is on, in a row: its widths from position 0 on, which are doubled until they fill the row, then moved to
    // its first position.
    pub(crate) fn row(self) -> Row
        requires { 0 < self.period }
        ensures { result ≡ row_of (on self) }
    {
        let mut filled = usize::from(self.period);
        let mut widths = and(mask(filled), mask(usize::from(self.width)));
        while filled < POSITIONS {
            let more = or(widths, later(widths, filled));
            widths = more;
            filled *= 2;
        }
        later(widths, usize::from(self.first))
    }

    // Whether a run with a loop may have the pulse.
    pub(crate) fn is_allowed(self, loop_length: u16) -> bool
        ensures { result ≡ allowed loop_length self }
    {
        self.atom < ATOMS
            && self.period > 0
            && self.width <= self.period
            && loop_length % self.period == 0
    }
}

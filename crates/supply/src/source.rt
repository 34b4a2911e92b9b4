// A supply that comes on at a position, and stays on.
ghost use Rattle.runs.specs.Looping.{looped};
ghost use Rattle.supply.specs.On.{on_from};

use runs::RunSource;

// Atom 0 is true from the first position on, at which the loop of one position stands.
#[derive(Clone, Copy)]
pub(crate) struct Supply {
    pub(crate) first: u16,
}

impl RunSource for Supply {
    ghost meaning = { λ supply. looped supply.first 1 (on_from supply.first) };

    fn stem(&self) -> u16 {
        self.first
    }

    fn loop_length(&self) -> u16 {
        1
    }

    #[tactic(auto, using(runs::proofs::SourceSays::source_says_tested, std::proofs::lemmas::Bool::Decides::nat_tests))]
    fn says(&self, atom: u8, position: usize) -> bool {
        atom == 0 && position == usize::from(self.first)
    }
}

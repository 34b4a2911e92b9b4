// Numbers by chance, the same ones in every run of the program.
#[derive(Drop)]
pub(crate) struct Chance {
    state: u32,
}

impl Chance {
    pub(crate) fn new() -> Chance {
        Chance { state: 1 }
    }

    // A number below another one, or 0 where there is none. The upper half of a linear congruence is taken.
    pub(crate) fn below(&mut self, most: u16) -> u16 {
        self.state = self
            .state
            .wrapping_mul(1_664_525)
            .wrapping_add(1_013_904_223);
        let [_, _, low, high] = self.state.to_le_bytes();
        u16::from_le_bytes([low, high])
            .checked_rem(most)
            .unwrap_or(0)
    }
}

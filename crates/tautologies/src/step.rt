// One step of a plan.

// The row of an implication comes of the rows of its operands, by their places.
#[derive(Clone, Copy)]
pub(crate) struct Step {
    pub(crate) left: u16,
    pub(crate) right: u16,
}

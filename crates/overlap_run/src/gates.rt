// What is told of each block.

/// A look-out on the blocks of a run. Each block is between its `enter` and its `leave`, and
/// workers share the gate. Blocks count from 0.
pub trait Gate {
    /// The block is about to begin.
    fn enter(&self, block: u32);

    /// The block is done.
    fn leave(&self, block: u32);
}

/// The gate that does nothing.
#[derive(Clone, Copy, Debug, Default)]
pub struct OpenGate;

impl Gate for OpenGate {
    fn enter(&self, _block: u32) {}

    fn leave(&self, _block: u32) {}
}

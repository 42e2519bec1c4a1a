// What the blocks are, and what they come to.
ghost use Rattle.std.specs.Prelude.{◌≡◌, ℕ, ◌<◌, IfOk, OnOk};

use std::alloc::Global;
use vec_exact::NoMemory;

/// Work that is cut into blocks, numbered from 0, each of which any thread may do. Each worker has
/// one part, in which it puts all blocks that it does.
pub trait BlockJob: Sync {
    /// What the blocks of one worker are put in.
    type Part: Send + Drop;

    /// What is told of one block, as where it stands in the part.
    type Output: Send + Drop;

    // How many blocks there are.
    ghost blocks: { Self → ℕ };

    // Holds of a part as `begin` makes it, and after each block.
    ghost is_part: { Self → Self.Part → Type 0 };

    // Holds of a part, of a block that was put in it, and of what is told of that block.
    ghost gives: { Self → Self.Part → ℕ → Self.Output → Type 0 };

    /// The part of a worker that has done nothing.
    fn begin(&self, alloc: Global) -> Self::Part
        ensures { is_part self.now result };

    /// Does one block and puts it in the part. `NoMemory` where memory ran out.
    fn run(
        &self,
        alloc: Global,
        block: u32,
        part: &mut Self::Part,
    ) -> Result<Self::Output, NoMemory>
        requires block { block < blocks self.now }
        requires part { is_part self.now part.old }
        ensures part { OnOk result (is_part self.now part.new) }
        ensures output { IfOk result (gives self.now part.new block) }
        // what was put in before stays
        ensures kept { OnOk result ((s : ℕ) (x : Self.Output)
            → gives self.now part.old s x → gives self.now part.new s x) };
}

/// What was told of a block, and which part it was put in.
#[derive(Drop)]
pub struct Placed<T> {
    /// The number of the part, from 0.
    pub part: u32,
    /// What was told of the block.
    pub output: T,
}

/// The parts of all workers, and what was told of each block.
#[derive(Drop)]
pub struct Parts<P, T> {
    /// One part for each worker, also for one that drew no block.
    pub parts: Vec<P>,
    /// What was told of the blocks, in the order of their numbers.
    pub blocks: Vec<Placed<T>>,
}

// A block that was done.
#[derive(Drop)]
pub struct Finished<T> {
    pub block: u32,
    pub output: T,
}

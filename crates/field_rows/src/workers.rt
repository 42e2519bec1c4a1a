// Blocks by one worker and by several, and that two workers are at work beside each other.
ghost use Rattle.std.specs.Prelude.{◌≡◌, ℕ, ◌^◌, ◌<◌, ◌≤◌, length, slice_index, IfOk, ⊤};
ghost use Rattle.block_workers.specs.InPlace.{AllInPlace};
ghost use Rattle.block_workers.specs.InParts.{IsPlacedBy};

use crate::compare::same_list;
use block_workers::{BlockJob, Parts, run_blocks};
use std::alloc::{AllocError, Global};
use std::sync::atomic::{AtomicU64, Ordering};
use std::test::Fail;
use std::thread::Threads;
use vec_exact::NoMemory;

// Told of each block before it is done.
trait Gate {
    fn enter(&self, block: u32);
}

struct OpenGate;

impl Gate for OpenGate {
    fn enter(&self, _block: u32) {}
}

// The numbers of a borrowed list, one a block. A worker lists those that it read, and what is told of
// a block is where its number stands in that list.
#[derive(Drop)]
struct Listed<'a, G> {
    numbers: &'a [u64],
    gate: &'a G,
}

impl<'a, G: Gate + Sync> BlockJob for Listed<'a, G> {
    type Part = Vec<u64>;

    type Output = usize;

    ghost blocks = { λ job. length job.numbers.now };

    ghost is_part = { λ _ _. ⊤ };

    ghost gives = { λ job part block output. (output < length part.items)
        × (slice_index part.items output ≡ slice_index job.numbers.now block) };

    fn begin(&self, alloc: Global) -> Vec<u64> {
        Vec::new(alloc)
    }

    fn run(&self, _alloc: Global, block: u32, part: &mut Vec<u64>) -> Result<usize, NoMemory> {
        self.gate.enter(block);
        let place = part.len();
        part.push(self.numbers[block as usize])?;
        Ok(place)
    }
}

// The numbers that were read, from the lists of the workers.
fn numbers_in_order(
    alloc: Global,
    numbers: &[u64],
    done: &Parts<Vec<u64>, usize>,
) -> Result<Vec<u64>, NoMemory>
    requires each { AllInPlace (IsPlacedBy (λ part s x. (x < length part.items)
        × (slice_index part.items x ≡ slice_index numbers.now s)) done.now.parts.items)
        done.now.blocks.items }
    ensures count { IfOk result (λ outputs. length outputs.items ≡ length done.now.blocks.items) }
    ensures each { IfOk result (λ outputs.
        AllInPlace (λ s x. x ≡ slice_index numbers.now s) outputs.items) }
{
    let mut outputs = Vec::with_capacity(alloc, done.blocks.len())?;
    for block in &done.blocks {
        let part = &done.parts[block.part as usize];
        outputs.push(part[block.output])?;
    }
    Ok(outputs)
}

fn read_by_blocks<R: Threads, G: Gate + Sync>(
    rt: &R,
    alloc: Global,
    numbers: &[u64],
    workers: u32,
    gate: &G,
) -> Result<Vec<u64>, NoMemory>
    requires workers { (1 ≤ workers) × (workers ≤ 64) }
    requires blocks { length numbers.now < 2 ^ 32 }
    ensures count { IfOk result (λ outputs. length outputs.items ≡ length numbers.now) }
    ensures each { IfOk result (λ outputs.
        AllInPlace (λ s x. x ≡ slice_index numbers.now s) outputs.items) }
{
    let job = Listed { numbers, gate };
    let done = run_blocks(rt, alloc, &job, numbers.len() as u32, workers)?;
    numbers_in_order(alloc, numbers, &done)
}

// The last block finds no memory.
#[derive(Drop)]
struct Fails {
    blocks: u32,
}

impl BlockJob for Fails {
    type Part = ();

    type Output = u32;

    ghost blocks = { λ job. job.blocks };

    ghost is_part = { λ _ _. ⊤ };

    ghost gives = { λ _ _ block output. output ≡ block };

    fn begin(&self, _alloc: Global) {}

    fn run(&self, _alloc: Global, block: u32, _part: &mut ()) -> Result<u32, NoMemory> {
        if block == self.blocks - 1 {
            return Err(NoMemory);
        }
        Ok(block)
    }
}

// A flag that one block sets and another one waits for, for a bounded number of turns.
#[derive(Drop)]
struct Flag {
    set: AtomicU64,
    missed: AtomicU64,
}

const TURNS: u32 = 100_000_000;

impl Flag {
    fn new() -> Flag {
        Flag {
            set: AtomicU64::new(0),
            missed: AtomicU64::new(0),
        }
    }

    fn set(&self) {
        self.set.store(1, Ordering::SeqCst);
    }

    fn wait(&self) {
        for _ in 0..TURNS {
            if self.set.load(Ordering::SeqCst) == 1 {
                return;
            }
        }
        self.missed.store(1, Ordering::SeqCst);
    }

    fn was_seen(&self) -> bool {
        self.missed.load(Ordering::SeqCst) == 0
    }
}

// Two blocks, each of which waits for the other.
#[derive(Drop)]
struct Meeting {
    zero_came: Flag,
    one_came: Flag,
}

impl BlockJob for Meeting {
    type Part = ();

    type Output = u32;

    ghost blocks = { λ _. 2 };

    ghost is_part = { λ _ _. ⊤ };

    ghost gives = { λ _ _ block output. output ≡ block };

    fn begin(&self, _alloc: Global) {}

    fn run(&self, _alloc: Global, block: u32, _part: &mut ()) -> Result<u32, NoMemory> {
        if block == 0 {
            self.zero_came.set();
            self.one_came.wait();
        } else {
            self.one_came.set();
            self.zero_came.wait();
        }
        Ok(block)
    }
}

// Three blocks, one of which waits for another one.
#[derive(Drop)]
struct OneWaits {
    waiting: u32,
    awaited: u32,
    came: Flag,
}

impl BlockJob for OneWaits {
    type Part = ();

    type Output = u32;

    ghost blocks = { λ _. 3 };

    ghost is_part = { λ _ _. ⊤ };

    ghost gives = { λ _ _ block output. output ≡ block };

    fn begin(&self, _alloc: Global) {}

    fn run(&self, _alloc: Global, block: u32, _part: &mut ()) -> Result<u32, NoMemory> {
        if block == self.awaited {
            self.came.set();
        }
        if block == self.waiting {
            self.came.wait();
        }
        Ok(block)
    }
}

// What was told of the blocks.
fn told(alloc: Global, done: &Parts<(), u32>) -> Result<Vec<u32>, AllocError> {
    done.blocks.iter().map(|block| block.output).collect(alloc)
}

#[test]
fn one_and_more_workers(rt: HostRuntime) -> Result<(), Fail> {
    let numbers = [3, 1, 4, 1, 5];
    for workers in [1, 4, 64] {
        let read = read_by_blocks(&rt, rt.alloc(), &numbers, workers, &OpenGate)?;
        same_list(&rt, read.as_slice(), &numbers);
    }
    let nothing = read_by_blocks(&rt, rt.alloc(), &[], 2, &OpenGate)?;
    assert!(rt; nothing.is_empty());
    Ok(())
}

#[test]
fn no_memory(rt: HostRuntime) {
    let job = Fails { blocks: 3 };
    for workers in [1, 2] {
        let refused = run_blocks(&rt, rt.alloc(), &job, 3, workers);
        assert!(rt; refused.is_err());
    }
}

#[test]
fn two_workers_meet(rt: HostRuntime) -> Result<(), Fail> {
    let job = Meeting {
        zero_came: Flag::new(),
        one_came: Flag::new(),
    };
    let both = run_blocks(&rt, rt.alloc(), &job, 2, 2)?;
    same_list(&rt, told(rt.alloc(), &both)?.as_slice(), &[0, 1]);
    assert!(rt; both.blocks[0].part != both.blocks[1].part);
    assert!(rt; job.zero_came.was_seen());
    assert!(rt; job.one_came.was_seen());
    Ok(())
}

#[test]
fn three_blocks_drawn(rt: HostRuntime) -> Result<(), Fail> {
    for (waiting, awaited) in [(0, 1), (0, 2), (1, 0), (1, 2), (2, 0), (2, 1)] {
        let job = OneWaits {
            waiting,
            awaited,
            came: Flag::new(),
        };
        let all = run_blocks(&rt, rt.alloc(), &job, 3, 2)?;
        same_list(&rt, told(rt.alloc(), &all)?.as_slice(), &[0, 1, 2]);
        assert!(rt; job.came.was_seen());
    }
    Ok(())
}

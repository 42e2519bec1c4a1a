// The overlap of two meshes by one worker and by several, and against the plain program.
ghost use Rattle.std.specs.Prelude.{◌≡◌, ◌<◌, ◌≤◌};

use crate::meshes::equal_faces;
use crate::runs::{Run, same};
use cell_index::{build, candidates};
use clip::{Overlap, Piece, clip};
use mesh_check::{Mesh, check, face_count};
use overlap_run::{Block, Gate, OpenGate, RunFault, clip_block, overlap};
use std::alloc::Global;
use std::marker::Brand;
use std::process::Abort;
use std::sync::atomic::{AtomicU64, Ordering};
use std::sync::ledger::{Blank, Ledger};
use std::test::Fail;
use std::thread::Threads;
use tempest_top::Status;
use vec_exact::{NoMemory, RawMesh, Steps};

// The accepted mesh of nodes and faces that a generator made.
fn accepted(rt: &impl Abort, alloc: Global, raw: Result<RawMesh, NoMemory>) -> Mesh {
    let Ok(raw) = raw else {
        panic!(rt; "no memory");
    };
    assert!(rt; !raw.faces.items.is_empty());
    assert!(rt; raw.faces.items.len() <= 1000);
    assert!(rt; raw.nodes.items.len() <= 1000);
    let Ok(mesh) = check(alloc, raw) else {
        panic!(rt; "a fault");
    };
    mesh
}

// The overlap, with the counter of this blank.
fn counted<G: Gate + Sync, L: Ledger>(
    rt: &impl Threads,
    alloc: Global,
    a: &Mesh,
    b: &Mesh,
    workers: u32,
    gate: &G,
    blank: Blank,
) -> Result<Overlap, RunFault>
    requires name { blank.name ≡ L.name }
    requires parts { blank.parts ≡ L.parts }
    requires some { 0 < blank.parts }
    requires workers { (1 ≤ workers) × (workers ≤ 64) }
{
    let mut steps = Steps::<L>::new(blank);
    overlap(rt, alloc, a, b, workers, gate, &mut steps)
}

// The overlap, with a counter of its own.
fn found<G: Gate + Sync>(
    rt: &impl Threads,
    alloc: Global,
    a: &Mesh,
    b: &Mesh,
    workers: u32,
    gate: &G,
) -> Result<Overlap, RunFault>
    requires { (1 ≤ workers) × (workers ≤ 64) }
{
    counted::<G, Brand>(rt, alloc, a, b, workers, gate, Blank::new(1))
}

fn is_same_piece(one: &Piece, other: &Piece) -> bool {
    one.a == other.a
        && one.b == other.b
        && one.ring.as_slice() == other.ring.as_slice()
        && one.corners.items.as_slice() == other.corners.items.as_slice()
}

fn is_same(one: &Overlap, other: &Overlap) -> bool {
    let others = &other.pieces.items;
    one.pieces.items.len() == others.len()
        && one
            .pieces
            .items
            .iter()
            .zip(others.iter())
            .all(|(one, other)| is_same_piece(one, other))
}

// A flag that one block sets and another one waits for, for a bounded number of turns.
#[derive(Drop)]
struct Flag {
    set: AtomicU64,
    missed: AtomicU64,
}

const TURNS: u32 = 100_000_000;

impl Flag {
    fn new() -> Flag {
        Flag {
            set: AtomicU64::new(0),
            missed: AtomicU64::new(0),
        }
    }

    fn set(&self) {
        self.set.store(1, Ordering::SeqCst);
    }

    fn wait(&self) {
        for _ in 0..TURNS {
            if self.set.load(Ordering::SeqCst) == 1 {
                return;
            }
        }
        self.missed.store(1, Ordering::SeqCst);
    }

    fn was_seen(&self) -> bool {
        self.missed.load(Ordering::SeqCst) == 0
    }
}

// Blocks 0 and 1, each of which waits for the other.
#[derive(Drop)]
struct Meeting {
    zero_came: Flag,
    one_came: Flag,
}

impl Gate for Meeting {
    fn enter(&self, block: u32) {
        if block == 0 {
            self.zero_came.set();
            self.one_came.wait();
        } else {
            self.one_came.set();
            self.zero_came.wait();
        }
    }

    fn leave(&self, _block: u32) {}
}

#[test]
fn two_workers_meet(rt: HostRuntime) {
    let mesh = accepted(&rt, rt.alloc(), gen_cs::make(rt.alloc(), 4));
    let gate = Meeting {
        zero_came: Flag::new(),
        one_came: Flag::new(),
    };
    let Ok(both) = found(&rt, rt.alloc(), &mesh, &mesh, 2, &gate) else {
        panic!(rt; "a fault");
    };
    same(&rt, &both.pieces.items.len(), &96);
    assert!(rt; gate.zero_came.was_seen());
    assert!(rt; gate.one_came.was_seen());
}

// One block waits for another one.
#[derive(Drop)]
struct OneWaits {
    waiting: u32,
    awaited: u32,
    came: Flag,
}

impl Gate for OneWaits {
    fn enter(&self, block: u32) {
        if block == self.awaited {
            self.came.set();
        }
        if block == self.waiting {
            self.came.wait();
        }
    }

    fn leave(&self, _block: u32) {}
}

#[test]
fn three_blocks_are_drawn(rt: HostRuntime) {
    let mesh = accepted(&rt, rt.alloc(), gen_cs::make(rt.alloc(), 5));
    let Ok(one) = found(&rt, rt.alloc(), &mesh, &mesh, 1, &OpenGate) else {
        panic!(rt; "a fault");
    };
    same(&rt, &one.pieces.items.len(), &150);
    for (waiting, awaited) in [(0, 1), (0, 2), (1, 0), (1, 2), (2, 0), (2, 1)] {
        let gate = OneWaits {
            waiting,
            awaited,
            came: Flag::new(),
        };
        let Ok(two) = found(&rt, rt.alloc(), &mesh, &mesh, 2, &gate) else {
            panic!(rt; "a fault");
        };
        assert!(rt; gate.came.was_seen());
        assert!(rt; is_same(&one, &two));
    }
}

// How many blocks were entered, and how many were left.
#[derive(Drop)]
struct Counting {
    entered: AtomicU64,
    left: AtomicU64,
}

impl Gate for Counting {
    fn enter(&self, _block: u32) {
        let _before = self.entered.fetch_add(1, Ordering::SeqCst);
    }

    fn leave(&self, _block: u32) {
        let _before = self.left.fetch_add(1, Ordering::SeqCst);
    }
}

#[test]
fn each_block_is_entered_and_left(rt: HostRuntime) {
    let mesh = accepted(&rt, rt.alloc(), gen_cs::make(rt.alloc(), 5));
    for workers in 1..4 {
        let gate = Counting {
            entered: AtomicU64::new(0),
            left: AtomicU64::new(0),
        };
        let Ok(overlap) = found(&rt, rt.alloc(), &mesh, &mesh, workers, &gate) else {
            panic!(rt; "a fault");
        };
        same(&rt, &overlap.pieces.items.len(), &150);
        same(&rt, &gate.entered.load(Ordering::SeqCst), &3);
        same(&rt, &gate.left.load(Ordering::SeqCst), &3);
    }
}

// The plain program: every pair is clipped, and the pairs that meet are those of the overlap, in its
// order and with its rings.
fn is_plain_counted<L: Ledger>(a: &Mesh, b: &Mesh, overlap: &Overlap, blank: Blank) -> bool
    requires name { blank.name ≡ L.name }
    requires parts { blank.parts ≡ L.parts }
    requires some { 0 < blank.parts }
{
    let mut steps = Steps::<L>::new(blank);
    let mut pieces = overlap.pieces.items.iter();
    for i in 0..face_count(a) {
        for j in 0..face_count(b) {
            let Some(ring) = clip(a, i + 1, b, j + 1, &mut steps) else {
                continue;
            };
            let Some(piece) = pieces.next() else {
                return false;
            };
            if piece.a != i + 1 || piece.b != j + 1 || piece.ring.as_slice() != ring.as_slice() {
                return false;
            }
        }
    }
    pieces.next().is_none()
}

fn is_plain(a: &Mesh, b: &Mesh, overlap: &Overlap) -> bool {
    is_plain_counted::<Brand>(a, b, overlap, Blank::new(1))
}

#[test]
fn the_plain_program_finds_the_same(rt: HostRuntime) {
    let a = accepted(&rt, rt.alloc(), gen_cs::make(rt.alloc(), 4));
    let b = accepted(&rt, rt.alloc(), gen_cs::make(rt.alloc(), 5));
    for workers in [1, 3] {
        let Ok(found) = found(&rt, rt.alloc(), &a, &b, workers, &OpenGate) else {
            panic!(rt; "a fault");
        };
        assert!(rt; is_plain(&a, &b, &found));
    }
}

#[test]
fn too_many_pieces_are_counted(rt: HostRuntime) -> Result<(), Fail> {
    let mut row = Run::new(rt.alloc());
    row.place("equal.g", &equal_faces(rt.alloc())?)?;
    let text = "GenerateOverlapMesh --a equal.g --b equal.g --out o.g --workers 4";
    same(&rt, &row.go(&rt, rt.alloc(), text)?, &Status::Limit);
    row.tells(&rt, b"tempest: too many pieces 8392609\n");
    row.holds(&rt, "o.g", None);
    Ok(())
}

// The block of all faces of `a`, with the counter of this blank.
fn counted_block<L: Ledger>(
    alloc: Global,
    a: &Mesh,
    b: &Mesh,
    blank: Blank,
) -> Result<Block, NoMemory>
    requires name { blank.name ≡ L.name }
    requires parts { blank.parts ≡ L.parts }
    requires some { 0 < blank.parts }
{
    let mut steps = Steps::<L>::new(blank);
    let index = build(alloc, b)?;
    clip_block(alloc, a, b, &index, 1, face_count(a), &mut steps)
}

// How many pieces the block of all faces of `a` has.
fn piece_count(alloc: Global, a: &Mesh, b: &Mesh) -> Result<usize, NoMemory> {
    let block = counted_block::<Brand>(alloc, a, b, Blank::new(1))?;
    Ok(block.pieces.items.len())
}

// How many candidates all faces of `a` have, and so how many steps their block takes.
fn candidate_count(alloc: Global, a: &Mesh, b: &Mesh) -> Result<usize, NoMemory> {
    let index = build(alloc, b)?;
    let mut total = 0usize;
    for i in 0..face_count(a) {
        total = total.saturating_add(candidates(alloc, &index, a, i + 1)?.len());
    }
    Ok(total)
}

#[test]
fn a_block_has_the_pieces_of_its_candidates(rt: HostRuntime) -> Result<(), Fail> {
    let alloc = rt.alloc();
    let cube = accepted(&rt, alloc, gen_cs::make(alloc, 1));
    same(&rt, &piece_count(alloc, &cube, &cube)?, &6);
    same(&rt, &candidate_count(alloc, &cube, &cube)?, &6);
    let Ok(octants) = gen_rll::make(alloc, 4, 2) else {
        panic!(rt; "a fault");
    };
    same(&rt, &piece_count(alloc, &octants, &cube)?, &24);
    same(&rt, &candidate_count(alloc, &octants, &cube)?, &24);
    Ok(())
}

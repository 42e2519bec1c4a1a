// All workers.
ghost use Rattle.std.specs.Prelude.{◌≡◌, ◌+◌, ◌≤◌, ◌∷◌, [], ◌++◌, length, IfOk, All, true};
ghost use Rattle.block_claims.specs.Seen.{IsTicketOf, IsWhole};
ghost use Rattle.block_claims.specs.Views.{is_done as is_done_view};
ghost use Rattle.block_workers.specs.Shares.{IsFreshTicket, IsShareOf, AreSharesOf};
ghost use Rattle.block_workers.specs.InPlace.{AllInPlace};
ghost use Rattle.block_workers.specs.InParts.{IsPlacedBy};

use crate::job::{BlockJob, Finished, Parts, Placed};
use crate::order::in_order;
use crate::worker::{Share, work};
use block_claims::{ClaimWord, Kind, Ticket, claims, rejoin, split};
use std::alloc::Global;
use std::thread::{Threads, join};
use vec_exact::NoMemory;

// The first ticket, the parts of its workers in the order of their numbers, and the blocks that they
// drew.
#[derive(Drop)]
struct Shares<P, T> {
    ticket: Ticket,
    parts: Vec<P>,
    finished: Vec<Finished<Placed<T>>>,
}

/// Does blocks 0 to `blocks` - 1. 1 to 64 workers, each in a thread of its own where one can be made,
/// draw the blocks one by one, and each puts all its blocks in one part. What is told of the blocks
/// stands in the order of their numbers. `NoMemory` where a block or the lists find no memory.
pub fn run_blocks<R: Threads, J: BlockJob>(
    rt: &R,
    alloc: Global,
    job: &J,
    blocks: u32,
    workers: u32,
) -> Result<Parts<J::Part, J::Output>, NoMemory>
    requires blocks { blocks ≤ J.blocks job.now }
    requires workers { (1 ≤ workers) × (workers ≤ 64) }
    ensures count { IfOk result (λ done. length done.blocks.items ≡ blocks) }
    ensures workers { IfOk result (λ done. length done.parts.items ≡ workers) }
    ensures parts { IfOk result (λ done. All (J.is_part job.now) done.parts.items) }
    // each block was put in one of the parts, where it is what the job gives
    ensures each { IfOk result (λ done.
        AllInPlace (IsPlacedBy (J.gives job.now) done.parts.items) done.blocks.items) }
{
    let (word, first) = claims(alloc, blocks)?;
    let all = spread(rt, alloc, job, &word, first, workers)?;
    let blocks = in_order(alloc, blocks, all.finished)?;
    Ok(Parts {
        parts: all.parts,
        blocks,
    })
}

// One worker here, and each other one in a thread of its own, which is started by a join. The worker
// of the first ticket has number 0, and the others count down from `workers` - 1.
fn spread<R: Threads, J: BlockJob>(
    rt: &R,
    alloc: Global,
    job: &J,
    claims: &ClaimWord,
    mut first: Ticket,
    workers: u32,
) -> Result<Shares<J::Part, J::Output>, NoMemory>
    requires blocks { claims.now.blocks ≤ J.blocks job.now }
    requires first { IsFreshTicket claims.now Kind.First first }
    requires workers { (1 ≤ workers) × (first.view.made + workers ≤ 65) }
    ensures shares { IfOk result
        (AreSharesOf (J.is_part job.now) (J.gives job.now) claims.now workers) }
    ensures made { IfOk result (λ shares. shares.ticket.view.made + 1 ≡ first.view.made + workers) }
    ensures back { IfOk result (λ shares. shares.ticket.view.back + 1 ≡ first.view.back + workers) }
    ensures done { IfOk result (λ shares. is_done_view shares.ticket.view ≡ true) }
    ensures whole { IfOk result (λ shares. IsWhole shares.ticket.view) }
{
    if workers == 1 {
        let share = work(alloc, job, claims, first, 0)?;
        return alone(alloc, share);
    }
    let others = workers - 1;
    let further = split(claims, &mut first);
    let (theirs, ours) = join(
        rt,
        || -> Result<Share<J::Part, J::Output>, NoMemory>
            requires { (claims.now.blocks ≤ J.blocks job.now)
                × IsFreshTicket claims.now Kind.Further further }
            ensures { IfOk result (IsShareOf (J.is_part job.entry.now) (J.gives job.entry.now)
                claims.entry.now Kind.Further others) }
        { work(alloc, job, claims, further, others) },
        || -> Result<Shares<J::Part, J::Output>, NoMemory>
            requires { (claims.now.blocks ≤ J.blocks job.now)
                × IsFreshTicket claims.now Kind.First first
                × (1 ≤ others) × (first.view.made + others ≤ 65) }
            ensures { IfOk result (λ shares. AreSharesOf
                (J.is_part job.entry.now) (J.gives job.entry.now) claims.entry.now others shares
                × (shares.ticket.view.made + 1 ≡ first.view.made + others)
                × (shares.ticket.view.back + 1 ≡ first.view.back + others)
                × (is_done_view shares.ticket.view ≡ true)) }
        { spread(rt, alloc, job, claims, first, others) },
    );
    let theirs = theirs?;
    let ours = ours?;
    joined(claims, ours, theirs)
}

// The share of one worker.
fn alone<P: Drop, T: Drop>(alloc: Global, share: Share<P, T>) -> Result<Shares<P, T>, NoMemory>
    ensures ticket { IfOk result (λ shares. shares.ticket ≡ share.ticket) }
    ensures parts { IfOk result (λ shares. shares.parts.items ≡ share.part ∷ []) }
    ensures finished { IfOk result (λ shares. shares.finished.items ≡ share.finished.items) }
{
    let Share {
        ticket,
        part,
        finished,
    } = share;
    let mut parts = Vec::new(alloc);
    parts.push(part)?;
    Ok(Shares {
        ticket,
        parts,
        finished,
    })
}

// The shares of the first ticket, with the share of another one behind them.
fn joined<P: Drop, T: Drop>(
    claims: &ClaimWord,
    ours: Shares<P, T>,
    theirs: Share<P, T>,
) -> Result<Shares<P, T>, NoMemory>
    requires ours { IsTicketOf claims.now ours.ticket }
    requires theirs { IsTicketOf claims.now theirs.ticket }
    requires first { ours.ticket.view.kind ≡ Kind.First }
    requires further { theirs.ticket.view.kind ≡ Kind.Further }
    ensures ours { IfOk result (λ shares. IsTicketOf claims.now shares.ticket) }
    ensures joined { IfOk result (λ shares. shares.ticket.view ≡ record ours.ticket.view {
      mine = ours.ticket.view.mine ++ theirs.ticket.view.mine;
      back = ours.ticket.view.back + 1;
    }) }
    ensures parts { IfOk result (λ shares.
        shares.parts.items ≡ ours.parts.items ++ theirs.part ∷ []) }
    ensures finished { IfOk result (λ shares.
        shares.finished.items ≡ ours.finished.items ++ theirs.finished.items) }
    ensures whole { IfOk result (λ shares. IsWhole shares.ticket.view) }
{
    let Shares {
        mut ticket,
        mut parts,
        mut finished,
    } = ours;
    let Share {
        ticket: other,
        part: last,
        finished: mut more,
    } = theirs;
    rejoin(claims, &mut ticket, other);
    parts.push(last)?;
    finished.append(&mut more)?;
    Ok(Shares {
        ticket,
        parts,
        finished,
    })
}

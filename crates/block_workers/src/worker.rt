// One worker.
ghost use Rattle.std.specs.Prelude.{◌≡◌, ◌≤◌, IfOk, true};
ghost use Rattle.block_claims.specs.Seen.{IsWhole};
ghost use Rattle.block_claims.specs.Views.{is_done as is_done_view};
ghost use Rattle.block_workers.specs.Shares.{IsFreshTicket, IsShareOf};

use crate::job::{BlockJob, Finished, Placed};
use block_claims::{ClaimWord, Ticket, draw};
use std::alloc::Global;
use vec_exact::NoMemory;

// A worker's ticket, its part, and the blocks that it drew, which are all in that part.
#[derive(Drop)]
pub struct Share<P, T> {
    pub ticket: Ticket,
    pub part: P,
    pub finished: Vec<Finished<Placed<T>>>,
}

// Draws blocks and puts them in the part with this number, until none is left.
pub fn work<J: BlockJob>(
    alloc: Global,
    job: &J,
    claims: &ClaimWord,
    mut ticket: Ticket,
    number: u32,
) -> Result<Share<J::Part, J::Output>, NoMemory>
    requires blocks { claims.now.blocks ≤ J.blocks job.now }
    requires ticket { IsFreshTicket claims.now ticket.view.kind ticket }
    ensures share { IfOk result
        (IsShareOf (J.is_part job.now) (J.gives job.now) claims.now ticket.view.kind number) }
    ensures made { IfOk result (λ share. share.ticket.view.made ≡ ticket.view.made) }
    ensures back { IfOk result (λ share. share.ticket.view.back ≡ ticket.view.back) }
    ensures done { IfOk result (λ share. is_done_view share.ticket.view ≡ true) }
    ensures whole { IfOk result (λ share. IsWhole share.ticket.view) }
{
    let mut part = job.begin(alloc);
    let mut finished = Vec::new(alloc);
    loop {
        let Some(block) = draw(claims, &mut ticket) else {
            break;
        };
        let output = job.run(alloc, block, &mut part)?;
        let output = Placed {
            part: number,
            output,
        };
        finished.push(Finished { block, output })?;
    }
    Ok(Share {
        ticket,
        part,
        finished,
    })
}

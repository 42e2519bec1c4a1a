// The word and the tickets.
ghost use Rattle.std.specs.Prelude.{◌≡◌, ℕ, ◌+◌, ◌<◌, ◌≤◌, [], ◌∷◌, ◌++◌, None, Some, IfOk, IfSome, IfNone, length, List, Contains};
ghost use Rattle.block_claims.specs.declared.rule.View.{View as Viewed};
ghost use Rattle.block_claims.specs.Views.{first_view, further_view, is_done as is_done_view};
ghost use Rattle.block_claims.specs.Claimed.{IsClaimed};
ghost use Rattle.block_claims.specs.Seen.{IsTicketOf, IsWhole};

use crate::rule::{Claiming, Draws, Kind, Looks, Rejoins, Splits, View};
use atomic_table::{Seat, Table};
use std::alloc::Global;
use std::marker::Model;
use vec_exact::NoMemory;

/// The word from which tickets draw the numbers of blocks. It starts at 0, and each draw adds 1.
#[derive(Drop)]
pub struct ClaimWord {
    table: Table<(), View, u32, Claiming, Global>,
    blocks: u32,
}

impl Model for ClaimWord {
    ghost use Rattle.std.specs.Prelude.{◌≡◌};
    ghost use Rattle.block_claims.specs.Seen.{ClaimWordValue};

    ghost Value = { ClaimWordValue };

    ghost view = { λ c. record { table = c.table.shared.table_id; blocks = c.blocks } };

    ghost invariant = { λ c. (c.table.shared.table_id.words ≡ 1)
        × (c.table.shared.table_id.slots ≡ 0) × (c.table.shared.key ≡ c.blocks) };
}

/// The right to draw blocks, one for each worker. Contracts see what it has drawn.
#[derive(Drop)]
pub struct Ticket {
    seat: Seat<(), View>,
    done: bool,
}

impl Model for Ticket {
    ghost use Rattle.std.specs.Prelude.{◌≡◌, false, []};
    ghost use Rattle.block_claims.specs.Seen.{TicketValue};
    ghost use Rattle.block_claims.specs.Views.{is_spent, is_done};

    ghost Value = { TicketValue };

    ghost view = { λ t. record { table = t.seat.table_id; view = t.seat.me.0 } };

    ghost invariant = { λ t. (t.seat.me.1 ≡ []) × (t.done ≡ is_done t.seat.me.0)
        × (is_spent t.seat.me.0.kind ≡ false) };
}

/// A word at 0 for blocks 0 to `blocks` - 1, and the first ticket, which has drawn nothing.
/// `NoMemory` where the word finds no memory.
pub fn claims(alloc: Global, blocks: u32) -> Result<(ClaimWord, Ticket), NoMemory>
    ensures blocks { IfOk result (λ r. r.0.blocks ≡ blocks) }
    ensures ours { IfOk result (λ r. IsTicketOf r.0 r.1) }
    ensures first { IfOk result (λ r. r.1.view ≡ first_view blocks) }
{
    let (table, seat) = Table::of_words(alloc, &[0], &blocks)?;
    let word = ClaimWord { table, blocks };
    let ticket = Ticket { seat, done: false };
    Ok((word, ticket))
}

/// One more ticket, which has drawn nothing. At most 64 are made, the first one among them.
/// It takes no memory.
pub fn split(claims: &ClaimWord, ticket: &mut Ticket) -> Ticket
    requires ours { IsTicketOf claims.now ticket.old }
    requires first { ticket.old.view.kind ≡ Kind.First }
    requires room { ticket.old.view.made < 64 }
    ensures ours { IsTicketOf claims.now ticket.new }
    ensures theirs { IsTicketOf claims.now result }
    ensures counted { ticket.new.view ≡ record ticket.old.view { made = ticket.old.view.made + 1 } }
    ensures fresh { result.view ≡ further_view claims.now.blocks }
{
    let seat = claims.table.shared.split_seat::<Splits>(&mut ticket.seat);
    Ticket { seat, done: false }
}

/// The next block, counted from 0, or None where no block is left; the ticket is done then.
/// No other ticket has or will have the number. It takes no memory.
pub fn draw(claims: &ClaimWord, ticket: &mut Ticket) -> Option<u32>
    requires ours { IsTicketOf claims.now ticket.old }
    requires going { ticket.old.view.last ≡ None }
    ensures ours { IsTicketOf claims.now ticket.new }
    ensures block { IfSome result (λ s. s < claims.now.blocks) }
    ensures fresh { IfSome result (λ s. ¬ Contains ticket.old.view.mine s) }
    ensures drawn { IfSome result (λ s. ticket.new.view
        ≡ record ticket.old.view { mine = ticket.old.view.mine ++ s ∷ [] }) }
    // it found the word at the number of blocks or past it, and keeps what it found
    ensures none_left { IfNone result ((old : ℕ) × (claims.now.blocks ≤ old)
        × (ticket.new.view ≡ record ticket.old.view { last = Some old })) }
    ensures whole { IsWhole ticket.new.view }
    ensures few { length ticket.new.view.mine ≤ claims.now.blocks }
{
    let blocks = u64::from(claims.blocks);
    let found = claims
        .table
        .shared
        .fetch_add::<Draws>(&mut ticket.seat, 0, 1);
    if found < blocks {
        Some(found as u32)
    } else {
        ticket.done = true;
        None
    }
}

/// Whether the ticket has found that no block is left. It takes no memory.
pub fn is_done(ticket: &Ticket) -> bool
    ensures { result ≡ is_done_view ticket.now.view }
{
    ticket.done
}

/// Takes a further ticket back: its blocks go behind those of the first ticket.
/// It takes no memory.
pub fn rejoin(claims: &ClaimWord, ticket: &mut Ticket, other: Ticket)
    requires ours { IsTicketOf claims.now ticket.old }
    requires theirs { IsTicketOf claims.now other }
    requires first { ticket.old.view.kind ≡ Kind.First }
    requires further { other.view.kind ≡ Kind.Further }
    ensures ours { IsTicketOf claims.now ticket.new }
    ensures joined { ticket.new.view ≡ record ticket.old.view {
      mine = ticket.old.view.mine ++ other.view.mine;
      back = ticket.old.view.back + 1;
    } }
    ensures whole { IsWhole ticket.new.view }
{
    let Ticket { seat, done: _ } = other;
    claims
        .table
        .shared
        .join_seat::<Rejoins>(&mut ticket.seat, seat);
    // A join tells nothing of the rule. A look does.
    let _word = claims.table.shared.load::<Looks>(&mut ticket.seat, 0);
}

/// The word at the end. With the views of all tickets ever made it meets the rule.
/// It takes no memory.
pub fn last_word(claims: ClaimWord) -> u64
    ensures { (views : List Viewed) × IsClaimed claims.blocks result views }
{
    let ClaimWord { table, blocks: _ } = claims;
    let closed = table.close();
    let word = closed.word(0);
    closed.free();
    word
}

/// The word at the end, beside a ticket of these claims. With the views of all tickets ever made,
/// of which the view of this ticket is one, it meets the rule. So where the first ticket is done and
/// has taken all others back, the word is above the number of blocks, by no more than the number of
/// tickets that were made. It takes no memory.
pub fn last_word_of(claims: ClaimWord, ticket: Ticket) -> u64
    requires { IsTicketOf claims ticket }
    ensures { (views : List Viewed) × IsClaimed claims.blocks result views
        × Contains views ticket.view }
{
    let ClaimWord { table, blocks: _ } = claims;
    let Ticket { seat, done: _ } = ticket;
    let closed = table.close_with(seat);
    let last = closed.word(0);
    closed.free();
    last
}

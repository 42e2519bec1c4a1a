// What is known of each ticket, the rule that word and views meet, and the steps on the word.
// No value of these types is made: they exist in proofs alone.
use atomic_table::{Join, Play, Split, TableRule};
use std::collections::LinkedList;

/// What sort of ticket a view is of. No value of it is made.
pub enum Kind {
    /// The ticket that `claims` gave.
    First,
    /// A ticket that `split` gave.
    Further,
    /// A ticket that `rejoin` took back.
    Spent,
}

/// What is known of a ticket. No value of it is made.
pub struct View {
    pub kind: Kind,
    /// How many blocks there are.
    pub blocks: u32,
    /// The block numbers that the ticket has drawn, counted from 0, in the order of the draws.
    pub mine: LinkedList<u32>,
    /// The word that the ticket found once no block was left.
    pub last: Option<u64>,
    /// Of the first ticket: how many tickets were made, itself among them.
    pub made: u32,
    /// Of the first ticket: how many tickets it took back.
    pub back: u32,
}

// The rule. Its key is the number of blocks.
pub struct Claiming;

impl TableRule<(), View, u32> for Claiming {
    ghost use Rattle.block_claims.specs.OneWord.{IsOneClaimedWord};
    ghost use Rattle.block_claims.specs.Views.{first_view};

    ghost holds = { IsOneClaimedWord };

    ghost first = { first_view };
}

pub struct Draws;

impl Play<(), View> for Draws {
    ghost use Rattle.block_claims.specs.OneWord.{Drew};

    ghost then = { Drew };
}

pub struct Looks;

impl Play<(), View> for Looks {
    ghost use Rattle.block_claims.specs.OneWord.{Looked};

    ghost then = { Looked };
}

pub struct Splits;

impl Split<View> for Splits {
    ghost use Rattle.block_claims.specs.OneWord.{split_view, new_view};

    ghost left = { split_view };

    ghost right = { new_view };
}

pub struct Rejoins;

impl Join<View> for Rejoins {
    ghost use Rattle.block_claims.specs.OneWord.{joined_view};
    ghost use Rattle.block_claims.specs.Views.{spent_view};

    ghost both = { joined_view };

    ghost spent = { spent_view };
}

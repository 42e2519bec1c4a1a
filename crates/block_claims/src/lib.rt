//! Block numbers that workers draw from one shared word, each number once.
#![tactic(auto)]

mod rule;
mod tickets;

pub use rule::{Kind, View};
pub use tickets::{
    ClaimWord, Ticket, claims, draw, is_done, last_word, last_word_of, rejoin, split,
};

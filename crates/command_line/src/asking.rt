// From right items to the command, through clap.
ghost use Rattle.std.specs.Prelude.{◌≡◌, IfOk, map, true};
ghost use Rattle.command_line.specs.Table.{rules_of};
ghost use Rattle.command_line.specs.Views.{item_of};
ghost use Rattle.command_line.specs.Words.{are_right, choice_of, HasLimits, stands_in, value_in};

use crate::choices::Chosen;
use crate::choosing::chosen;
use crate::items::Item;
use crate::reading::read;
use crate::spelling::spelled;
use crate::table::Command;
use clap::error::ErrorKind;
use std::alloc::{AllocError, Global};

/// The command with its options, from items that are right for it.
pub fn asked(alloc: Global, command: Command, items: &[Item]) -> Result<Chosen, AllocError>
    requires { are_right (rules_of command) (map item_of items.now) ≡ true }
    ensures chosen { IfOk result (λ c.
        c ≡ choice_of command
        (value_in (map item_of items.now))
        (stands_in (map item_of items.now))) }
    ensures limits { IfOk result HasLimits }
{
    let words = spelled(alloc, command, items)?;
    match read(alloc, command, words.as_slice()) {
        Ok(matches) => chosen(alloc, command, &matches),
        Err(error) => match error.kind() {
            ErrorKind::OutOfMemory => Err(AllocError),
            // Clap takes the words of right items.
            _ => unreachable!(),
        },
    }
}

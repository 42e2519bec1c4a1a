//! The command line of the program.
//!
//! The words are first read into items by hand, which is the exact test of the grammar: clap alone
//! would take more, as an empty value, a value that begins with a dash, or a last word `--`. The
//! items of right words are then spelled one word each, `--name=value`, in the order of the table,
//! and clap reads the options from these words.
#![tactic(auto)]

ghost use Rattle.std.specs.Prelude.{◌≡◌, Some, IfErr, IfOk};
ghost use Rattle.command_line.specs.Words.{options_of, texts, SaysUsage, HasLimits};

mod asking;
mod choices;
mod choosing;
mod grammar;
mod items;
mod reading;
mod spelling;
mod table;

use asking::asked;
pub use choices::{Chosen, OptFault, Text};
use grammar::are_right;
use items::items_in;
use std::alloc::Global;
use table::Command;

/// The command with its options that the words ask for. `words` are those behind the program's own
/// name. `Usage` comes exactly where they are outside the grammar, `NoMemory` where memory runs out.
#[tactic(auto, unfolding(crate::specs::Words::options_of))]
pub fn options(alloc: Global, words: &[String]) -> Result<Chosen, OptFault>
    ensures chosen { IfOk result (λ c. options_of (texts words.now) ≡ Some c) }
    ensures refused { IfErr result (SaysUsage (options_of (texts words.now))) }
    ensures limits { IfOk result HasLimits }
{
    let [word, rest @ ..] = words else {
        return Err(OptFault::Usage);
    };
    let Some(command) = Command::named(word) else {
        return Err(OptFault::Usage);
    };
    let Some(items) = items_in(alloc, rest)? else {
        return Err(OptFault::Usage);
    };
    if !are_right(command.rules(), &items) {
        return Err(OptFault::Usage);
    }
    Ok(asked(alloc, command, &items)?)
}

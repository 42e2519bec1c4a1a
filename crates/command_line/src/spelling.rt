// The words that clap reads: one word for each option, in the order of the table.
ghost use Rattle.std.specs.Prelude.{◌≡◌, ◌∷◌, [], Some, IfOk, map, option_map, string_bytes};
ghost use Rattle.command_line.specs.Clap.{spelled, values_of, words_for};
ghost use Rattle.command_line.specs.Words.{at, texts};
ghost use Rattle.command_line.specs.Views.{item_of};

use crate::items::Item;
use crate::table::Command;
use std::alloc::{AllocError, Global};

fn item_named<'a>(items: &[Item<'a>], name: &str) -> Option<Item<'a>>
    ensures { option_map (λ i. option_map (λ v. v.now) i.value) result
        ≡ at (map item_of items.now) name.now }
{
    for item in items {
        if item.name == name {
            return Some(*item);
        }
    }
    None
}

fn word_for(alloc: Global, name: &str, value: Option<&str>) -> Result<String, AllocError>
    ensures { IfOk result (λ word. string_bytes word ∷ []
        ≡ words_for name.now (Some (option_map (λ v. v.now) value.entry))) }
{
    match value {
        Some(value) => format!(in alloc; "--{name}={value}"),
        None => format!(in alloc; "--{name}"),
    }
}

/// The word of the command, and one word for each of its options that stands among the items.
pub fn spelled(alloc: Global, command: Command, items: &[Item]) -> Result<Vec<String>, AllocError>
    ensures { IfOk result (λ words. texts words.items
        ≡ spelled command (values_of command (at (map item_of items.now)))) }
{
    let mut words = Vec::new(alloc);
    words.push(String::from_str(alloc, command.word())?)?;
    for rule in command.rules() {
        if let Some(item) = item_named(items, rule.name) {
            words.push(word_for(alloc, rule.name, item.value)?)?;
        }
    }
    Ok(words)
}

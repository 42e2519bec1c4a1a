// The words after the command, read into items.
ghost use Rattle.std.specs.Prelude.{◌≡◌, ◌≤◌, IfOk, IfSome, length, map, option_map};
ghost use Rattle.command_line.specs.Items.{is_flag, items_of};
ghost use Rattle.command_line.specs.Words.{texts};
ghost use Rattle.command_line.specs.Views.{item_of};
ghost use Rattle.command_line.specs.FirstItem.{first_item_of, in_two_words};

use std::alloc::{AllocError, Global};

/// An item of the command line: the name of an option, and its value. A flag has none.
#[derive(Clone, Copy)]
pub struct Item<'a> {
    pub name: &'a str,
    pub value: Option<&'a str>,
}

fn is_flag(word: &str) -> bool
    ensures { result ≡ is_flag word.now }
{
    word == "--dual" || word == "--masked"
}

/// An option whose value is the next word, and the words behind that.
fn in_two_words<'a>(name: &'a str, after: &'a [String]) -> Option<(Item<'a>, &'a [String])>
    ensures item { option_map (λ p. (item_of p.0, texts p.1.now)) result
        ≡ in_two_words name.entry.now (texts after.entry.now) }
    ensures behind { IfSome result (λ p. length p.1.now ≤ length after.entry.now) }
{
    let [value, rest @ ..] = after else {
        return None;
    };
    let value = Some(value.as_str());
    Some((Item { name, value }, rest))
}

/// The item that begins with `word`, and the words behind it.
#[tactic(auto, using(crate::proofs::Lists::list_any_nowhere))]
fn first_item<'a>(word: &'a str, after: &'a [String]) -> Option<(Item<'a>, &'a [String])>
    ensures item { option_map (λ p. (item_of p.0, texts p.1.now)) result
        ≡ first_item_of word.entry.now (texts after.entry.now) }
    ensures behind { IfSome result (λ p. length p.1.now ≤ length after.entry.now) }
{
    let name = word.strip_prefix("--")?;
    if is_flag(word) {
        return Some((Item { name, value: None }, after));
    }
    match name.split_once('=') {
        Some((name, value)) => Some((
            Item {
                name,
                value: Some(value),
            },
            after,
        )),
        None => in_two_words(name, after),
    }
}

/// The items of the words, or none where a word stands outside an item.
pub fn items_in<'a>(alloc: Global, words: &'a [String]) -> Result<Option<Vec<Item<'a>>>, AllocError>
    ensures { IfOk result (λ found.
        option_map (λ v. map item_of v.items) found ≡ items_of (texts words.now)) }
{
    let mut items = Vec::new(alloc);
    let mut rest = words;
    while let [word, after @ ..] = rest {
        let Some((item, behind)) = first_item(word, after) else {
            return Ok(None);
        };
        items.push(item)?;
        rest = behind;
    }
    Ok(Some(items))
}

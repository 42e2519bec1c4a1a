// Whether items are right for a command.
ghost use Rattle.std.specs.Prelude.{◌≡◌, ◌≤◌, ◌<◌, Some, None, [], ◌∷◌, length, map, option_map, if◌then◌else◌};
ghost use Rattle.std.specs.Str.{all_ascii_digits};
ghost use Rattle.std.specs.Str.Parse.{digits_value};
ghost use Rattle.command_line.specs.Words.{all_kept, all_known, are_right, has_form, is_number, is_numeral, is_option, is_value, keeps, named};
ghost use Rattle.command_line.specs.Views.{item_of, rule_of, StandsAs};

use crate::items::Item;
use crate::table::{Form, Rule};

fn is_value(text: &str) -> bool
    ensures { result ≡ is_value text.now }
{
    match text.as_bytes() {
        [] => false,
        [first, ..] => *first != b'-',
    }
}

fn all_digits(bytes: &[u8]) -> bool
    ensures { result ≡ all_ascii_digits bytes.now }
{
    for b in bytes {
        if !b.is_ascii_digit() {
            return false;
        }
    }
    true
}

/// The number that a text of 1 to 6 digits writes.
pub fn number_in(text: &str) -> Option<u32>
    ensures { result ≡ (if is_numeral text.now then Some (digits_value 10 text.now) else None) }
{
    if text.is_empty() || text.len() > 6 || !all_digits(text.as_bytes()) {
        return None;
    }
    text.parse::<u32>().ok()
}

fn is_number(low: u32, high: u32, text: &str) -> bool
    ensures { result ≡ is_number low high text.now }
{
    match number_in(text) {
        Some(n) => low <= n && n <= high,
        None => false,
    }
}

fn has_form(form: Form, value: Option<&str>) -> bool
    ensures { result ≡ has_form form (option_map (λ v. v.now) value.entry) }
{
    match (form, value) {
        (Form::Text, Some(text)) => is_value(text),
        (Form::Number { low, high }, Some(text)) => is_number(low, high, text),
        (Form::Flag, None) => true,
        _ => false,
    }
}

/// The items of one name.
enum Standing<'a> {
    None,
    One(Item<'a>),
    More,
}

fn named<'a>(items: &[Item<'a>], name: &str) -> Standing<'a>
    ensures { StandsAs result (named name.now (map item_of items.now)) }
{
    let mut found = None;
    for item in items {
        if item.name == name {
            if found.is_some() {
                return Standing::More;
            }
            found = Some(*item);
        }
    }
    match found {
        None => Standing::None,
        Some(item) => Standing::One(item),
    }
}

fn keeps(rule: &Rule, items: &[Item]) -> bool
    ensures { result ≡ keeps (rule_of rule.now) (named rule.now.name.now (map item_of items.now)) }
{
    match named(items, rule.name) {
        Standing::None => !rule.required,
        Standing::One(item) => has_form(rule.form, item.value),
        Standing::More => false,
    }
}

fn is_option(rules: &[Rule], item: &Item) -> bool
    ensures { result ≡ is_option (map rule_of rules.now) (item_of item.now) }
{
    for rule in rules {
        if rule.name == item.name {
            return true;
        }
    }
    false
}

fn all_kept(rules: &[Rule], items: &[Item]) -> bool
    ensures { result ≡ all_kept (map rule_of rules.now) (map item_of items.now) }
{
    for rule in rules {
        if !keeps(rule, items) {
            return false;
        }
    }
    true
}

fn all_known(rules: &[Rule], items: &[Item]) -> bool
    ensures { result ≡ all_known (map rule_of rules.now) (map item_of items.now) }
{
    for item in items {
        if !is_option(rules, item) {
            return false;
        }
    }
    true
}

/// Whether each rule is kept, and each item is of an option of the command.
pub fn are_right(rules: &[Rule], items: &[Item]) -> bool
    ensures { result ≡ are_right (map rule_of rules.now) (map item_of items.now) }
{
    all_kept(rules, items) && all_known(rules, items)
}

//! Options with their values.
ghost use Rattle.std.specs.Prelude.{◌≡◌, ◌≤◌, ℕ, List, [], ◌∷◌, ◌++◌, None, length, map, string_bytes, IfOk};
ghost use Rattle.std.specs.Prelude.{IfSome, IfNone};
ghost use Rattle.std.specs.Option.{option_map};
ghost use Rattle.command_words.specs.Words.{Given, setting_of, switch_by, switch_of, cut, settings_from, settings_of, value_with};
ghost use Rattle.command_words.specs.Words.{are_once};
ghost use Rattle.command_words.specs.Views.{given, all_given};

use crate::flag::{Flag, flag_named, is_same};
use crate::table::{ValueKind, YES};
use crate::value::is_value;
use std::alloc::{AllocError, Global};

/// An option with its value.
#[derive(Clone, Copy, Debug, Drop)]
pub struct Setting<'a> {
    pub flag: Flag,
    pub value: &'a str,
}

/// The option of that name with that value.
fn setting_with<'a>(name: &str, value: &'a str) -> Option<Setting<'a>>
    ensures { option_map given result ≡ setting_of name.now value.now }
{
    let flag = flag_named(name)?;
    if is_value(value.as_bytes()) {
        Some(Setting { flag, value })
    } else {
        None
    }
}

/// The setting of an option that stands alone; none of one that has a value.
fn switch_with<'a>(flag: Flag) -> Option<Setting<'a>>
    ensures { option_map given result ≡ switch_by flag }
{
    match flag.row().kind {
        ValueKind::Yes => Some(Setting { flag, value: YES }),
        ValueKind::File | ValueKind::Number(_, _) | ValueKind::Page | ValueKind::Form => None,
        ValueKind::Level | ValueKind::Weight => None,
    }
}

/// The option of that name, where it is one that stands alone.
fn switch<'a>(word: &str) -> Option<Setting<'a>>
    ensures { option_map given result ≡ switch_of word.now }
{
    let flag = flag_named(word)?;
    switch_with(flag)
}

/// A word cut at its first `=`, where it has one.
fn cut(word: &str) -> Option<(&str, &str)>
    ensures { option_map (λ parts. (parts.0.now, parts.1.now)) result ≡ cut word.now }
{
    word.split_once('=')
}

/// The setting that a word begins, and the words behind it.
fn next_setting<'a>(word: &'a str, after: &'a [String]) -> Option<(Setting<'a>, &'a [String])>
    ensures none { IfNone result ((done : List Given) → settings_from done (word.now ∷ map string_bytes after.now) ≡ None) }
    ensures some { IfSome result (λ found. (done : List Given)
        → settings_from done (word.now ∷ map string_bytes after.now)
        ≡ settings_from (done ++ given found.0 ∷ []) (map string_bytes found.1.now)) }
    ensures shorter { IfSome result (λ found. length found.1.now ≤ length after.now) }
{
    if let Some((name, value)) = cut(word) {
        let setting = setting_with(name, value)?;
        return Some((setting, after));
    }
    if let Some(alone) = switch(word) {
        return Some((alone, after));
    }
    let (value, behind) = after.split_first()?;
    let setting = setting_with(word, value.as_str())?;
    Some((setting, behind))
}

/// The options of the words, in their order: `--name value` or `--name=value`, or `--name` alone where its value is `YES`. None where a
/// word is something else.
pub(crate) fn settings<'a>(
    alloc: Global,
    words: &'a [String],
) -> Result<Option<Vec<Setting<'a>>>, AllocError>
    ensures { IfOk result (λ found. option_map (λ settings. all_given settings.items) found
        ≡ settings_of (map string_bytes words.now)) }
{
    let mut settings = Vec::new(alloc);
    let mut rest = words;
    while let [word, after @ ..] = rest {
        let Some((setting, behind)) = next_setting(word.as_str(), after) else {
            return Ok(None);
        };
        settings.push(setting)?;
        rest = behind;
    }
    Ok(Some(settings))
}

/// The value of the first setting of this option.
pub(crate) fn value_with<'a>(settings: &[Setting<'a>], flag: Flag) -> Option<&'a str>
    ensures { option_map (λ value. value.now) result ≡ value_with flag (all_given settings.now) }
{
    for setting in settings {
        if is_same(setting.flag, flag) {
            return Some(setting.value);
        }
    }
    None
}

/// Whether no option stands twice.
pub(crate) fn are_once(settings: &[Setting<'_>]) -> bool
    ensures { result ≡ are_once (all_given settings.now) }
{
    for (place, setting) in settings.iter().enumerate() {
        if value_with(&settings[place + 1..], setting.flag).is_some() {
            return false;
        }
    }
    true
}

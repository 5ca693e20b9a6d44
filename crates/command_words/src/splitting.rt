// Options and their values in words.
ghost use Rattle.std.specs.Prelude.{◌≡◌, ◌<◌, length, None, Some, IfSome, MatchOption, option_map, map, string_bytes};
ghost use Rattle.std.specs.Option.{option_copied};
ghost use Rattle.command_model.specs.Options.{before_equals, after_equals, own_value, joined, one_word};
ghost use Rattle.command_words.specs.Splits.{IsCut, setting_with, First, first_setting};
ghost use Rattle.command_words.specs.Settings.{setting_of};
ghost use Rattle.command_words.specs.Shapes.{shape_meant};

use crate::settings::Setting;
use crate::shapes::Shape;

/// The first option of some words, and the words behind it. There is none where they are no option.
pub(crate) fn first_setting<'a>(
    shape: &Shape,
    words: &'a [String],
) -> Option<(Setting<'a>, &'a [String])>
    ensures exact { option_map (λ p. record { setting = setting_of p.0; rest = map string_bytes p.1.now }) result
        ≡ first_setting (shape_meant shape.now) (map string_bytes words.now) }
    ensures shorter { IfSome result (λ p. length p.1.now < length words.now) }
{
    match words {
        [] => None,
        [word] => {
            let setting = one_word(shape, word.as_str())?;
            Some((setting, &[]))
        }
        [word, value, rest @ ..] => {
            if shape.takes_value(word.as_str()) {
                let value = own_value(value.as_str())?;
                let setting = Setting {
                    name: word.as_str(),
                    value: Some(value),
                };
                return Some((setting, rest));
            }
            let setting = one_word(shape, word.as_str())?;
            Some((setting, &words[1..]))
        }
    }
}

// An option of one word: a flag, or a name with its value.
fn one_word<'a>(shape: &Shape, word: &'a str) -> Option<Setting<'a>>
    ensures { option_map setting_of result ≡ one_word (shape_meant shape.now) word.now }
{
    if shape.is_flag(word) {
        return Some(Setting {
            name: word,
            value: None,
        });
    }
    joined(shape, word)
}

// An option and its value in one word.
fn joined<'a>(shape: &Shape, word: &'a str) -> Option<Setting<'a>>
    ensures { option_map setting_of result ≡ joined (shape_meant shape.now) word.now }
{
    match parts(word) {
        None => None,
        Some((name, value)) => setting(shape, name, value),
    }
}

// An option with its value, of at least one byte.
fn setting<'a>(shape: &Shape, name: &'a str, value: &'a str) -> Option<Setting<'a>>
    ensures { option_map setting_of result ≡ setting_with (shape_meant shape.now) name.now value.now }
{
    if value.is_empty() || !shape.takes_value(name) {
        return None;
    }
    Some(Setting {
        name,
        value: Some(value),
    })
}

// What stands before and behind the first equals sign.
fn parts(word: &str) -> Option<(&str, &str)>
    ensures { MatchOption result (after_equals word.now ≡ None)
        (λ p. IsCut word.now p.0.now p.1.now) }
{
    word.split_once('=')
}

// A value in a word of its own.
fn own_value(word: &str) -> Option<&str>
    ensures { option_copied result ≡ own_value word.now }
{
    match word.as_bytes() {
        [] => None,
        [b'-', ..] => None,
        _ => Some(word),
    }
}

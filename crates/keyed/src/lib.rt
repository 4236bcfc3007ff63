// The parts of a statement that are words key=value.
#![tactic(auto)]

ghost use Rattle.std.specs.Prelude.{◌≡◌, is_some, IfOk, Some, None, Ok, Err, string_bytes, MatchResult};
ghost use Rattle.std.specs.Option.{option_copied};
ghost use Rattle.line_fault.specs.declared.Key.TheVariants.{Name};
ghost use Rattle.line_fault.specs.declared.LineFault.TheVariants.{Missing};
ghost use Rattle.keyed.specs.Keyed.{value_of, values, Given, Part, Optional, Named, one_of, misplaced, Told};

use line_fault::{Key, LineFault};
use part::Value;
use std::alloc::Global;
use words::Words;

// The value of a word key=value of that key.
fn value_of<'a>(word: &'a [u8], key: Key) -> Option<&'a [u8]>
    ensures { option_copied result ≡ value_of key word.now }
{
    word.strip_prefix(key.word().as_bytes())?.strip_prefix(b"=")
}

// The value of the part of that key, where there is one.
fn given<'a>(words: &Words<'a>, key: Key) -> Result<Option<&'a [u8]>, LineFault>
    ensures { Given key (values key words.now) result }
{
    let mut found = None;
    for word in words.texts() {
        if let Some(value) = value_of(word, key) {
            if found.is_some() {
                return Err(LineFault::Twice(key));
            }
            found = Some(value);
        }
    }
    Ok(found)
}

// Whether a word is key=value of that key.
fn is_of(word: &[u8], key: Key) -> bool
    ensures { result ≡ is_some (value_of key word.now) }
{
    value_of(word, key).is_some()
}

fn is_one_of(word: &[u8], keys: &[Key]) -> bool
    ensures { result ≡ one_of keys.now word.now }
{
    keys.iter().any(|key| is_of(word, *key))
}

// Refuses a word that is no part of one of the keys; `before` words stand before these.
pub fn only(words: &Words, before: usize, keys: &[Key]) -> Result<(), LineFault>
    ensures { MatchResult result (λ _. misplaced keys.now before words.now ≡ None) (λ e. Told (misplaced keys.now before words.now) e) }
{
    match words.texts().iter().position(|word| !is_one_of(word, keys)) {
        Some(index) => Err(LineFault::Misplaced(before.saturating_add(index + 1))),
        None => Ok(()),
    }
}

// The value of a part, or `absent` where no word gives it.
fn read_or<T: Value>(words: &Words, key: Key, absent: Result<T, LineFault>) -> Result<T, LineFault>
    ensures { Part (T.means key) absent key (values key words.now) result }
{
    given(words, key)?.map_or(absent, |text| T::read(text, key))
}

// The value of a part that has to be there.
pub fn needed<T: Value>(words: &Words, key: Key) -> Result<T, LineFault>
    ensures { Part (T.means key) (Err (Missing key)) key (values key words.now) result }
{
    read_or(words, key, Err(LineFault::Missing(key)))
}

// The value of a part, or `otherwise`.
pub fn value_or<T: Value>(words: &Words, key: Key, otherwise: T) -> Result<T, LineFault>
    ensures { Part (T.means key) (Ok otherwise) key (values key words.now) result }
{
    read_or(words, key, Ok(otherwise))
}

// The value of a part, where there is one.
pub fn optional<T: Value>(words: &Words, key: Key) -> Result<Option<T>, LineFault>
    ensures { Part (Optional (T.means key)) (Ok None) key (values key words.now) result }
{
    given(words, key)?
        .map(|text| T::read(text, key))
        .transpose()
}

pub fn name_given(heap: Global, words: &Words) -> Result<Option<String>, LineFault>
    ensures { IfOk result (λ name. Named string_bytes (values Name words.now) name) }
{
    given(words, Key::Name)?
        .map(|text| part::name(heap, text))
        .transpose()
}

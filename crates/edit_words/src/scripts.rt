//! The words that are edits.
ghost use Rattle.std.specs.Prelude.{◌≡◌, ◌≤◌, ◌<◌, ◌+◌, IfOk, codes, drop, length, take};
ghost use Rattle.std.specs.List.{AllByRecursion};
ghost use Rattle.std.specs.Option.{option_map};
ghost use Rattle.edit_words.specs.Reading.{IsShort};
ghost use Rattle.edit_model.specs.EditWords as plain;
ghost use Rattle.edit_model.specs.EditWords.{MOST_WORD_BYTES, set_of, remove_of, drop_of, words_behind};
ghost use Rattle.edit_words.specs.Meaning.{edit_of, said_at, texts};
ghost use Rattle.edit_words.specs.Verbs.{word_of, recipient_dropped, attachment_dropped};

use crate::decimals::read_place_number;
use crate::edit_list::Edits;
use crate::edits::Edit;
use crate::keys::{read_key, read_kind};
use crate::places::{read_message, read_place};
use crate::values::read_value;
use crate::verbs::{Verb, verb_of};
use carrier_io::{NoMemory, Numbers};
use prop_values::Prop;
use std::alloc::Global;

/// The most bytes of a word. The value that such a word says is within what any kind may have.
const LONGEST_WORD: usize = 1_048_576;

/// The edit that sets a property.
fn read_set(
    alloc: Global,
    place: &str,
    key: &str,
    kind: &str,
    value: &str,
) -> Result<Option<Edit>, NoMemory>
    requires { length value.now ≤ MOST_WORD_BYTES }
    ensures { IfOk result (λ r. option_map edit_of r ≡ set_of place.now key.now kind.now value.now) }
{
    let Some(place) = read_place(alloc, place)? else {
        return Ok(None);
    };
    let Some(key) = read_key(key.as_bytes()) else {
        return Ok(None);
    };
    let Some(kind) = read_kind(kind) else {
        return Ok(None);
    };
    let Some(value) = read_value(alloc, kind, value)? else {
        return Ok(None);
    };
    let prop = Prop { key, value };
    Ok(Some(Edit::SetProp { place, prop }))
}

/// The edit that removes a property.
fn read_remove(alloc: Global, place: &str, key: &str, kind: &str) -> Result<Option<Edit>, NoMemory>
    ensures { IfOk result (λ r. option_map edit_of r ≡ remove_of place.now key.now kind.now) }
{
    let Some(place) = read_place(alloc, place)? else {
        return Ok(None);
    };
    let Some(key) = read_key(key.as_bytes()) else {
        return Ok(None);
    };
    let Some(kind) = read_kind(kind) else {
        return Ok(None);
    };
    Ok(Some(Edit::RemoveProp { place, key, kind }))
}

/// The message and the number of a recipient or an attachment that is dropped.
fn read_dropped(
    alloc: Global,
    message: &str,
    number: &str,
) -> Result<Option<(Numbers, u64)>, NoMemory>
    ensures recipient { IfOk result (λ r. option_map recipient_dropped r ≡ drop_of (codes "drop-recipient") message.now number.now) }
    ensures attachment { IfOk result (λ r. option_map attachment_dropped r ≡ drop_of (codes "drop-attachment") message.now number.now) }
{
    let Some(path) = read_message(alloc, message)? else {
        return Ok(None);
    };
    match read_place_number(number) {
        Some(number) => Ok(Some((path, number))),
        None => Ok(None),
    }
}

/// The edit of its first word and the others.
fn read_edit(alloc: Global, verb: Verb, words: &[String]) -> Result<Option<Edit>, NoMemory>
    requires { AllByRecursion IsShort (texts words.now) }
    ensures { IfOk result (λ r. option_map edit_of r ≡ plain.edit_of (word_of verb) (texts words.now)) }
{
    match (verb, words) {
        (Verb::Set, [place, key, kind, value]) => read_set(
            alloc,
            place.as_str(),
            key.as_str(),
            kind.as_str(),
            value.as_str(),
        ),
        (Verb::Remove, [place, key, kind]) => {
            read_remove(alloc, place.as_str(), key.as_str(), kind.as_str())
        }
        (Verb::AddRecipient, [message]) => match read_message(alloc, message.as_str())? {
            Some(path) => Ok(Some(Edit::AddRecipient { path })),
            None => Ok(None),
        },
        (Verb::DropRecipient, [message, number]) => {
            match read_dropped(alloc, message.as_str(), number.as_str())? {
                Some((path, number)) => Ok(Some(Edit::DropRecipient { path, number })),
                None => Ok(None),
            }
        }
        (Verb::DropAttachment, [message, number]) => {
            match read_dropped(alloc, message.as_str(), number.as_str())? {
                Some((path, number)) => Ok(Some(Edit::DropAttachment { path, number })),
                None => Ok(None),
            }
        }
        _ => Ok(None),
    }
}

/// The words that stand behind a verb, as many as its edits have or as there are.
fn own_words(words: &[String], at: usize, verb: Verb) -> &[String]
    requires { at < length words.now }
    ensures { texts result.now ≡ take (words_behind (word_of verb)) (drop (at + 1) (texts words.now)) }
{
    let others = &words[at + 1..];
    &others[..verb.words_behind().min(others.len())]
}

/// The edit that begins at a word. NoMemory says that memory ran out.
pub(crate) fn read_at(alloc: Global, words: &[String], at: usize) -> Result<Option<Edit>, NoMemory>
    requires place { at < length words.now }
    requires short { AllByRecursion IsShort (texts words.now) }
    ensures { IfOk result (λ r. option_map edit_of r ≡ said_at (texts words.now) at) }
{
    match verb_of(words[at].as_str()) {
        Some(verb) => read_edit(alloc, verb, own_words(words, at, verb)),
        None => Ok(None),
    }
}

/// Whether no word is longer than a word may be.
fn are_short(words: &[String]) -> bool
    ensures { result ≡ plain.are_short (texts words.now) }
{
    for word in words {
        if word.len() > LONGEST_WORD {
            return false;
        }
    }
    true
}

/// The edits that the words are, one or more. None where they are no edits. NoMemory says that memory ran out, or that there
/// are more words than a number of 32 bits tells.
pub fn read_edits(alloc: Global, words: &[String]) -> Result<Option<Edits<'_>>, NoMemory>
    ensures { IfOk result (λ r. r ≡ plain.edits_of (texts words.now)) }
{
    if words.is_empty() || !are_short(words) {
        return Ok(None);
    }
    let mut starts = Vec::new(alloc);
    let mut at = 0;
    while at < words.len() {
        let Some(verb) = verb_of(words[at].as_str()) else {
            return Ok(None);
        };
        let own = own_words(words, at, verb);
        match read_edit(alloc, verb, own)? {
            Some(edit) => drop(edit),
            None => return Ok(None),
        }
        let Ok(start) = u32::try_from(at) else {
            return Err(NoMemory);
        };
        starts.push(start)?;
        at = at + 1 + own.len();
    }
    Ok(Some(Edits::new(words, starts)))
}

//! Places.
ghost use Rattle.std.specs.Prelude.{◌≡◌, ◌<◌, ◌==◌, ◌∷◌, [], length, IfOk, IfSome};
ghost use Rattle.std.specs.List.{slice_split};
ghost use Rattle.std.specs.Option.{option_map, option_map_or};
ghost use Rattle.edit_model.specs.EditWords.{message_of, place_of as place_meant};
ghost use Rattle.edit_words.specs.Meaning.{place_of, spot_of};
ghost use Rattle.edit_words.specs.Reading.{step_number, spot_number};

use crate::decimals::read_place_number;
use crate::edits::{Place, Spot};
use carrier_io::{NoMemory, Numbers};
use std::alloc::Global;

/// What stands before the first slash, and what behind it, if there is one.
fn cut(text: &str) -> (&str, Option<&str>)
    ensures shorter { IfSome result.1 (λ rest. length rest.now < length text.now) }
    ensures split { slice_split (λ c. c == 0x2F) text.now ≡ result.0.now ∷ option_map_or (λ rest. slice_split (λ c. c == 0x2F) rest.now) result.1 [] }
{
    match text.split_once('/') {
        Some((before, after)) => (before, Some(after)),
        None => (text, None),
    }
}

/// The number of a step that begins with the letter.
fn read_step(step: &str, letter: char) -> Option<u64>
    requires { letter < 128 }
    ensures { result ≡ step_number letter step.now }
{
    match step.strip_prefix(letter) {
        Some(digits) => read_place_number(digits),
        None => None,
    }
}

/// The spot to which a last step leads.
fn read_spot(step: &str) -> Option<Spot>
    ensures { option_map spot_of result ≡ spot_number step.now }
{
    if let Some(number) = read_step(step, 'r') {
        return Some(Spot::Recipient(number));
    }
    match read_step(step, 'a') {
        Some(number) => Some(Spot::Attachment(number)),
        None => None,
    }
}

/// A message, or a recipient or an attachment of it.
pub fn read_place(alloc: Global, word: &str) -> Result<Option<Place>, NoMemory>
    ensures { IfOk result (λ r. option_map place_of r ≡ place_meant word.now) }
{
    let (first, behind) = cut(word);
    if "." != first {
        return Ok(None);
    }
    let mut path = Numbers::new(alloc);
    let mut left = behind;
    while let Some(steps) = left {
        let (step, more) = cut(steps);
        match read_step(step, 'm') {
            Some(number) => path.push(number)?,
            None => {
                if more.is_some() {
                    return Ok(None);
                }
                return match read_spot(step) {
                    Some(spot) => Ok(Some(Place { path, spot })),
                    None => Ok(None),
                };
            }
        }
        left = more;
    }
    let spot = Spot::Message;
    Ok(Some(Place { path, spot }))
}

/// The path of a place that is a message.
pub fn read_message(alloc: Global, word: &str) -> Result<Option<Numbers>, NoMemory>
    ensures { IfOk result (λ r. r ≡ message_of word.now) }
{
    match read_place(alloc, word)? {
        Some(place) => match place.spot {
            Spot::Message => Ok(Some(place.path)),
            Spot::Recipient(_) => Ok(None),
            Spot::Attachment(_) => Ok(None),
        },
        None => Ok(None),
    }
}

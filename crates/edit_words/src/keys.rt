//! Keys and kinds.
ghost use Rattle.std.specs.Prelude.{◌≡◌, length, IfSome};
ghost use Rattle.std.specs.Option.{option_map};
ghost use Rattle.edit_model.specs.EditWords.{id_of, key_of, kind_of_word, name_of};
ghost use Rattle.prop_names.specs.Meaning.{key_of as key_meant};
ghost use Rattle.prop_values.specs.Kinds.{kind_number};
ghost use Rattle.edit_words.specs.Reading.{IsEditKind};

use prop_names::{FIRST_NAMED, Key, Name, guid_of_digits, number_of_eight, number_of_four};
use prop_values::Kind;

/// How long an id is: four digits.
const ID_LENGTH: usize = 4;

/// The digits of a property set: two for each of its 16 bytes.
const SET_DIGITS: usize = 32;

/// How long a name by its number is: the digits of its set, a slash, and the eight digits of the number.
const NAME_LENGTH: usize = SET_DIGITS + 1 + 8;

/// Four upper-case digits of a number below those that stand for names.
fn read_id(word: &[u8]) -> Option<Key>
    ensures { option_map key_meant result ≡ id_of word.now }
{
    match number_of_four(word) {
        Some(number) => {
            if number < u32::from(FIRST_NAMED) {
                Some(Key::Id(number as u16))
            } else {
                None
            }
        }
        None => None,
    }
}

/// The set's bytes, a slash, and eight upper-case digits of the number.
fn read_name(word: &[u8]) -> Option<Key>
    requires { length word.now ≡ NAME_LENGTH }
    ensures { option_map key_meant result ≡ name_of word.now }
{
    let Some(set) = guid_of_digits(&word[..SET_DIGITS]) else {
        return None;
    };
    let Some(number) = number_of_eight(&word[SET_DIGITS + 1..]) else {
        return None;
    };
    if word[SET_DIGITS] == b'/' {
        Some(Key::Named(Name::Number { set, number }))
    } else {
        None
    }
}

/// A key by id or by a name's number.
pub fn read_key(word: &[u8]) -> Option<Key>
    ensures { option_map key_meant result ≡ key_of word.now }
{
    if word.len() == ID_LENGTH {
        return read_id(word);
    }
    if word.len() == NAME_LENGTH {
        return read_name(word);
    }
    None
}

/// A kind by its name, among those that an edit may have. [MS-OXCDATA 2.11.1]
pub fn read_kind(word: &str) -> Option<Kind>
    ensures kind { option_map kind_number result ≡ kind_of_word word.now }
    ensures held { IfSome result IsEditKind }
{
    if "Integer16" == word {
        return Some(Kind::Integer16);
    }
    if "Integer32" == word {
        return Some(Kind::Integer32);
    }
    if "Integer64" == word {
        return Some(Kind::Integer64);
    }
    if "Currency" == word {
        return Some(Kind::Currency);
    }
    if "ErrorCode" == word {
        return Some(Kind::ErrorCode);
    }
    if "Boolean" == word {
        return Some(Kind::Boolean);
    }
    if "Time" == word {
        return Some(Kind::Time);
    }
    if "String" == word {
        return Some(Kind::String);
    }
    if "Binary" == word {
        return Some(Kind::Binary);
    }
    if "Guid" == word {
        return Some(Kind::Guid);
    }
    None
}

//! The words of a command.
ghost use Rattle.std.specs.Prelude.{◌≡◌, IfOk, IfSome};
ghost use Rattle.std.specs.Option.{option_map};
ghost use Rattle.job_model.specs.Commands.{command_among, command_of, edit_of, other_of, sample_of, words_of_one};
ghost use Rattle.outlook_cli.specs.Words.{command_seen, texts, IsSample};

use carrier_io::NoMemory;
use edit_words::{Edits, read_edits};
use std::alloc::Global;
use translate_core::Job;

/// The greatest number of a sample.
const GREATEST_SAMPLE: u32 = 5000;

/// What words ask for.
#[derive(Drop)]
pub enum Command<'a> {
    /// Every property of every message, as lines.
    Show,
    /// How much there is, and what was passed over.
    Check,
    /// The message in another form.
    Translate(Job),
    /// The .msg file of the message with its texts of 8-bit characters in 16-bit units.
    ToUnicode,
    /// The message as a JSON text.
    ToJson,
    /// The .msg file of the message that a JSON text means.
    FromJson,
    /// The .msg file of the message that edits make.
    Edit(Edits<'a>),
    /// The totals, lengths and sums of the message that is made from a number, at most 5000.
    Sample(u32),
}

/// The command of one word.
fn command_named(word: &str) -> Option<Command<'static>>
    ensures seen { option_map command_seen result ≡ command_among words_of_one word.now }
    ensures sample { IfSome result IsSample }
{
    if "show" == word {
        return Some(Command::Show);
    }
    if "check" == word {
        return Some(Command::Check);
    }
    if "to-msg" == word {
        return Some(Command::Translate(Job::ToMsg));
    }
    if "to-msg4" == word {
        return Some(Command::Translate(Job::ToMsg4));
    }
    if "to-tnef" == word {
        return Some(Command::Translate(Job::ToTnef));
    }
    if "wrap" == word {
        return Some(Command::Translate(Job::Wrap));
    }
    if "unwrap" == word {
        return Some(Command::Translate(Job::Unwrap));
    }
    if "to-unicode" == word {
        return Some(Command::ToUnicode);
    }
    if "to-json" == word {
        return Some(Command::ToJson);
    }
    if "from-json" == word {
        return Some(Command::FromJson);
    }
    None
}

/// The sample of a number of one to four digits, with no zero before other digits.
fn sample_numbered(word: &str) -> Option<Command<'static>>
    ensures seen { option_map command_seen result ≡ sample_of word.now }
    ensures sample { IfSome result IsSample }
{
    let digits = word.as_bytes();
    if digits.is_empty() || digits.len() > 4 || digits[0] == b'+' {
        return None;
    }
    if digits[0] == b'0' && digits.len() > 1 {
        return None;
    }
    match word.parse::<u32>() {
        Ok(number) => {
            if number <= GREATEST_SAMPLE {
                Some(Command::Sample(number))
            } else {
                None
            }
        }
        Err(_) => None,
    }
}

/// The command of a word with these behind it, where they are no edits.
fn other_command(word: &str, rest: &[String]) -> Option<Command<'static>>
    ensures seen { option_map command_seen result ≡ other_of word.now (texts rest.now) }
    ensures sample { IfSome result IsSample }
{
    match rest {
        [] => command_named(word),
        [number] => {
            if "sample" == word {
                sample_numbered(number.as_str())
            } else {
                None
            }
        }
        _ => None,
    }
}

/// The command of edits.
fn edit_command(alloc: Global, words: &[String]) -> Result<Option<Command<'_>>, NoMemory>
    ensures seen { IfOk result (λ command. option_map command_seen command ≡ edit_of (texts words.now)) }
    ensures sample { IfOk result (λ command. IfSome command IsSample) }
{
    match read_edits(alloc, words)? {
        Some(edits) => Ok(Some(Command::Edit(edits))),
        None => Ok(None),
    }
}

/// The command that the words are. Where edits begin is kept, which takes memory.
pub fn job_of(alloc: Global, words: &[String]) -> Result<Option<Command<'_>>, NoMemory>
    ensures seen { IfOk result (λ command. option_map command_seen command ≡ command_of (texts words.now)) }
    ensures sample { IfOk result (λ command. IfSome command IsSample) }
{
    match words {
        [] => Ok(None),
        [word, rest @ ..] => {
            if "edit" == word.as_str() {
                edit_command(alloc, rest)
            } else {
                Ok(other_command(word.as_str(), rest))
            }
        }
    }
}

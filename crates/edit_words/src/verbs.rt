//! The first words of edits.
ghost use Rattle.std.specs.Prelude.{◌≡◌, ◌≤◌};
ghost use Rattle.edit_model.specs.EditWords as plain;
ghost use Rattle.edit_words.specs.Verbs.{word_of, IsVerbOf};

/// What an edit does, as its first word says it.
#[derive(Clone, Copy)]
pub(crate) enum Verb {
    Set,
    Remove,
    AddRecipient,
    DropRecipient,
    DropAttachment,
}

impl Verb {
    /// How many words stand behind it.
    pub(crate) fn words_behind(self) -> usize
        ensures value { result ≡ plain.words_behind (word_of self) }
        ensures bound { result ≤ 4 }
    {
        match self {
            Verb::Set => 4,
            Verb::Remove => 3,
            Verb::AddRecipient => 1,
            Verb::DropRecipient => 2,
            Verb::DropAttachment => 2,
        }
    }
}

/// The verb that a word is.
pub(crate) fn verb_of(word: &str) -> Option<Verb>
    ensures { IsVerbOf word.now result }
{
    if word == "set" {
        return Some(Verb::Set);
    }
    if word == "remove" {
        return Some(Verb::Remove);
    }
    if word == "add-recipient" {
        return Some(Verb::AddRecipient);
    }
    if word == "drop-recipient" {
        return Some(Verb::DropRecipient);
    }
    if word == "drop-attachment" {
        return Some(Verb::DropAttachment);
    }
    None
}

//! Edits, kept as their words. Each is read where it is asked for.
ghost use Rattle.std.specs.Prelude.{◌≡◌, ◌<◌, length, slice_get, IfOk, Some};
ghost use Rattle.edit_words.specs.Meaning.{SayEdits, edit_of, said, texts};

use crate::edits::Edit;
use crate::scripts::read_at;
use carrier_io::NoMemory;
use std::alloc::Global;
use std::marker::Model;

/// Edits, in the order in which they are done: words, and the number of the word at which each edit begins.
#[derive(Drop)]
pub struct Edits<'a> {
    words: &'a [String],
    starts: Vec<u32>,
}

impl<'a> Model for Edits<'a> {
    ghost use Rattle.std.specs.Prelude.{List};
    ghost use Rattle.edit_model.specs.Edits.{Edit as PlainEdit};

    ghost Value = { List PlainEdit };

    ghost use Rattle.edit_words.specs.Meaning.{SayEdits, said, texts};

    ghost view = { λ s. said (texts s.words.now) s.starts.items };

    ghost invariant = { λ s. SayEdits (texts s.words.now) s.starts.items };
}

/// One of the edits that begin at these words.
fn read_one(alloc: Global, words: &[String], starts: &[u32], k: usize) -> Result<Edit, NoMemory>
    requires all { SayEdits (texts words.now) starts.now }
    requires place { k < length (said (texts words.now) starts.now) }
    ensures { IfOk result (λ e. slice_get (said (texts words.now) starts.now) k ≡ Some (edit_of e)) }
{
    match read_at(alloc, words, starts[k] as usize)? {
        Some(edit) => Ok(edit),
        None => unreachable!(),
    }
}

impl<'a> Edits<'a> {
    /// The edits that begin at these words.
    pub(crate) fn new(words: &'a [String], starts: Vec<u32>) -> Edits<'a>
        requires { SayEdits (texts words.now) starts.items }
        ensures { result ≡ said (texts words.now) starts.items }
    {
        Edits { words, starts }
    }

    /// How many edits.
    pub fn len(&self) -> usize
        ensures { result ≡ length self.now }
    {
        self.starts.len()
    }

    /// The edit at a place, counted from 0. NoMemory says that memory ran out.
    pub fn read(&self, alloc: Global, k: usize) -> Result<Edit, NoMemory>
        requires { k < length self.now }
        ensures { IfOk result (λ e. slice_get self.now k ≡ Some (edit_of e)) }
    {
        read_one(alloc, self.words, &self.starts, k)
    }
}

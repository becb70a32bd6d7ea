//! A text that is looked for among names.
ghost use Rattle.std.specs.Prelude.{◌≡◌, ◌≤◌, ◌<◌, ◌++◌, ◌∷◌, [], ℕ, List, length, take, MatchOption, IfSome};
ghost use Rattle.std.specs.String.{IsUtf16Of};
ghost use Rattle.carrier_model.specs.Files.{folded};
ghost use Rattle.cfb_directory.specs.Wanted.{Keeps};
ghost use Rattle.std.specs.Char.Escape.{encode_utf16};

use crate::names::lower;

/// The most units that are kept. No name of an entry has as many.
const MOST: usize = 32;

/// The first units of a text, and how many it has, as far as one more than are kept.
#[derive(Clone, Copy)]
pub struct Wanted {
    units: [u16; 32],
    len: usize,
}

impl Wanted {
    /// The units, where all are kept.
    pub fn units(&self) -> &[u16]
        requires { self.now.len ≤ 32 }
        ensures { result.now ≡ take self.now.len self.now.units }
    {
        &self.units[..self.len]
    }

    /// One more unit.
    fn push(&mut self, unit: u16)
        ensures { (xs : List ℕ) → Keeps self.old xs → Keeps self.new (xs ++ unit ∷ []) }
    {
        if self.len < MOST {
            self.units[self.len] = unit;
            self.len += 1;
        } else {
            self.len = MOST + 1;
        }
    }

    /// The units of one more character, in lower case.
    fn push_char(&mut self, ch: char)
        ensures { (xs : List ℕ) → Keeps self.old xs → Keeps self.new (xs ++ folded (encode_utf16 ch)) }
    {
        let mut pair = [0; 2];
        let units: &[u16] = ch.encode_utf16(&mut pair);
        for unit in units {
            self.push(lower(*unit));
        }
    }
}

/// The units of a text in UTF-16, with ASCII letters in lower case; None where there are more than an entry's name has room
/// for.
pub fn wanted_name(text: &str) -> Option<Wanted>
    ensures units { (units : List ℕ) → IsUtf16Of units text.now → MatchOption result (32 < length units) (λ w. take w.len w.units ≡ folded units) }
    ensures fits { IfSome result (λ w. w.len ≤ 32) }
{
    let mut kept = Wanted {
        units: [0; 32],
        len: 0,
    };
    for ch in text.chars() {
        kept.push_char(ch);
    }
    if kept.len > MOST { None } else { Some(kept) }
}

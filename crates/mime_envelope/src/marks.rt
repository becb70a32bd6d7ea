//! The lines that part a multipart.
ghost use Rattle.std.specs.Prelude.{◌≡◌, ◌≤◌, ◌∷◌, ◌++◌, codes, length};
ghost use Rattle.mime_envelope.specs.Parts.{delimiter_front, line_from};

use crate::text::is_mark;
use carrier_io::NoMemory;
use memchr::memmem::{Finder, FinderBuilder};
use std::alloc::Global;

/// How many bytes of a delimiter are searched for: with a line feed before them as many as the search looks for at once.
const FRONT: usize = 31;

/// A boundary, what delimiter lines and closing lines begin with, and the search for such lines.
#[derive(Debug, Drop)]
pub struct Marks {
    pub boundary: Vec<u8>,
    delimiter: Vec<u8>,
    closing: Vec<u8>,
    finder: Finder<'static>,
    ghost delimits: { delimiter.items ≡ codes "--" ++ boundary.items },
    ghost closes: { closing.items ≡ codes "--" ++ boundary.items ++ codes "--" },
    ghost finds: { finder ≡ 10 ∷ delimiter_front boundary.items },
}

impl Marks {
    ghost use Rattle.std.specs.Prelude.{IfOk};
    ghost use Rattle.mail_model.specs.Entities as entity;

    /// The marks of a boundary: it behind two hyphens, and the same with two more behind it. [RFC 2046 5.1.1]
    pub fn new(alloc: Global, boundary: Vec<u8>) -> Result<Marks, NoMemory>
        ensures { IfOk result (λ m. m.boundary.items ≡ boundary.items) }
    {
        let mut delimiter = Vec::new(alloc);
        delimiter.extend_from_slice(b"--")?;
        delimiter.extend_from_slice(&boundary)?;
        let mut closing = Vec::new(alloc);
        closing.extend_from_slice(&delimiter)?;
        closing.extend_from_slice(b"--")?;
        let front = &delimiter[..delimiter.len().min(FRONT)];
        let mut needle = Vec::new(alloc);
        needle.push(b'\n')?;
        needle.extend_from_slice(front)?;
        Ok(Marks {
            boundary,
            delimiter,
            closing,
            finder: FinderBuilder::new().build_forward_owned(needle),
        })
    }

    /// Whether a part begins behind the line.
    pub fn delimits(&self, line: &[u8]) -> bool
        ensures { result ≡ entity.is_delimiter self.now.boundary.items line.now }
    {
        is_mark(&self.delimiter, line)
    }

    /// Whether the multipart ends at the line.
    pub fn closes(&self, line: &[u8]) -> bool
        ensures { result ≡ entity.is_closing self.now.boundary.items line.now }
    {
        is_mark(&self.closing, line)
    }

    /// What stands from the first of these lines on that begins as a delimiter line does; nothing where none does.
    pub fn next_mark<'a>(&self, lines: &'a [u8]) -> &'a [u8]
        ensures value { result.now ≡ line_from (delimiter_front self.now.boundary.items) lines.now }
        ensures within { length result.now ≤ length lines.now }
    {
        // No line feed stands before the first line.
        let (_, front) = self.finder.needle().split_at(1);
        if lines.starts_with(front) {
            return lines;
        }
        match self.finder.find(lines) {
            Some(at) => &lines[at + 1..],
            None => &[],
        }
    }
}

ghost use Rattle.std.specs.Io.{WritesAtMost};

use argument_words::{WordsEnd, words_given};
use std::env::{Env, FillError};
use std::test::*;

/// Words in memory.
#[derive(Drop)]
struct Given<'w>(&'w [&'w [u8]]);

/// Copies bytes to the front, where there is room.
fn fill(bytes: &[u8], buf: &mut [u8]) -> Result<usize, FillError>
    ensures { WritesAtMost result buf.new }
{
    if bytes.len() > buf.len() {
        return Err(FillError::TooLong);
    }
    buf[..bytes.len()].copy_from_slice(bytes);
    Ok(bytes.len())
}

impl<'w> Env for Given<'w> {
    fn arg(&self, i: usize, buf: &mut [u8]) -> Result<usize, FillError> {
        if i >= self.0.len() {
            return Err(FillError::NotPresent);
        }
        fill(self.0[i], buf)
    }

    fn var(&self, _name: &str, _buf: &mut [u8]) -> Result<usize, FillError> {
        Err(FillError::NotPresent)
    }

    fn var_at(&self, _i: usize, _buf: &mut [u8]) -> Result<usize, FillError> {
        Err(FillError::NotPresent)
    }
}

#[test]
fn words_are_read(rt: HostRuntime) -> Result<(), Fail> {
    let long = [0x78; 10_000];
    let given = Given(&[b"outlook_cli", b"sample", b"", b"\xc3\xa9", &long]);
    let words = words_given(rt.alloc(), &given).ok().ok_or("words")?;
    assert_eq!(rt; words.len(), 4);
    assert_eq!(rt; words[0].as_str(), "sample");
    assert_eq!(rt; words[1].as_str(), "");
    assert_eq!(rt; words[2].as_str(), "\u{e9}");
    assert_eq!(rt; words[3].as_bytes(), long.as_slice());
    let bare = words_given(rt.alloc(), &Given(&[])).ok().ok_or("words")?;
    assert_eq!(rt; bare.len(), 0);
    Ok(())
}

#[test]
fn words_that_are_not_utf8(rt: HostRuntime) -> Result<(), Fail> {
    let given = Given(&[b"outlook_cli", b"show", b"\xff"]);
    match words_given(rt.alloc(), &given) {
        Err(WordsEnd::NotUtf8) => Ok(()),
        _ => Err("words".into()),
    }
}

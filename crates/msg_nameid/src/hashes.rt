//! The hash streams of a name map that is written.
ghost use Rattle.std.specs.Prelude.{◌≡◌, ◌<◌, ◌++◌, [], length, IfOk, OnOk, map, replicate};
ghost use Rattle.carrier_model.specs.Bytes as fields;
ghost use Rattle.msg_nameid.specs.Gathered.{with_hash};

use carrier_io::{NoMemory, le16, le32};
use std::alloc::Global;
use std::marker::Model;

/// How many hash streams there may be.
const COUNT: usize = 31;

/// The bytes of each hash stream.
#[derive(Drop)]
pub(crate) struct Hashes {
    pub(crate) streams: Vec<Vec<u8>>,
}

impl Model for Hashes {
    ghost use Rattle.std.specs.Prelude.{◌≡◌, ℕ, List, length, map};

    ghost Value = { List (List ℕ) };

    ghost view = { λ s. map (λ v. v.items) s.streams.items };

    ghost invariant = { λ s. length s.streams.items ≡ 31 };
}

impl Hashes {
    /// Empty streams.
    pub(crate) fn new(alloc: Global) -> Result<Hashes, NoMemory>
        ensures { IfOk result (λ h. h ≡ replicate 31 []) }
    {
        let mut streams = Vec::new(alloc);
        for _ in 0..COUNT {
            streams.push(Vec::new(alloc))?;
        }
        Ok(Hashes { streams })
    }

    /// Puts a name's number and its word into a stream.
    pub(crate) fn push(&mut self, bucket: usize, number: u32, word: u32) -> Result<(), NoMemory>
        requires { bucket < 31 }
        ensures { OnOk result (self.new ≡ with_hash self.old bucket (fields.le32 number ++ fields.le32 word)) }
    {
        push_pair(&mut self.streams[bucket], le32(number), le32(word))
    }
}

/// Puts two numbers behind bytes.
pub(crate) fn push_pair(bytes: &mut Vec<u8>, one: [u8; 4], two: [u8; 4]) -> Result<(), NoMemory>
    ensures { OnOk result (bytes.new.items ≡ bytes.old.items ++ (one ++ two)) }
{
    bytes.extend_from_slice(&one)?;
    bytes.extend_from_slice(&two)?;
    Ok(())
}

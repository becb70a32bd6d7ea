//! The property sets of a name map that is written.
ghost use Rattle.std.specs.Prelude.{◌≡◌, ◌≤◌, ◌<◌, ◌+◌, ◌^◌, [], length, IfOk, OnOk, bytes_eq};
ghost use Rattle.std.specs.List.{flat_map};
ghost use Rattle.msg_nameid.specs.Gathered.{ends_with, with_set, last_index};

use carrier_io::NoMemory;
use prop_names::Guid;
use std::alloc::Global;
use std::marker::Model;

/// PS_MAPI, the set of index 1. [MS-OXPROPS 1.3.2]
pub(crate) const PS_MAPI: [u8; 16] = [
    0x28, 0x03, 0x02, 0x00, 0x00, 0x00, 0x00, 0x00, 0xC0, 0x00, 0x00, 0x00, 0x00, 0x00, 0x00, 0x46,
];

/// PS_PUBLIC_STRINGS, the set of index 2. [MS-OXPROPS 1.3.2]
pub(crate) const PS_PUBLIC_STRINGS: [u8; 16] = [
    0x29, 0x03, 0x02, 0x00, 0x00, 0x00, 0x00, 0x00, 0xC0, 0x00, 0x00, 0x00, 0x00, 0x00, 0x00, 0x46,
];

/// The sets of the GUID stream, in its order.
#[derive(Drop)]
pub(crate) struct Sets {
    list: Vec<Guid>,
}

impl Model for Sets {
    ghost use Rattle.std.specs.Prelude.{ℕ, List, map};

    ghost Value = { List (List ℕ) };

    ghost view = { λ s. map (λ g. g.0) s.list.items };
}

impl Sets {
    /// No set.
    pub(crate) fn new(alloc: Global) -> Sets
        ensures { result ≡ [] }
    {
        Sets {
            list: Vec::new(alloc),
        }
    }

    /// Whether a set is the last one.
    fn ends_with(&self, set: &Guid) -> bool
        ensures { result ≡ ends_with self.now set.now.0 }
    {
        match self.list.last() {
            Some(last) => is_set(last, &set.0),
            None => false,
        }
    }

    /// The index of a set, which is added unless it has a fixed index or is the last one. [MS-OXMSG 2.2.3.1.2]
    pub(crate) fn place(&mut self, set: &Guid) -> Result<u32, NoMemory>
        requires { length self.old < 2 ^ 30 }
        ensures sets { OnOk result (self.new ≡ with_set self.old set.now.0) }
        ensures index { IfOk result (λ n. n ≡ last_index self.new set.now.0) }
        ensures below { IfOk result (λ n. n ≤ length self.old + 3) }
        ensures few { OnOk result (length self.new ≤ length self.old + 1) }
    {
        if is_set(set, &PS_MAPI) {
            return Ok(1);
        }
        if is_set(set, &PS_PUBLIC_STRINGS) {
            return Ok(2);
        }
        if !self.ends_with(set) {
            self.list.push(*set)?;
        }
        Ok(2 + self.list.len() as u32)
    }

    /// The sets one behind the other. [MS-OXMSG 2.2.3.1.1]
    pub(crate) fn bytes(&self, alloc: Global) -> Result<Vec<u8>, NoMemory>
        ensures { IfOk result (λ bytes. bytes.items ≡ flat_map (λ set. set) self.now) }
    {
        let mut bytes = Vec::new(alloc);
        for set in &self.list {
            bytes.extend_from_slice(&set.0)?;
        }
        Ok(bytes)
    }
}

/// Whether a set has these bytes.
fn is_set(set: &Guid, bytes: &[u8; 16]) -> bool
    ensures { result ≡ bytes_eq set.now.0 bytes.now }
{
    set.0 == *bytes
}

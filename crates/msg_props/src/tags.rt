//! A set of tags.
ghost use Rattle.std.specs.Prelude.{◌≡◌, [], not, IfOk, OnOk};
ghost use Rattle.msg_props.specs.Scans.{has_tag, IsTagged};

use carrier_io::NoMemory;
use std::alloc::Global;
use std::collections::BTreeSet;
use std::marker::Model;

/// A set of tags.
#[derive(Drop)]
pub struct Tags {
    set: BTreeSet<u32, Global>,
}

impl Model for Tags {
    ghost use Rattle.std.specs.Prelude.{ℕ, List};

    ghost Value = { List ℕ };

    ghost view = { λ s. s.set.keys };
}

impl Tags {
    /// An empty set.
    pub fn new(alloc: Global) -> Tags
        ensures { result ≡ [] }
    {
        Tags {
            set: BTreeSet::new(alloc),
        }
    }

    /// Puts a tag among them; false where it was there.
    pub fn insert(&mut self, tag: u32) -> Result<bool, NoMemory>
        ensures new { IfOk result (λ added. added ≡ not (has_tag self.old tag)) }
        ensures tags { OnOk result (IsTagged self.old self.new tag) }
    {
        Ok(self.set.insert(tag)?)
    }
}

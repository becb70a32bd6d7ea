//! The versions of the format.
ghost use Rattle.std.specs.Prelude.{◌≡◌, ◌/◌};
ghost use Rattle.cfb_layout.specs.Versions.{sector_of};

use crate::sizes::WORD;

/// The major version of a compound file. [MS-CFB 2.2]
#[derive(Clone, Copy, Debug, PartialEq, Eq)]
pub enum Version {
    /// Sectors of 512 bytes.
    Three,
    /// Sectors of 4,096 bytes.
    Four,
}

impl Version {
    /// The bytes of a sector.
    pub fn sector(self) -> u64
        ensures { result ≡ sector_of self }
    {
        match self {
            Version::Three => 512,
            Version::Four => 4096,
        }
    }

    /// How many words a sector of the FAT has. [MS-CFB 2.3]
    pub fn words(self) -> u64
        ensures { result ≡ sector_of self / 4 }
    {
        self.sector() / WORD
    }
}

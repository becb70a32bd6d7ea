//! How many sectors each part of a file has, and where it begins.
ghost use Rattle.std.specs.Prelude.{◌≡◌};
ghost use Rattle.carrier_model.specs.Layout as layout;
ghost use Rattle.cfb_layout.specs.Counts.{plan_seen, IsSmall};

/// How many sectors each part of a file has, and of the mini stream also how many mini sectors.
#[derive(Clone, Copy, Debug, PartialEq, Eq)]
pub struct SectorCounts {
    /// Sectors of the FAT.
    pub fat: u32,
    /// DIFAT sectors, which list those of the FAT that the header has no room for.
    pub difat: u32,
    /// Sectors of the directory.
    pub directory: u32,
    /// Sectors of the mini FAT.
    pub mini_fat: u32,
    /// Mini sectors, of 64 bytes, of all streams in the mini stream.
    pub mini_sectors: u32,
    /// Sectors of the mini stream.
    pub mini_stream: u32,
    /// Sectors of all streams with sectors of their own.
    pub long: u32,
}

impl SectorCounts {
    /// The number of the first sector of the directory. [MS-CFB 2.6]
    pub fn directory_start(&self) -> u32
        requires { IsSmall self.now }
        ensures { result ≡ layout.directory_start (plan_seen self.now) }
    {
        self.fat + self.difat
    }

    /// The number of the first sector of the mini FAT. [MS-CFB 2.4]
    pub fn mini_fat_start(&self) -> u32
        requires { IsSmall self.now }
        ensures { result ≡ layout.mini_fat_start (plan_seen self.now) }
    {
        self.fat + self.difat + self.directory
    }

    /// The number of the first sector of the mini stream. [MS-CFB 2.6.2]
    pub fn mini_stream_start(&self) -> u32
        requires { IsSmall self.now }
        ensures { result ≡ layout.mini_stream_start (plan_seen self.now) }
    {
        self.fat + self.difat + self.directory + self.mini_fat
    }

    /// The number of the first sector behind the mini stream, where streams with sectors of their own begin.
    pub fn long_start(&self) -> u32
        requires { IsSmall self.now }
        ensures { result ≡ layout.long_start (plan_seen self.now) }
    {
        self.fat + self.difat + self.directory + self.mini_fat + self.mini_stream
    }
}

//! Streams and storages of a list that are looked at.
ghost use Rattle.std.specs.Prelude.{◌≡◌, ◌≤◌, ◌<◌, ◌+◌, ◌*◌, ◌-◌, ◌++◌, length, take};
ghost use Rattle.carrier_model.specs.FileTrees.{sibling_cmp};
ghost use Rattle.carrier_model.specs.KeyTexts.{hex_digits, upper};
ghost use Rattle.carrier_model.specs.Layout as layout;
ghost use Rattle.carrier_model.specs.Totals.{capped};
ghost use Rattle.cfb_list.specs.Contents.{bytes_seen, name_seen};

use carrier_io::Blob;
use cfb_names::sibling_order;
use prop_names::upper_digits8;
use std::cmp::Ordering;

/// The bytes of a stream. [MS-CFB 2.6.1, 2.6.3]
#[derive(Drop)]
pub enum ContentView<'e, B: Blob> {
    /// Bytes of its own.
    Own(&'e [u8]),
    /// The bytes of a value, and so many zeros behind them.
    Value { bytes: &'e B, zeros: u8 },
}

/// A stream, or a storage with its class and its number.
#[derive(Drop)]
pub enum KindView<'e, B: Blob> {
    Stream(ContentView<'e, B>),
    Storage { class: [u8; 16], number: usize },
}

/// The units of a name.
#[derive(Clone, Copy)]
pub enum NameView<'e> {
    /// All of them.
    Whole(&'e [u16]),
    /// Those in front of a number, and the number, which stands in eight upper-case hexadecimal digits.
    Numbered { front: &'e [u16], number: u32 },
}

/// A stream or a storage with its name.
#[derive(Drop)]
pub struct FileView<'e, B: Blob> {
    pub name: NameView<'e>,
    pub kind: KindView<'e, B>,
}

/// The eight digits of a number, as units.
fn digit_units(number: u32) -> [u16; 8]
    ensures { result ≡ hex_digits upper 8 number }
{
    let [a, b, c, d, e, f, g, h] = upper_digits8(number);
    [
        u16::from(a),
        u16::from(b),
        u16::from(c),
        u16::from(d),
        u16::from(e),
        u16::from(f),
        u16::from(g),
        u16::from(h),
    ]
}

/// The units of a front with a number, and how many they are.
pub fn numbered_units(front: &[u16], number: u32) -> ([u16; 31], usize)
    requires { length front.now ≤ 23 }
    ensures count { result.1 ≡ length front.now + 8 }
    ensures units { take result.1 result.0 ≡ front.now ++ hex_digits upper 8 number }
{
    let len = front.len() + 8;
    let mut units = [0u16; 31];
    units[..front.len()].copy_from_slice(front);
    units[front.len()..len].copy_from_slice(&digit_units(number));
    (units, len)
}

/// The order of siblings by a front with a number and by a whole name.
fn numbered_order(front: &[u16], number: u32, name: &[u16]) -> Ordering
    ensures { result ≡ sibling_cmp (front.now ++ hex_digits upper 8 number) name.now }
{
    if name.len() < 8 {
        return Ordering::Greater;
    }
    let (start, end) = name.split_at(name.len() - 8);
    sibling_order(front, start).then(sibling_order(&digit_units(number), end))
}

/// The order of siblings by their names. [MS-CFB 2.6.4]
pub fn name_order(one: NameView<'_>, other: NameView<'_>) -> Ordering
    ensures { result ≡ sibling_cmp (name_seen one.entry) (name_seen other.entry) }
{
    match (one, other) {
        (NameView::Whole(one), NameView::Whole(other)) => sibling_order(one, other),
        (NameView::Whole(one), NameView::Numbered { front, number }) => {
            numbered_order(front, number, one).reverse()
        }
        (NameView::Numbered { front, number }, NameView::Whole(other)) => {
            numbered_order(front, number, other)
        }
        (
            NameView::Numbered { front, number },
            NameView::Numbered {
                front: behind,
                number: later,
            },
        ) => sibling_order(front, behind).then(number.cmp(&later)),
    }
}

impl<'e, B: Blob> ContentView<'e, B> {
    /// How many bytes there are; a number above the greatest `u64` stays there.
    pub fn size(&self) -> u64
        ensures { result ≡ capped (length (bytes_seen B.bytes self.now)) }
    {
        match self {
            ContentView::Own(bytes) => bytes.len() as u64,
            ContentView::Value { bytes, zeros } => {
                (bytes.len() as u64).saturating_add(u64::from(*zeros))
            }
        }
    }

    /// Whether it lies in the mini stream.
    pub fn is_short(&self) -> bool
        ensures { result ≡ layout.is_short (bytes_seen B.bytes self.now) }
    {
        let size = self.size();
        size > 0 && size < 4096
    }

    /// Whether it has sectors of its own.
    pub fn is_long(&self) -> bool
        ensures { result ≡ layout.is_long (bytes_seen B.bytes self.now) }
    {
        self.size() >= 4096
    }

    /// How many pieces of a size it needs.
    pub fn pieces(&self, size: u64) -> u64
        requires some { 64 ≤ size }
        requires few { size ≤ 4096 }
        ensures { result ≡ layout.pieces size (bytes_seen B.bytes self.now) }
    {
        let (len, zeros) = self.parts();
        len / size + (len % size + zeros).div_ceil(size)
    }

    /// How many bytes are missing to whole pieces of a size.
    pub fn missing(&self, size: u64) -> u64
        requires some { 64 ≤ size }
        requires few { size ≤ 4096 }
        ensures { result ≡ layout.pieces size (bytes_seen B.bytes self.now) * size - length (bytes_seen B.bytes self.now) }
    {
        let (len, zeros) = self.parts();
        let past = (len % size + zeros) % size;
        if past == 0 { 0 } else { size - past }
    }

    /// How many bytes and how many zeros behind them there are.
    fn parts(&self) -> (u64, u64)
        ensures sum { result.0 + result.1 ≡ length (bytes_seen B.bytes self.now) }
        ensures few { result.1 < 256 }
    {
        match self {
            ContentView::Own(bytes) => (bytes.len() as u64, 0),
            ContentView::Value { bytes, zeros } => (bytes.len() as u64, u64::from(*zeros)),
        }
    }
}

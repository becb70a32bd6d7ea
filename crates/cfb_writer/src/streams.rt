//! The streams of the mini stream, and those with sectors of their own.
ghost use Rattle.std.specs.Prelude.{◌≡◌, ◌≤◌, ◌+◌, ◌-◌, ◌*◌, List, ℕ, length};
ghost use Rattle.std.specs.List.{flat_map};
ghost use Rattle.carrier_model.specs.Layout as layout;
ghost use Rattle.cfb_list.specs.Contents.{bytes_seen, child_seen};
ghost use Rattle.cfb_writer.specs.Laid.{bytes_of};
ghost use Rattle.cfb_writer.specs.Placed.{slot_of};
ghost use Rattle.cfb_writer.specs.Shares as shares;
ghost use Rattle.cfb_writer.specs.Shares.{size_of};
ghost use Rattle.carrier_io.specs.Summed.{Sums};
ghost use Rattle.cfb_layout.specs.Versions.{sector_of};

use crate::appending::append_content;
use crate::entries::Entries;
use crate::runs::{Run, append_run};
use carrier_io::{Blob, Failed, Sink, append_zeros};
use cfb_layout::{MINI_SECTOR, Version};
use cfb_list::{ContentView, KindView};

/// Some of the streams.
#[derive(Clone, Copy, Debug, PartialEq, Eq)]
pub enum Share {
    /// Those of the mini stream.
    Short,
    /// Those with sectors of their own.
    Long,
}

impl Share {
    /// Whether a content is among them.
    fn has<B: Blob>(self, content: &ContentView<'_, B>) -> bool
        ensures { result ≡ shares.is_of self (bytes_seen B.bytes content.now) }
    {
        match self {
            Share::Short => content.is_short(),
            Share::Long => content.is_long(),
        }
    }

    /// How many pieces a content needs, mini sectors or sectors.
    fn count_pieces<B: Blob>(self, version: Version, content: &ContentView<'_, B>) -> u64
        ensures { result ≡ layout.pieces (size_of self (sector_of version)) (bytes_seen B.bytes content.now) }
    {
        match self {
            Share::Short => content.pieces(MINI_SECTOR),
            Share::Long => content.pieces(version.sector()),
        }
    }

    /// How many bytes a content lacks up to whole pieces.
    fn count_missing<B: Blob>(self, version: Version, content: &ContentView<'_, B>) -> u64
        ensures { result ≡ layout.pieces (size_of self (sector_of version)) (bytes_seen B.bytes content.now) * size_of self (sector_of version) - length (bytes_seen B.bytes content.now) }
    {
        match self {
            Share::Short => content.missing(MINI_SECTOR),
            Share::Long => content.missing(version.sector()),
        }
    }
}

/// How many pieces a file's stream has, if it is one of the share.
pub fn pieces_of<B: Blob>(kind: &KindView<'_, B>, share: Share, version: Version) -> u64
    ensures { (name : List ℕ) (left right child : ℕ) → result ≡ shares.share_pieces share (sector_of version) (bytes_of (slot_of (child_seen B.bytes name kind.now) left right child)) }
{
    match kind {
        KindView::Stream(content) => {
            if share.has(content) {
                share.count_pieces(version, content)
            } else {
                0
            }
        }
        KindView::Storage { .. } => 0,
    }
}

/// Appends a content with zeros up to whole pieces.
fn append_filled<B: Blob, W: Sink>(
    sink: &mut W,
    content: &ContentView<'_, B>,
    share: Share,
    version: Version,
) -> Result<u16, Failed>
    ensures { Sums (W.held sink.old) (W.held sink.new) (W.faults sink.old) (W.faults sink.new) result (layout.filled (size_of share (sector_of version)) (bytes_seen B.bytes content.now)) }
{
    let bytes = append_content(sink, content)?;
    let zeros = append_zeros(sink, share.count_missing(version, content))?;
    Ok(bytes.wrapping_add(zeros))
}

/// Appends a file's stream with zeros up to whole pieces, if it is one of the share.
fn append_shared<B: Blob, W: Sink>(
    sink: &mut W,
    kind: &KindView<'_, B>,
    share: Share,
    version: Version,
) -> Result<u16, Failed>
    ensures { (name : List ℕ) (left right child : ℕ) → Sums (W.held sink.old) (W.held sink.new) (W.faults sink.old) (W.faults sink.new) result (shares.share_bytes share (sector_of version) (bytes_of (slot_of (child_seen B.bytes name kind.now) left right child))) }
{
    match kind {
        KindView::Stream(content) => {
            if share.has(content) {
                append_filled(sink, content, share, version)
            } else {
                Ok(0)
            }
        }
        KindView::Storage { .. } => Ok(0),
    }
}

/// Appends the chains of the streams of a share, the first of which begins at this sector, and which have so many pieces
/// in all. What stands behind the last of them is not looked at.
pub fn append_chains<B: Blob, W: Sink>(
    sink: &mut W,
    entries: &Entries<'_, B>,
    share: Share,
    version: Version,
    start: u32,
    count: u32,
) -> Result<u16, Failed>
    requires all { count ≡ shares.share_total share (sector_of version) entries.now.others }
    requires few { start + count ≤ 2147483648 }
    ensures { Sums (W.held sink.old) (W.held sink.new) (W.faults sink.old) (W.faults sink.new) result (layout.words_bytes (layout.stream_words (size_of share (sector_of version)) start (shares.streams_of share entries.now.others))) }
{
    let end = start + count;
    let mut next = start;
    let mut sum = 0u16;
    for k in 0..entries.len() {
        if next == end {
            return Ok(sum);
        }
        let pieces = pieces_of(&entries.entry(k).file.kind, share, version) as u32;
        sum = sum.wrapping_add(append_run(sink, Run::Chain(next), pieces)?);
        next += pieces;
    }
    Ok(sum)
}

/// Appends the streams of a share, each with zeros up to whole pieces, which are so many in all. What stands behind the last
/// of them is not looked at.
pub fn append_streams<B: Blob, W: Sink>(
    sink: &mut W,
    entries: &Entries<'_, B>,
    share: Share,
    version: Version,
    count: u32,
) -> Result<u16, Failed>
    requires { count ≡ shares.share_total share (sector_of version) entries.now.others }
    ensures { Sums (W.held sink.old) (W.held sink.new) (W.faults sink.old) (W.faults sink.new) result (flat_map (layout.filled (size_of share (sector_of version))) (shares.streams_of share entries.now.others)) }
{
    let mut left = count;
    let mut sum = 0u16;
    for k in 0..entries.len() {
        if left == 0 {
            return Ok(sum);
        }
        let entry = entries.entry(k);
        sum = sum.wrapping_add(append_shared(sink, &entry.file.kind, share, version)?);
        left -= pieces_of(&entry.file.kind, share, version) as u32;
    }
    Ok(sum)
}

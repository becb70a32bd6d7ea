//! How many streams a store has, and how many bytes are in them.
ghost use Rattle.std.specs.Prelude.{◌≡◌, ◌≤◌};
ghost use Rattle.carrier_io.specs.Known.{Writes};
ghost use Rattle.carrier_model.specs.FileTrees.{stream_count, byte_count};
ghost use Rattle.carrier_model.specs.Totals.{capped};
ghost use Rattle.text_model.specs.TreeTexts.{line, store_text};
ghost use Rattle.msg_tree.specs.StoreMeaning.{store_of, member_of};
ghost use Rattle.tree_texts.specs.StoreTotals.{streams_at, bytes_at};

use crate::lines::{write_counted, write_indent};
use carrier_io::{Blob, Failed, Sink, write_pieces};
use msg_tree::{Member, Store};

/// How many streams, at every depth, and how many bytes are in them. A number stays at the greatest `u64` where the
/// true one is larger.
#[derive(Clone, Copy)]
struct StoreTotals {
    streams: u64,
    bytes: u64,
}

#[cycle(totals)]
fn totals_of<B: Blob>(store: &Store<B>) -> StoreTotals
    ensures streams { result.streams ≡ capped (stream_count (store_of B.bytes store.now).members) }
    ensures bytes { result.bytes ≡ capped (byte_count (store_of B.bytes store.now).members) }
{
    let mut totals = StoreTotals {
        streams: 0,
        bytes: 0,
    };
    for k in 0..store.len() {
        let more = member_totals(store.member(k));
        totals = StoreTotals {
            streams: totals.streams.saturating_add(more.streams),
            bytes: totals.bytes.saturating_add(more.bytes),
        };
    }
    totals
}

#[cycle(totals)]
fn member_totals<B: Blob>(member: &Member<B>) -> StoreTotals
    ensures streams { result.streams ≡ capped (streams_at (member_of B.bytes member.now)) }
    ensures bytes { result.bytes ≡ capped (bytes_at (member_of B.bytes member.now)) }
{
    match member {
        Member::Stream(bytes) => StoreTotals {
            streams: 1,
            bytes: bytes.len() as u64,
        },
        Member::Storage(store) => totals_of(store),
    }
}

/// Appends what there is in a store.
fn write_totals<B: Blob, W: Sink>(sink: &mut W, store: &Store<B>) -> Result<(), Failed>
    ensures { Writes (W.held sink.old) (W.held sink.new) (W.faults sink.old) (W.faults sink.new) result (store_text (store_of B.bytes store.now)) }
{
    let totals = totals_of(store);
    write_counted(sink, b"storage", totals.streams)?;
    write_counted(sink, b" streams", totals.bytes)?;
    write_pieces(sink, b" bytes")
}

/// Appends the line of a store.
pub fn write_store<B: Blob, W: Sink>(
    sink: &mut W,
    indent: usize,
    store: &Store<B>,
) -> Result<(), Failed>
    requires { indent ≤ 160 }
    ensures { Writes (W.held sink.old) (W.held sink.new) (W.faults sink.old) (W.faults sink.new) result (line indent (store_text (store_of B.bytes store.now))) }
{
    write_indent(sink, indent)?;
    write_totals(sink, store)?;
    write_pieces(sink, b"\n")
}

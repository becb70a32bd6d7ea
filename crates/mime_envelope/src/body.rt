//! Decoding the body of a part.
ghost use Rattle.std.specs.Prelude.{◌≡◌, ◌⊎◌, ◌+◌, ◌-◌, ◌<◌, ◌≤◌, [], ◌++◌, length, IfOk, IfSome};
ghost use Rattle.std.specs.List.{prefix_len, list_all};
ghost use Rattle.mail_model.specs.Envelope as envelope;
ghost use Rattle.mime_envelope.specs.Parts.{is_kept, IsCoded};

use crate::coder::{Coder, PIECE};
use base64::decoded_len_estimate;
use carrier_io::NoMemory;
use std::alloc::Global;

/// How many bytes are looked at together.
const BLOCK: usize = 16;

/// Whether it is a space, a tab or of a line's end.
pub fn is_skipped(byte: u8) -> bool
    ensures { result ≡ envelope.is_skipped byte }
{
    byte == b' ' || byte == b'\t' || byte == b'\r' || byte == b'\n'
}

/// Whether none of these bytes is skipped. It looks at each, so that many are looked at together.
fn are_kept(bytes: &[u8]) -> bool
    ensures { result ≡ list_all is_kept bytes.now }
{
    let mut kept = true;
    for byte in bytes {
        kept &= !is_skipped(*byte);
    }
    kept
}

/// What stands behind the blocks in front that have no skipped byte.
fn behind_blocks(bytes: &[u8]) -> &[u8]
    ensures within { length result.now ≤ length bytes.now }
    ensures kept { prefix_len is_kept bytes.now ≡ length bytes.now - length result.now + prefix_len is_kept result.now }
{
    let mut rest = bytes;
    while rest.len() >= BLOCK {
        let (block, after) = rest.split_at(BLOCK);
        if !are_kept(block) {
            return rest;
        }
        rest = after;
    }
    rest
}

/// How many bytes stand before the first that is skipped, or in all.
fn count_kept(bytes: &[u8]) -> usize
    ensures value { result ≡ prefix_len is_kept bytes.now }
    ensures within { result ≤ length bytes.now }
{
    let rest = behind_blocks(bytes);
    let front = bytes.len() - rest.len();
    for (i, byte) in rest.iter().enumerate() {
        if is_skipped(*byte) {
            return front + i;
        }
    }
    bytes.len()
}

/// How many skipped bytes stand in front.
fn count_skipped(bytes: &[u8]) -> usize
    ensures value { result ≡ prefix_len (λ c. envelope.is_skipped c) bytes.now }
    ensures within { result ≤ length bytes.now }
{
    for (i, byte) in bytes.iter().enumerate() {
        if !is_skipped(*byte) {
            return i;
        }
    }
    bytes.len()
}

/// The characters up to the next skipped byte, or as many of them as there is room for, and what is left of the body.
fn next_run(body: &[u8], room: usize) -> (&[u8], &[u8])
    requires some { 0 < length body.now }
    requires room { 0 < room }
    ensures text { result.0.now ++ envelope.characters result.1.now ≡ envelope.characters body.now }
    ensures fits { length result.0.now ≤ room }
    ensures within { length result.0.now + length result.1.now ≤ length body.now }
    ensures less { length result.1.now < length body.now }
{
    let (front, _) = body.split_at(body.len().min(room));
    let (run, after) = body.split_at(count_kept(front));
    let (_, rest) = after.split_at(count_skipped(after));
    (run, rest)
}

/// Makes a piece of the first characters of a body, as many as a piece has or all, and says what is left of the body.
fn fill<'a>(body: &'a [u8], piece: &mut Vec<u8>) -> Result<&'a [u8], NoMemory>
    requires { 0 < length body.now }
    ensures few { length piece.new.items ≤ 4096 }
    ensures text { IfOk result (λ rest. piece.new.items ++ envelope.characters rest.now ≡ envelope.characters body.now) }
    ensures full { IfOk result (λ rest. (length piece.new.items ≡ 4096) ⊎ (rest.now ≡ [])) }
    ensures less { IfOk result (λ rest. length rest.now < length body.now) }
{
    piece.clear();
    let mut rest = body;
    while !rest.is_empty() && piece.len() < PIECE {
        let (run, after) = next_run(rest, PIECE - piece.len());
        piece.extend_from_slice(run)?;
        rest = after;
    }
    Ok(rest)
}

/// The bytes that a body codes, if it codes any.
pub fn decode_body(alloc: Global, body: &[u8]) -> Result<Option<Vec<u8>>, NoMemory>
    ensures value { IfOk result (λ o. IsCoded (envelope.characters body.now) o) }
    ensures short { IfOk result (λ o. IfSome o (λ v. length v.items ≤ length body.now)) }
{
    let coder = Coder::new();
    let mut payload = Vec::with_capacity(alloc, decoded_len_estimate(body.len()))?;
    let mut piece = Vec::with_capacity(alloc, PIECE)?;
    let mut rest = body;
    while !rest.is_empty() {
        rest = fill(rest, &mut piece)?;
        if !coder.decode_piece(&piece, &mut payload)? {
            return Ok(None);
        }
    }
    Ok(Some(payload))
}

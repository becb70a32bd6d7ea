//! Translations that are cut short: by the input's end, or by a sink that is full.
use crate::trips::ONE_PROPERTY;
use carrier_io::{Fault, MemorySink, Reason, u32_at};
use std::alloc::Global;
use std::test::*;
use translate_core::{End, Job, translate};

/// How a translation of bytes ended over a sink with so much room, and what the sink holds.
#[derive(Drop)]
struct Translated {
    end: Result<(), End>,
    held: Vec<u8>,
}

/// Translates bytes into a sink with so much room.
fn translate_into(alloc: Global, job: &Job, bytes: &[u8], room: usize) -> Result<Translated, Fail> {
    if bytes.len() > 10_000_000 {
        return Err("too long")?;
    }
    let mut sink = MemorySink::new(alloc, room, Vec::new(alloc))?;
    let end = translate(alloc, job, bytes, &mut sink);
    Ok(Translated {
        end,
        held: sink.into_bytes(),
    })
}

#[test]
fn sinks_without_room(rt: HostRuntime) -> Result<(), Fail> {
    for room in 0..64usize {
        let got = translate_into(rt.alloc(), &Job::ToTnef, &ONE_PROPERTY, room)?;
        let end = if room < 63 {
            Err(End::WriteFault)
        } else {
            Ok(())
        };
        assert_eq!(rt; got.end, end);
        assert_eq!(rt; Some(got.held.as_slice()), ONE_PROPERTY.get(..room));
    }
    Ok(())
}

/// From where to where fronts of the stream end that are refused for one reason at one offset, or are not refused: within
/// the signature, the key, and for each of three attributes its level, its id, its length, its value and its sum.
const FRONTS: [(usize, usize, Option<(Reason, u64)>); 18] = [
    (0, 4, Some((Reason::NotACarrier, 0))),
    (4, 6, Some((Reason::Truncated, 4))),
    (6, 7, None),
    (7, 11, Some((Reason::Truncated, 7))),
    (11, 15, Some((Reason::Truncated, 11))),
    (15, 19, Some((Reason::Truncated, 15))),
    (19, 21, Some((Reason::Truncated, 19))),
    (21, 22, None),
    (22, 26, Some((Reason::Truncated, 22))),
    (26, 30, Some((Reason::Truncated, 26))),
    (30, 38, Some((Reason::Truncated, 30))),
    (38, 40, Some((Reason::Truncated, 38))),
    (40, 41, None),
    (41, 45, Some((Reason::Truncated, 41))),
    (45, 49, Some((Reason::Truncated, 45))),
    (49, 61, Some((Reason::Truncated, 49))),
    (61, 63, Some((Reason::Truncated, 61))),
    (63, 64, None),
];

/// Each front of the stream from one length up to another has to end so.
fn fronts_end(
    alloc: Global,
    from: usize,
    to: usize,
    refusal: Option<(Reason, u64)>,
) -> Result<(), Fail> {
    let wanted = match refusal {
        Some((reason, offset)) => Err(End::Refused(Fault { reason, offset })),
        None => Ok(()),
    };
    for len in from..to {
        let front = ONE_PROPERTY.get(..len).ok_or("a front")?;
        if translate_into(alloc, &Job::ToTnef, front, 63)?.end != wanted {
            return Err("another end")?;
        }
    }
    Ok(())
}

#[test]
fn fronts_of_a_stream(rt: HostRuntime) -> Result<(), Fail> {
    for (from, to, refusal) in FRONTS {
        fronts_end(rt.alloc(), from, to, refusal)?;
    }
    Ok(())
}

/// What stands in a stream before the 7,995,904 zeros of the property 1013, behind the version and the code page.
const BEFORE_ZEROS: [u8; 25] = [
    1, 0x03, 0x90, 0x06, 0, 0x10, 0x02, 0x7a, 0, 1, 0, 0, 0, 2, 1, 0x13, 0x10, 1, 0, 0, 0, 0, 0x02,
    0x7a, 0,
];

/// A stream whose one property is so long that the FAT of its file has more sectors than the header lists.
fn long_stream(alloc: Global) -> Result<Vec<u8>, Fail> {
    let front = ONE_PROPERTY.get(..40).ok_or("a front")?;
    let mut stream = Vec::from_slice(alloc, front)?;
    stream.extend_from_slice(&BEFORE_ZEROS)?;
    stream.resize(40 + 25 + 7_995_904, 0)?;
    stream.extend_from_slice(&[0xa4, 0])?;
    Ok(stream)
}

/// The number of FAT sectors, the first DIFAT sector, and how many of these there are.
fn fat_fields(file: &[u8]) -> Option<[u32; 3]> {
    if file.len() != 8_062_464 {
        return None;
    }
    Some([u32_at(file, 44), u32_at(file, 68), u32_at(file, 72)])
}

#[test]
fn a_file_with_a_difat_sector(rt: HostRuntime) -> Result<(), Fail> {
    let stream = long_stream(rt.alloc())?;
    let file = translate_into(rt.alloc(), &Job::ToMsg, &stream, 9_000_000)?;
    assert_eq!(rt; fat_fields(&file.held), Some([124, 124, 1]));
    let back = translate_into(rt.alloc(), &Job::ToTnef, &file.held, 8_000_000)?;
    assert!(rt; back.held == stream);
    let cut = translate_into(rt.alloc(), &Job::ToMsg, &stream, 1_000_000)?;
    assert_eq!(rt; cut.end, Err(End::WriteFault));
    assert!(rt; Some(cut.held.as_slice()) == file.held.get(..1_000_000));
    Ok(())
}

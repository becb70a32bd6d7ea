use crate::tests::file::{file_of, place_of};
use crate::tests::run_over;
use crate::tests::stream::{FRONT, attribute};
use std::test::*;

/// The list of a message: two named properties, and what stands before the 600 bytes of the id 1009.
const LIST: [u8; 88] = [
    3, 0, 0, 0, 0x0b, 0, 5, 0x80, 8, 0x20, 6, 0, 0, 0, 0, 0, 0xc0, 0, 0, 0, 0, 0, 0, 0x46, 0, 0, 0,
    0, 6, 0x85, 0, 0, 1, 0, 0, 0, 3, 0, 5, 0x80, 2, 0x20, 6, 0, 0, 0, 0, 0, 0xc0, 0, 0, 0, 0, 0, 0,
    0x46, 1, 0, 0, 0, 8, 0, 0, 0, 0x4b, 0, 0x65, 0, 0x79, 0, 0, 0, 9, 0, 0, 0, 2, 1, 9, 0x10, 1, 0,
    0, 0, 0x58, 2, 0, 0,
];

/// The list of the attachment: the method 1, and the name notes.txt in 16-bit units.
const ATTACHED: [u8; 48] = [
    2, 0, 0, 0, 3, 0, 5, 0x37, 1, 0, 0, 0, 0x1f, 0, 7, 0x37, 1, 0, 0, 0, 20, 0, 0, 0, 0x6e, 0,
    0x6f, 0, 0x74, 0, 0x65, 0, 0x73, 0, 0x2e, 0, 0x74, 0, 0x78, 0, 0x74, 0, 0, 0, 0, 0, 0, 0,
];

/// A stream as Outlook sends it, with some bytes of text and an attachment's data.
fn outlook(rt: &HostRuntime, rtf: &[u8], data: &[u8]) -> Result<Vec<u8>, Fail> {
    let mut list = Vec::from_slice(rt.alloc(), &LIST)?;
    list.extend_from_slice(rtf)?;
    let mut out = Vec::from_slice(rt.alloc(), &FRONT)?;
    attribute(&mut out, 1, 0x0007_8008, b"IPM.Microsoft Mail.Note\0")?;
    attribute(&mut out, 1, 0x0001_8004, b"Report\0")?;
    attribute(&mut out, 1, 0x0001_8009, b"seventeen bytes!!")?;
    attribute(&mut out, 1, 0x0006_9003, &list)?;
    let rendering = [1, 0, 5, 0, 0, 0, 32, 0, 32, 0, 0, 0, 0, 0];
    attribute(&mut out, 2, 0x0006_9002, &rendering)?;
    attribute(&mut out, 2, 0x0006_800f, data)?;
    attribute(&mut out, 2, 0x0001_8010, b"notes.txt\0")?;
    attribute(&mut out, 2, 0x0006_8011, b"metafile")?;
    attribute(&mut out, 2, 0x0006_9005, &ATTACHED)?;
    Ok(out)
}

/// The first and the last lines of the stream's file.
const FIRST: &[u8] =
    b"message\n  001A String8 \"IPM.Note\"\n  0037 String8 \"Report\"\n  1009 Binary 600 bytes 3737";

const LAST: &[u8] =
    b"    3704 String8 \"notes.txt\"\n    3705 Integer32 1\n    3707 String \"notes.txt\"\n    3709 Binary 8 bytes 6d65746166696c65\n    370B Integer32 5\n";

#[test]
fn a_stream_of_outlook(rt: HostRuntime) -> Result<(), Fail> {
    let rtf = vec![in rt.alloc(); 0x37u8; 600]?;
    let data = vec![in rt.alloc(); 0x42u8; 5000]?;
    let stream = outlook(&rt, &rtf, &data)?;
    let file = file_of(&rt, "to-msg", &stream)?;
    assert!(rt; place_of(&file, &rtf).is_some());
    assert!(rt; place_of(&file, &data).is_some());
    let shown = run_over(&rt, "show", &file, &[], &[])?;
    assert!(rt; shown.output.starts_with(FIRST));
    assert!(rt; shown.output.ends_with(LAST));
    let checked = run_over(&rt, "check", &stream, &[], &[])?;
    assert!(rt;
        checked
            .output
            .ends_with(b"passed attribute 00018009 at 93\n")
    );
    Ok(())
}

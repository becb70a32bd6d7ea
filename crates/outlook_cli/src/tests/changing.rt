use crate::tests::file::{changed, file_of};
use crate::tests::stream::listed;
use crate::tests::{ONE_PROPERTY, ends, run_over, write};
use outlook_status::Status;
use std::test::*;

/// The property 3FFD with the code page UTF-8, and with one that is not known.
const UTF_8: [u8; 8] = [3, 0, 0xfd, 0x3f, 0xe9, 0xfd, 0, 0];

const OTHER_PAGE: [u8; 8] = [3, 0, 0xfd, 0x3f, 0xa4, 3, 0, 0];

/// A stream with properties that take these bytes in its list.
fn with_props(rt: &HostRuntime, count: u8, props: &[&[u8]]) -> Result<Vec<u8>, Fail> {
    let mut list = Vec::from_slice(rt.alloc(), &[count, 0, 0, 0])?;
    for prop in props {
        list.extend_from_slice(prop)?;
    }
    listed(rt, &list)
}

/// The stream whose texts were converted has these bytes.
fn becomes(rt: &HostRuntime, input: &[u8], wanted: &[u8]) -> Result<(), Fail> {
    let file = file_of(rt, "to-unicode", input)?;
    write(rt, "to-tnef", &file, wanted)
}

#[test]
fn a_text_of_the_usual_page(rt: HostRuntime) -> Result<(), Fail> {
    let quoted = [
        0x1e, 0, 0x37, 0, 1, 0, 0, 0, 4, 0, 0, 0, 0x93, 0x41, 0x94, 0,
    ];
    let wide = [
        0x1f, 0, 0x37, 0, 1, 0, 0, 0, 8, 0, 0, 0, 0x1c, 0x20, 0x41, 0, 0x1d, 0x20, 0, 0,
    ];
    let input = with_props(&rt, 1, &[&quoted])?;
    becomes(&rt, &input, &with_props(&rt, 1, &[&wide])?)
}

// What is written has the code page of 3FFD in its attOemCodepage too, whose value begins at 30.
#[test]
fn a_text_in_utf_8(rt: HostRuntime) -> Result<(), Fail> {
    let mail = [
        0x1e, 0, 0x37, 0, 1, 0, 0, 0, 5, 0, 0, 0, 0xf0, 0x9f, 0x93, 0xa7, 0, 0, 0, 0,
    ];
    let wide = [
        0x1f, 0, 0x37, 0, 1, 0, 0, 0, 6, 0, 0, 0, 0x3d, 0xd8, 0xe7, 0xdc, 0, 0, 0, 0,
    ];
    let input = with_props(&rt, 2, &[&mail, &UTF_8])?;
    let listed = with_props(&rt, 2, &[&wide, &UTF_8])?;
    let page = [0xe9, 0xfd, 0, 0, 0, 0, 0, 0, 0xe6, 1];
    becomes(&rt, &input, &changed(&rt, &listed, 30, &page)?)
}

#[test]
fn no_text_in_a_page_that_is_not_known(rt: HostRuntime) -> Result<(), Fail> {
    let input = with_props(&rt, 1, &[&OTHER_PAGE])?;
    let page = [0xa4, 3, 0, 0, 0, 0, 0, 0, 0xa7, 0];
    becomes(&rt, &input, &changed(&rt, &input, 30, &page)?)
}

#[test]
fn texts_that_are_not_mapped(rt: HostRuntime) -> Result<(), Fail> {
    let gap = [0x1e, 0, 0x37, 0, 1, 0, 0, 0, 3, 0, 0, 0, 0x41, 0x81, 0, 0];
    let input = with_props(&rt, 1, &[&gap])?;
    let line = b"unmapped Byte property 0 element 0 at 1 page 1252\n";
    ends(&rt, "to-unicode", &input, 7, line)?;
    let empty = [0x1e, 0, 0x37, 0, 1, 0, 0, 0, 1, 0, 0, 0, 0, 0, 0, 0];
    let input = with_props(&rt, 2, &[&empty, &OTHER_PAGE])?;
    let line = b"unmapped Page property 0 element 0 at 0 page 932\n";
    ends(&rt, "to-unicode", &input, 7, line)
}

#[test]
fn edits_are_done(rt: HostRuntime) -> Result<(), Fail> {
    let file = file_of(&rt, "to-msg", &ONE_PROPERTY)?;
    let set = changed(&rt, &file, 2600, &[1])?;
    write(&rt, "edit set . 0017 Integer32 1", &ONE_PROPERTY, &set)?;
    let words = "edit add-recipient . set ./r0 3001 String r drop-recipient . 0";
    write(&rt, words, &ONE_PROPERTY, &file)
}

#[test]
fn edits_that_cannot_be_done(rt: HostRuntime) -> Result<(), Fail> {
    let gone = "edit remove . 0037 String";
    ends(&rt, gone, &ONE_PROPERTY, 9, b"edit 0 NoProperty\n")?;
    let below = "edit remove . 0017 Integer32 set ./m0 0017 Integer32 1";
    ends(&rt, below, &ONE_PROPERTY, 9, b"edit 1 NoPlace\n")
}

#[test]
fn edits_that_are_none(rt: HostRuntime) -> Result<(), Fail> {
    for words in ["edit set . 0017 Integer32 4294967296", "edit"] {
        let got = run_over(&rt, words, &ONE_PROPERTY, &[0], &[])?;
        assert!(rt; matches!(got.status, Status::Usage));
    }
    Ok(())
}

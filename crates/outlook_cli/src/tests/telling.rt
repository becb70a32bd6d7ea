use crate::tests::file::file_of;
use crate::tests::layout::with_passed_entries;
use crate::tests::stream::{NAMED, listed};
use crate::tests::{ONE_PROPERTY, ends, run_over, write};
use std::test::*;

#[test]
fn messages_are_shown(rt: HostRuntime) -> Result<(), Fail> {
    let one = b"message\n  0017 Integer32 2\n";
    write(&rt, "show", &ONE_PROPERTY, one)
}

#[test]
fn a_name_is_shown(rt: HostRuntime) -> Result<(), Fail> {
    let mut list = Vec::from_slice(rt.alloc(), &[1, 0, 0, 0, 0x40, 0, 0, 0x80])?;
    list.extend_from_slice(&NAMED[4..28])?;
    list.extend_from_slice(&[1, 0, 0, 0, 0, 0, 0, 0])?;
    let moment = listed(&rt, &list)?;
    let named = b"message\n  PSETID_Appointment/0000820D Time 1\n";
    write(&rt, "show", &moment, named)?;
    write(&rt, "show", &file_of(&rt, "to-msg", &moment)?, named)
}

#[test]
fn messages_are_checked(rt: HostRuntime) -> Result<(), Fail> {
    let stream =
        b"carrier tnef\nmessages 1\nrecipients 0\nattachments 0\nproperties 1\nnames 0\ndepth 0\n";
    write(&rt, "check", &ONE_PROPERTY, stream)?;
    let file =
        b"carrier msg\nmessages 1\nrecipients 0\nattachments 0\nproperties 2\nnames 0\ndepth 0\npassed property 0E12000D at 2608\npassed property 674000FB at 2624\n";
    write(&rt, "check", &with_passed_entries(&rt)?, file)
}

/// The JSON text of a message with the property 0017, the same with it twice, and with a value that is too large.
const ONE_JSON: &[u8] =
    b"{\"attachments\":[],\"properties\":[{\"key\":\"0017\",\"kind\":\"Integer32\",\"value\":2}],\"recipients\":[]}";

const TWICE: &[u8] =
    b"{\"attachments\":[],\"properties\":[{\"key\":\"0017\",\"kind\":\"Integer32\",\"value\":2},{\"key\":\"0017\",\"kind\":\"Integer32\",\"value\":2}],\"recipients\":[]}";

const LARGE: &[u8] =
    b"{\"attachments\":[],\"properties\":[{\"key\":\"0017\",\"kind\":\"Integer32\",\"value\":4294967296}],\"recipients\":[]}";

#[test]
fn messages_as_json(rt: HostRuntime) -> Result<(), Fail> {
    write(&rt, "to-json", &ONE_PROPERTY, ONE_JSON)?;
    let file = file_of(&rt, "to-msg", &ONE_PROPERTY)?;
    write(&rt, "from-json", ONE_JSON, &file)
}

#[test]
fn json_of_no_message(rt: HostRuntime) -> Result<(), Fail> {
    let table = [
        (&b"{}"[..], &b"json Form at /\n"[..]),
        (TWICE, &b"json Order at /1/1\n"[..]),
        (LARGE, &b"json Range at /1/0/2\n"[..]),
        (&b"{"[..], &b"json NotJson at /\n"[..]),
    ];
    for (text, line) in table {
        ends(&rt, "from-json", text, 8, line)?;
    }
    Ok(())
}

/// Words, and what they tell: samples without levels of messages, with one, with the most, and the greatest, with the sizes and sums of their forms.
const SAMPLES: [(&str, &[u8]); 4] = [
    (
        "sample 0",
        b"sample 0\nmessages 1\nrecipients 0\nattachments 0\nproperties 3\nnames 0\ndepth 0\ntnef 127 bytes sum 3099\nenvelope 346 bytes sum 27148\nmsg 3072 bytes sum 14283\n",
    ),
    (
        "sample 1",
        b"sample 1\nmessages 2\nrecipients 1\nattachments 2\nproperties 8\nnames 1\ndepth 1\ntnef 410 bytes sum 10968\nenvelope 732 bytes sum 53591\nmsg 5120 bytes sum 61368\n",
    ),
    (
        "sample 32",
        b"sample 32\nmessages 33\nrecipients 32\nattachments 64\nproperties 163\nnames 32\ndepth 32\ntnef 72298 bytes sum 14263\nenvelope 99106 bytes sum 25966\nmsg 136192 bytes sum 10553\n",
    ),
    (
        "sample 5000",
        b"sample 5000\nmessages 18\nrecipients 902\nattachments 34\nproperties 5956\nnames 5000\ndepth 17\ntnef 206046 bytes sum 29954\nenvelope 282126 bytes sum 10401\nmsg 686592 bytes sum 32392\n",
    ),
];

#[test]
fn samples_are_told(rt: HostRuntime) -> Result<(), Fail> {
    for (words, text) in SAMPLES {
        let got = run_over(&rt, words, &[], &[0], &[])?;
        assert_eq!(rt; got.output.as_slice(), text);
    }
    Ok(())
}

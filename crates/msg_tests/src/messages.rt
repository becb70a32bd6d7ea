//! Which storages of a message are its recipients and attachments.
use crate::files::{END, FREE, Name, Words, file_of, opened, put};
use carrier_io::{Fault, Reason, Stop};
use msg_storage::read_msg;
use std::alloc::Global;
use std::test::*;

/// The name of a property list's stream.
const LIST: &str = "__properties_version1.0";

/// The root's list, which begins at 2560, and a storage with the list that begins at 2624.
const STORAGE: [Words<'static>; 7] = [
    (1144, &[128]),
    (1216, &[0x0102_0030, FREE, 2, FREE]),
    (1268, &[0, 32]),
    (1344, &[0x0101_0000, FREE, FREE, 3]),
    (1472, &[0x0102_0030, FREE, FREE, FREE]),
    (1524, &[1, 8]),
    (2048, &[END, END]),
];

/// How many recipients and attachments a message has whose one storage has this name.
fn counts(alloc: Global, name: &'static str) -> Result<(usize, usize), Stop> {
    let names = [(1152, LIST), (1280, name), (1408, LIST)];
    let mut file = file_of(alloc, &STORAGE, &names)?;
    let size = 2 * (name.len() % 256) as u32 + 2;
    put(&mut file, 1344, &[0x0101_0000 | size]);
    let files = opened(alloc, &file)?;
    let accepted = read_msg(alloc, &files)?;
    let top = accepted.tree.top();
    Ok((top.recipients.len(), top.attachments.len()))
}

#[test]
fn names_of_storages(rt: HostRuntime) -> Result<(), Fail> {
    let rows = [
        ("__recip_version1.0_#00000000", (1, 0)),
        ("__recip_version1.0_#0000000A", (1, 0)),
        ("__RECIP_version1.0_#fedcBA98", (1, 0)),
        ("__recip_version1.0_#0000000", (0, 0)),
        ("__recip_version1.0_#000000000", (0, 0)),
        ("__recip_version1.0_#0000000G", (0, 0)),
        ("__attach_version1.0_#00000000", (0, 1)),
        ("__attach_version1.0_00000000", (0, 0)),
    ];
    for (name, wanted) in rows {
        assert_eq!(rt; counts(rt.alloc(), name)?, wanted, "{name}");
    }
    Ok(())
}

/// The list of the root, which has one entry of the text 0037, and the text's stream of three bytes.
const ODD_TEXT: [Words<'static>; 7] = [
    (1144, &[128]),
    (1216, &[0x0102_0030, 2, FREE, FREE]),
    (1268, &[0, 48]),
    (1344, &[0x0102_002A, FREE, FREE, FREE]),
    (1396, &[1, 3]),
    (2048, &[END, END]),
    (2592, &[0x0037_001F]),
];

/// What a message has instead of some numbers of a file, its names, and the reason and the place of its fault.
type Refused = (
    &'static [Words<'static>],
    &'static [Words<'static>],
    &'static [Name],
    Reason,
    u64,
);

const FAULTS: [Refused; 4] = [
    // The root has nothing in it.
    (
        &[],
        &[(1100, &[FREE])],
        &[],
        Reason::MissingProperties,
        1024,
    ),
    // Nor has a recipient.
    (
        &STORAGE,
        &[(1344, &[0x0101_003A, FREE, FREE, FREE])],
        &[(1152, LIST), (1280, "__recip_version1.0_#00000000")],
        Reason::MissingProperties,
        1280,
    ),
    // An attachment's list has an object, and there is no storage of it.
    (
        &STORAGE,
        &[
            (1344, &[0x0101_003C]),
            (1528, &[24]),
            (2632, &[0x3701_000D]),
        ],
        &[
            (1152, LIST),
            (1280, "__attach_version1.0_#00000000"),
            (1408, LIST),
        ],
        Reason::MissingStorage,
        2632,
    ),
    (
        &ODD_TEXT,
        &[],
        &[(1152, LIST), (1280, "__substg1.0_0037001F")],
        Reason::BadElement,
        1400,
    ),
];

/// Why a message is refused, where it is.
fn end_of(alloc: Global, row: &Refused) -> Option<Stop> {
    let (rows, changes, names, ..) = row;
    let mut file = file_of(alloc, *rows, *names).ok()?;
    for (at, words) in *changes {
        put(&mut file, *at, *words);
    }
    match opened(alloc, &file) {
        Ok(files) => read_msg(alloc, &files).err(),
        Err(stop) => Some(stop),
    }
}

#[test]
fn messages_with_faults(rt: HostRuntime) {
    for row in &FAULTS {
        let (_, _, _, reason, offset) = *row;
        let end = end_of(rt.alloc(), row);
        assert_eq!(rt;
            end,
            Some(Stop::Fault(Fault { reason, offset })),
            "at {offset}"
        );
    }
}

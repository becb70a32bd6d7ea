use carrier_io::{Fault, MemorySink, Reason};
use msg_tree::Limit;
use outlook_status::{Status, write_report};
use std::test::*;
use tree_edit::{EditFault, EditWhy};
use tree_text8::{Unmapped, Why};

#[test]
fn ends_with_their_codes_and_lines(rt: HostRuntime) -> Result<(), Fail> {
    let fault = Fault {
        reason: Reason::NotACarrier,
        offset: 17,
    };
    let unmapped = Unmapped {
        why: Why::Byte,
        property: 1,
        element: 2,
        at: 3,
        page: 1252,
    };
    let undone = EditFault {
        edit: 4,
        why: EditWhy::NoProperty,
    };
    let table = [
        (Status::Done, 0, &b""[..]),
        (
            Status::Refused(fault),
            1,
            &b"refused 1 NotACarrier at 17\n"[..],
        ),
        (
            Status::Unfit(Limit::Recipients(2049)),
            3,
            &b"unfit Recipients 2049\n"[..],
        ),
        (Status::ReadFault, 4, &b"read fault\n"[..]),
        (
            Status::Unmapped(unmapped),
            7,
            &b"unmapped Byte property 1 element 2 at 3 page 1252\n"[..],
        ),
        (Status::Edit(undone), 9, &b"edit 4 NoProperty\n"[..]),
    ];
    for (status, code, line) in &table {
        let mut sink = MemorySink::new(rt.alloc(), 1000, Vec::new(rt.alloc()))?;
        assert_eq!(rt; status.code(), *code);
        assert!(rt; write_report(&mut sink, status).is_ok());
        assert_eq!(rt; sink.bytes(), *line);
    }
    Ok(())
}

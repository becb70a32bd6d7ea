use crate::tests::{refuse, write};
use carrier_io::Reason;
use std::test::*;

/// A TNEF stream without attributes.
const STREAM: [u8; 6] = [0x78, 0x9f, 0x3e, 0x22, 0x01, 0x00];

/// The mail that carries it.
const MAIL: [u8; 178] =
    *b"MIME-Version: 1.0\r\nContent-Type: application/ms-tnef; name=\"winmail.dat\"\r\nContent-Transfer-Encoding: base64\r\nContent-Disposition: attachment; filename=\"winmail.dat\"\r\n\r\neJ8+IgEA\r\n";

/// A mail that carries it in the second of two parts, without its last line.
const MIXED: &[u8] =
    b"Content-Type: multipart/mixed; boundary=\"b1\"\n\n--b1\nContent-Type: text/plain\n\nhello\n--b1\nContent-Type: application/ms-tnef; name=\"winmail.dat\"\nContent-Transfer-Encoding: base64\n\neJ8+IgEA\n";

#[test]
fn streams_go_into_mails(rt: HostRuntime) -> Result<(), Fail> {
    write(&rt, "wrap", &STREAM, &MAIL)
}

#[test]
fn streams_come_out_of_mails(rt: HostRuntime) -> Result<(), Fail> {
    write(&rt, "unwrap", &MAIL, &STREAM)?;
    let mut mixed = MIXED.to_vec(rt.alloc())?;
    mixed.extend_from_slice(b"--b1--\n")?;
    write(&rt, "unwrap", &mixed, &STREAM)
}

#[test]
fn mails_are_refused(rt: HostRuntime) -> Result<(), Fail> {
    let mut other = MAIL;
    other[175] = b'*';
    refuse(&rt, "unwrap", &other, Reason::BadBase64, 175)?;
    refuse(&rt, "unwrap", MIXED, Reason::MissingClose, 186)
}

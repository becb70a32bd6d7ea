ghost use Rattle.std.specs.Prelude.{◌<◌};

use carrier_io::{Fault, MemorySink, Reason, Stop, write_gathered};
use mime_envelope::*;
use std::test::*;

const TNEF: [u8; 6] = [0x78, 0x9f, 0x3e, 0x22, 0x01, 0x00];

const WRAPPED: &[u8; 178] =
    b"MIME-Version: 1.0\r\nContent-Type: application/ms-tnef; name=\"winmail.dat\"\r\nContent-Transfer-Encoding: base64\r\nContent-Disposition: attachment; filename=\"winmail.dat\"\r\n\r\neJ8+IgEA\r\n";

#[test]
fn wraps(rt: HostRuntime) -> Result<(), Fail> {
    let mut sink = MemorySink::new(rt.alloc(), 1000, Vec::new(rt.alloc()))?;
    write_envelope(&TNEF, &mut sink)?;
    assert_eq!(rt; sink.bytes(), WRAPPED.as_slice());
    let mut gathered = MemorySink::new(rt.alloc(), 1000, Vec::new(rt.alloc()))?;
    write_gathered(&Wrapped { bytes: &TNEF }, &mut gathered)?;
    assert_eq!(rt; gathered.bytes(), WRAPPED.as_slice());
    assert_eq!(rt; envelope_size(6), 178);
    assert_eq!(rt; envelope_size(127), 346);
    envelopes_are_exact();
    Ok(())
}

/// Whether the envelope carries those six bytes.
fn carries(rt: &HostRuntime, bytes: &[u8]) -> bool {
    match payload(rt.alloc(), bytes) {
        Ok(found) => found.as_slice() == TNEF.as_slice(),
        Err(_) => false,
    }
}

/// Whether this is the envelope's first fault.
fn is_refused(rt: &HostRuntime, bytes: &[u8], reason: Reason, offset: u64) -> bool {
    match payload(rt.alloc(), bytes) {
        Ok(_) => false,
        Err(stop) => stop == Stop::Fault(Fault { reason, offset }),
    }
}

#[test]
fn unwraps(rt: HostRuntime) -> Result<(), Fail> {
    let rows: [&[u8]; 9] = [
        WRAPPED,
        b"Content-Type: multipart/mixed; boundary=\"b1\"\n\n--b1\nContent-Type: text/plain\n\nhello\n--b1\nContent-Type: application/ms-tnef; name=\"winmail.dat\"\nContent-Transfer-Encoding: base64\n\neJ8+IgEA\n--b1--\n",
        // Letters in either case, folded fields, and both line ends.
        b"content-TYPE \t:\r\n application/VND.MS-tnef;\n\tname=x\r\nCONTENT-transfer-ENCODING:\n BASE64\t\r\n\neJ8+\r\nIg EA",
        // A boundary in double quotes, with an escape and a semicolon.
        b"Content-Type: Multipart/x; a=\"boundary=no;\"; BOUNDARY = \"b\\\"1;\" ; boundary=b2\n\n--b\"1;x\n--b\"1; \t\r\nContent-Type: application/ms-tnef\nContent-Transfer-Encoding: base64\n\neJ8+IgEA\n--b\"1;--\t\n--b\"1;\n no header",
        // A boundary of 70 characters.
        b"Content-Type: multipart/mixed; boundary=xxxxxxxxxxxxxxxxxxxxxxxxxxxxxxxxxxxxxxxxxxxxxxxxxxxxxxxxxxxxxxxxxxxxxx\n\n--xxxxxxxxxxxxxxxxxxxxxxxxxxxxxxxxxxxxxxxxxxxxxxxxxxxxxxxxxxxxxxxxxxxxxx\nContent-Type: application/ms-tnef\nContent-Transfer-Encoding: base64\n\neJ8+IgEA\n--xxxxxxxxxxxxxxxxxxxxxxxxxxxxxxxxxxxxxxxxxxxxxxxxxxxxxxxxxxxxxxxxxxxxxx--",
        // The text of a delimiter line and of a closing line within lines.
        b"Content-Type: multipart/mixed; boundary=b\n\ntext\nx--b\nContent-Type: application/ms-tnef\nContent-Transfer-Encoding: base64\n\nAAAA\n--b\nContent-Type: text/plain\n\nx --b--\n--b\nContent-Type: application/ms-tnef\nContent-Transfer-Encoding: base64\n\neJ8+IgEA\n--b--\n",
        // A boundary of 40 characters, and lines that are its delimiter line and its closing line for 31 bytes.
        b"Content-Type: multipart/mixed; boundary=aaaaaaaaaaaaaaaaaaaaaaaaaaaaabbbbbbbbbbb\n\n--aaaaaaaaaaaaaaaaaaaaaaaaaaaaaccccccccccc\nContent-Type: application/ms-tnef\nContent-Transfer-Encoding: base64\n\nAAAA\n--aaaaaaaaaaaaaaaaaaaaaaaaaaaaaccccccccccc--\n--aaaaaaaaaaaaaaaaaaaaaaaaaaaaabbbbbbbbbbb\nContent-Type: application/ms-tnef\nContent-Transfer-Encoding: base64\n\neJ8+IgEA\n--aaaaaaaaaaaaaaaaaaaaaaaaaaaaabbbbbbbbbbb--\n",
        // The first of two TNEF parts.
        b"Content-Type: multipart/mixed; boundary=b\n\n--b\nContent-Type: application/ms-tnef\nContent-Transfer-Encoding: base64\n\neJ8+IgEA\n--b\nContent-Type: application/ms-tnef\nContent-Transfer-Encoding: base64\n\nAAAA\n--b--\n",
        // A header that a part's end ends.
        b"Content-Type: multipart/mixed; boundary=b\n\n--b\nContent-Type: text/plain\n--b\nContent-Type: application/ms-tnef\nContent-Transfer-Encoding: base64\n\neJ8+IgEA\n--b--\n",
    ];
    for bytes in rows {
        assert!(rt; carries(&rt, bytes));
    }
    Ok(())
}

#[test]
fn refuses(rt: HostRuntime) -> Result<(), Fail> {
    let rows: [(&[u8], Reason, u64); 12] = [
        (
            b"Content-Type: multipart/mixed; boundary=\"b1\"\n\n--b1\nContent-Type: text/plain\n\nhello\n--b1\nContent-Type: application/ms-tnef; name=\"winmail.dat\"\nContent-Transfer-Encoding: base64\n\neJ8+IgEA\n",
            Reason::MissingClose,
            186,
        ),
        (b"Subject: hello\n\nhello\n", Reason::NoTnefPart, 0),
        (
            b"MIME-Version: 1.0\r\nContent-Type: application/ms-tnef; name=\"winmail.dat\"\r\nContent-Transfer-Encoding: base64\r\nContent-Disposition: attachment; filename=\"winmail.dat\"\r\n\r\neJ8+IgE*\r\n",
            Reason::BadBase64,
            175,
        ),
        (
            b"MIME-Version: 1.0\r\nContent-Type: application/ms-tnef; name=\"winmail.dat\"\r\nContent-Transfer-Encoding: base64\r\nContent-Disposition: attachment; filename=\"winmail.dat\"\r\n\r\neJ8+IgE\r\n",
            Reason::BadPadding,
            177,
        ),
        (
            b"MIME-Version: 1.0\r\nContent-Type: application/ms-tnef; name=\"winmail.dat\"\r\nContent-Disposition: attachment; filename=\"winmail.dat\"\r\n\r\neJ8+IgEA\r\n",
            Reason::NotBase64,
            133,
        ),
        (
            b"Content-Type: multipart/mixed\n\n--b1\nContent-Type: text/plain\n\nhello\n--b1\nContent-Type: application/ms-tnef; name=\"winmail.dat\"\nContent-Transfer-Encoding: base64\n\neJ8+IgEA\n--b1--\n",
            Reason::BadBoundary,
            0,
        ),
        (b" Subject: hello\n\nhello\n", Reason::BadHeaderLine, 0),
        // A boundary that ends in a space, and one of 71 characters.
        (
            b"X: y\nContent-Type: multipart/mixed; boundary=\"b1 \"\n\n--b1 --\n",
            Reason::BadBoundary,
            5,
        ),
        (
            b"Content-Type: multipart/mixed; boundary=xxxxxxxxxxxxxxxxxxxxxxxxxxxxxxxxxxxxxxxxxxxxxxxxxxxxxxxxxxxxxxxxxxxxxxx\n\n--xxxxxxxxxxxxxxxxxxxxxxxxxxxxxxxxxxxxxxxxxxxxxxxxxxxxxxxxxxxxxxxxxxxxxxx--\n",
            Reason::BadBoundary,
            0,
        ),
        // A closing line before the first delimiter line.
        (
            b"Content-Type: multipart/mixed; boundary=b1\n\n--b1--\n--b1\nContent-Type: application/ms-tnef\nContent-Transfer-Encoding: base64\n\neJ8+IgEA\n--b1--\n",
            Reason::NoTnefPart,
            0,
        ),
        // A carriage return alone ends no line.
        (b"X: y\rZ\n\rno colon\n\n", Reason::BadHeaderLine, 7),
        // A last header line without a line end, and another encoding.
        (
            b"Content-Type: application/ms-tnef\nContent-Transfer-Encoding: 7bit",
            Reason::NotBase64,
            34,
        ),
    ];
    for (bytes, reason, offset) in rows {
        assert!(rt; is_refused(&rt, bytes, reason, offset));
    }
    Ok(())
}

/// A TNEF part so many multiparts deep.
fn nested(rt: &HostRuntime, depth: u8) -> Result<Vec<u8>, Fail>
    requires { depth < 100 }
{
    let mut mail = Vec::new(rt.alloc());
    for boundary in b'A'..b'A' + depth {
        mail.extend_from_slice(b"Content-Type: multipart/mixed; boundary=")?;
        mail.push(boundary)?;
        mail.extend_from_slice(b"\n\n--")?;
        mail.push(boundary)?;
        mail.push(b'\n')?;
    }
    mail.extend_from_slice(
        b"Content-Type: application/ms-tnef\nContent-Transfer-Encoding: base64\n\neJ8+IgEA\n",
    )?;
    for boundary in (b'A'..b'A' + depth).rev() {
        mail.extend_from_slice(b"--")?;
        mail.push(boundary)?;
        mail.extend_from_slice(b"--\n")?;
    }
    Ok(mail)
}

#[test]
fn nests(rt: HostRuntime) -> Result<(), Fail> {
    assert!(rt; carries(&rt, &nested(&rt, 16)?));
    assert!(rt; is_refused(&rt, &nested(&rt, 17)?, Reason::PartTooDeep, 752));
    Ok(())
}

// What texts are punched to, and where one is refused.
use crate::same;
use std::test::Fail;
use tape_text::{Expected, PunchError, TextFault, punch};

// A text, and its tape.
#[test]
fn texts(rt: HostRuntime) -> Result<(), Fail> {
    for (text, tape) in [
        (b"".as_slice(), b"".as_slice()),
        (b"\n  \t\r\n# EN\n", b""),
        (b"EN", b"EN"),
        (b"EN\r\n", b"EN"),
        (b" RI 08 # a ring", b"RI\x08"),
        (b"RU 02 00\nEN#\n", b"RU\x02\x00EN"),
        (b"GO 0001 0004", b"GO\x00\x01\x00\x04"),
        (b"LD 08 00 02 aF Fa", b"LD\x08\x00\x02\xAF\xFA"),
        (b"..\n..01 23\n..#", b"\x01\x23"),
        // Nothing is judged: an unknown mark, a record cut off, one out of turn, one too long.
        (b"XY 0a\nLD 00\nEN\nGO\nEN 45", b"XY\nLD\x00ENGOENE"),
    ] {
        let punched = punch(rt.alloc(), text)?;
        same(&rt, text, punched.as_slice(), tape);
    }
    Ok(())
}

// A text, and the line, the column and what is expected there.
#[test]
fn refused_texts(rt: HostRuntime) {
    for (text, line, column, expected) in [
        (b"E".as_slice(), 1, 1, Expected::Mark),
        (b"en", 1, 1, Expected::Mark),
        (b"EN\n\n  08", 3, 3, Expected::Mark),
        (b". 00", 1, 1, Expected::Mark),
        (b"A. 00", 1, 1, Expected::Mark),
        (b"\xC3\x84 00", 1, 1, Expected::Mark),
        (b"RI 8", 1, 4, Expected::Byte),
        (b"RI 8 0", 1, 4, Expected::Byte),
        (b"RI 08 G0", 1, 7, Expected::Byte),
        (b"RI 08 0g # 00", 1, 7, Expected::Byte),
        (b"RIX", 1, 3, Expected::Byte),
        (b"# RI\nRI 080", 2, 6, Expected::Byte),
        (b"EN\nEN\nRI +8\nen", 3, 4, Expected::Byte),
    ] {
        let fault = TextFault {
            line,
            column,
            expected,
        };
        let punched = punch(rt.alloc(), text);
        same(&rt, text, punched.err(), Some(PunchError::Text(fault)));
    }
}

// What is printed of a refused text.
#[test]
fn messages(rt: HostRuntime) -> Result<(), Fail> {
    for (expected, message) in [
        (
            Expected::Mark,
            "line 2, column 5: expected a mark of two capital letters, or two dots",
        ),
        (
            Expected::Byte,
            "line 2, column 5: expected a byte of two hexadecimal digits",
        ),
    ] {
        let error = PunchError::Text(TextFault {
            line: 2,
            column: 5,
            expected,
        });
        let printed = format!(in rt.alloc(); "{error}")?;
        same(&rt, message, printed.as_str(), message);
    }
    Ok(())
}

// What tapes are listed as.
use crate::same;
use std::test::Fail;
use tape_text::{list, punch};

// A tape, and its text, which punches to the tape again.
#[test]
fn tapes(rt: HostRuntime) -> Result<(), Fail> {
    for (tape, text) in [
        (b"".as_slice(), b"".as_slice()),
        (
            b"LD\x08\x00\x02\x00\x02GO\x00\x01\x00\x04RU\x02\x00RI\x08EN",
            b"LD 08 00 02 00 02\nGO 00 01 00 04\nRU 02 00\nRI 08\nEN\n",
        ),
        (b"LD\xAB\xCD\x00EN", b"LD AB CD 00\nEN\n"),
        // Out of turn, and after EN.
        (
            b"RI\x08ENENGO\x00\x01\x00\x04",
            b"RI 08\nEN\nEN\nGO 00 01 00 04\n",
        ),
        // Half a mark, an unknown one, and what follows it.
        (b"ENE", b"EN\n.. 45\n"),
        (b"XYEN", b".. 58 59 45 4E\n"),
        // Cut off.
        (b"ENLD", b"EN\n.. 4C 44\n"),
        (b"LD\x00\x01\x02\xFF", b".. 4C 44 00 01 02 FF\n"),
        (b"GO\x00\x01\x00", b".. 47 4F 00 01 00\n"),
        (b"RU\x02", b".. 52 55 02\n"),
        (b"RI", b".. 52 49\n"),
        // Sixteen bytes a line.
        (
            b"ABCDEFGHIJKLMNOP",
            b".. 41 42 43 44 45 46 47 48 49 4A 4B 4C 4D 4E 4F 50\n",
        ),
        (
            b"ABCDEFGHIJKLMNOPQ",
            b".. 41 42 43 44 45 46 47 48 49 4A 4B 4C 4D 4E 4F 50\n.. 51\n",
        ),
    ] {
        let listed = list(rt.alloc(), tape)?;
        same(&rt, text, listed.as_slice(), text);
        let punched = punch(rt.alloc(), &listed)?;
        same(&rt, tape, punched.as_slice(), tape);
    }
    Ok(())
}

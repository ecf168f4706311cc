// The tapes that are played.

// What a tape shows, and the tape.
pub type Case = (&'static str, &'static [u8]);

pub const UNKNOWN_MARK: Case = ("an unknown mark", b"XY");

pub const LOAD_OF_NO_BYTES: Case = ("a load of no bytes", b"LD\x00\x01\x00");

// Records taken and refused.
pub const RECORDS: [Case; 19] = [
    ("an empty tape", b""),
    ("half a mark", b"L"),
    UNKNOWN_MARK,
    ("an unknown mark after GO", b"GO\x00\x01\x00\x04XY"),
    ("EN before GO", b"EN"),
    ("EN after a load", b"LD\x00\x01\x01\xFFEN"),
    ("a load after GO", b"GO\x00\x01\x00\x04LD\x00\x01\x01\xFF"),
    (
        "a load after GO, and cut off: out of turn comes first",
        b"GO\x00\x01\x00\x04LD",
    ),
    ("a second GO", b"GO\x00\x01\x00\x04GO\x00\x01\x00\x04"),
    ("a load without its count", b"LD\x00\x01"),
    ("a load short of one byte", b"LD\x00\x01\x02\xFF"),
    ("GO without its return pointer", b"GO\x00\x01\x00"),
    ("no EN", b"GO\x00\x01\x00\x04"),
    LOAD_OF_NO_BYTES,
    (
        "a load of the last byte of RAM, then one past it",
        b"LD\xFF\x7F\x01\xAALD\xFF\x7F\x02\xAA\xBB",
    ),
    ("a byte after EN", b"GO\x34\x12\x78\x56EN\x00"),
    ("a record after EN", b"GO\x34\x12\x78\x56ENEN"),
    ("an unknown mark after EN", b"GO\x34\x12\x78\x56ENXY"),
    (
        "three loads, GO and EN",
        b"LD\x08\x00\x02\x00\x02LD\x00\x01\x05f\xA9\x34\x12\x89LD\x00\x02\x01\x9EGO\x00\x01\x00\x04EN",
    ),
];

// Runs and rings: why a run stops, how a visit ends, and why a ring is refused. The machine code stands in the loads: the
// program at 0100, the handler at 0200, and its vector at 8.
pub const RUNS_AND_RINGS: [Case; 26] = [
    ("a run of no steps", b"GO\x00\x01\x00\x04RU\x00\x00"),
    (
        "all steps done",
        b"LD\x00\x01\x03`\xA8\x12GO\x00\x01\x00\x04RU\x02\x00",
    ),
    (
        "more steps than a byte counts: JMP to itself",
        b"LD\x00\x01\x02\xF0\xFEGO\x00\x01\x00\x04RU\xE8\x03",
    ),
    (
        "R 4: no byte at the program counter",
        b"GO\x00\x90\x00\x04RU\x03\x00",
    ),
    (
        "R 4: an operand where no byte is",
        b"LD\x00\x01\x04`\xB0\x00\x90GO\x00\x01\x00\x04RU\x03\x00",
    ),
    (
        "R 6: a store to a guarded address",
        b"LD\x00\x01\x04`\xB2\xFF\x00GO\x00\x01\x00\x04RU\x03\x00",
    ),
    (
        "R 8: an illegal code",
        b"LD\x00\x01\x03\x99\x98\xD6GO\x00\x01\x00\x04RU\x05\x00",
    ),
    (
        "R 9: a byte that is not decimal",
        b"LD\x00\x01\x05`\xA8\x0A\x99\x88GO\x00\x01\x00\x04RU\x05\x00",
    ),
    (
        "T: an address that a handler stored to",
        b"LD\x00\x01\x04`\xB0\x00\x03LD\x08\x00\x02\x00\x02LD\x00\x02\x06\x9A\xB2\x00\x03\x9F\x9EGO\x00\x01\x00\x04RI\x08RU\x04\x00RU\x09\x00",
    ),
    (
        "M: a register that is not given back",
        b"LD\x08\x00\x02\x00\x02LD\x00\x02\x04b\xA8\x01\x9EGO\x00\x01\x00\x04RI\x08RU\x09\x00",
    ),
    (
        "M: ARP",
        b"LD\x08\x00\x02\x00\x02LD\x00\x02\x02%\x9EGO\x00\x01\x00\x04RI\x08RU\x09\x00",
    ),
    (
        "M: DRP",
        b"LD\x08\x00\x02\x00\x02LD\x00\x02\x02e\x9EGO\x00\x01\x00\x04RI\x08RU\x09\x00",
    ),
    (
        "M: the status",
        b"LD\x08\x00\x02\x00\x02LD\x00\x02\x02\x99\x9EGO\x00\x01\x00\x04RI\x08RU\x09\x00",
    ),
    (
        "M: E",
        b"LD\x08\x00\x02\x00\x02LD\x00\x02\x02\x9C\x9EGO\x00\x01\x00\x04RI\x08RU\x09\x00",
    ),
    (
        "a clean visit ends no run",
        b"LD\x00\x01\x02\xF0\xFELD\x08\x00\x02\x00\x02LD\x00\x02\x06\x9A\x99\x9C\x9B\x9F\x9EGO\x00\x01\x00\x04RI\x08RU\x14\x00",
    ),
    ("a ring at an odd vector", b"GO\x00\x01\x00\x04RI\x09"),
    (
        "a ring while a visit is open, at an even vector and at an odd one",
        b"LD\x08\x00\x02\x00\x02LD\x00\x02\x01\x9EGO\x00\x01\x00\x04RI\x08RI\x08RI\x09",
    ),
    (
        "a ring with no byte at the return pointer",
        b"GO\x00\x01\x10\x80RI\x08",
    ),
    (
        "a ring with a guarded return pointer",
        b"GO\x00\x01\xFF\x00RI\x08",
    ),
    (
        "a refused step leaves the visit open",
        b"LD\x08\x00\x02\x00\x02LD\x00\x02\x02\xD6\x9EGO\x00\x01\x00\x04RI\x08RU\x01\x00RI\x08",
    ),
    (
        "EN with a visit open",
        b"LD\x08\x00\x02\x00\x02LD\x00\x02\x01\x9EGO\x00\x01\x00\x04RI\x08EN",
    ),
    ("a run before GO", b"RU\x01\x00"),
    ("a ring before GO", b"RI\x08"),
    ("a run after EN", b"GO\x00\x01\x00\x04ENRU\x01\x00"),
    ("a run without its second byte", b"GO\x00\x01\x00\x04RU\x01"),
    ("a ring without its vector", b"GO\x00\x01\x00\x04RI"),
];

// The register bank, the representation of numbers, and the status.
use crate::case::{Bit, Case, Fact, NOTHING};

pub const BANK: [Case; 4] = [
    Case {
        name: "ADM R50,R60: a multi-byte addition of R60-R67 to R50-R57",
        registers: &[
            (0o50, &[0xFF, 0xFF, 0xFF, 0xFF, 0xFF, 0xFF, 0xFF, 0x12]),
            (0o60, &[1, 0, 0, 0, 0, 0, 0, 0]),
        ],
        code: &[0o150, 0o060, 0o303],
        steps: 3,
        facts: &[
            Fact::Registers(0o50, &[0, 0, 0, 0, 0, 0, 0, 0x13]),
            Fact::Registers(0o60, &[1, 0, 0, 0, 0, 0, 0, 0]),
        ],
        ..NOTHING
    },
    Case {
        name: "LDM R74,R11: four registers, across the boundary after R11",
        registers: &[(0o11, &[1, 2, 3, 4, 5])],
        code: &[0o174, 0o011, 0o241],
        steps: 3,
        facts: &[Fact::Registers(0o74, &[1, 2, 3, 4])],
        ..NOTHING
    },
    Case {
        name: "STM R11,R74: the boundary after R11 leaves one register",
        registers: &[(0o11, &[1, 2, 3, 4]), (0o74, &[9, 9, 9, 9])],
        code: &[0o111, 0o074, 0o243],
        steps: 3,
        facts: &[Fact::Registers(0o74, &[1, 9, 9, 9])],
        ..NOTHING
    },
    Case {
        name: "LDMD R14,=BINTAB: two bytes from memory",
        registers: &[(0o14, &[9, 9, 9])],
        memory: &[(0x8021, &[0x34, 0x12, 0x56])],
        code: &[0o114, 0o261, 0x21, 0x80],
        steps: 2,
        facts: &[Fact::Registers(0o14, &[0x34, 0x12, 9])],
        ..NOTHING
    },
];

pub const NUMBERS: [Case; 4] = [
    Case {
        name: "LDM R12,=177605: an address has its low byte in the lower register",
        code: &[0o112, 0o251, 0o205, 0o377],
        steps: 2,
        facts: &[Fact::Registers(0o12, &[0o205, 0o377])],
        ..NOTHING
    },
    Case {
        name: "ADM R12,=3738 and 1 in decimal: two digits in a byte",
        registers: &[(0o12, &[0x38, 0x37])],
        code: &[0o231, 0o112, 0o313, 0x01, 0x00],
        steps: 3,
        facts: &[Fact::Registers(0o12, &[0x39, 0x37])],
        ..NOTHING
    },
    Case {
        name: "TCB R20: the ten's complement of 19 is 81",
        registers: &[(0o20, &[0x19])],
        code: &[0o231, 0o120, 0o214],
        steps: 3,
        facts: &[Fact::Registers(0o20, &[0x81])],
        ..NOTHING
    },
    Case {
        name: "ADB R20,R30: decimal 81 added to 19 is 00",
        registers: &[(0o20, &[0x19]), (0o30, &[0x81])],
        code: &[0o231, 0o120, 0o030, 0o302],
        steps: 4,
        facts: &[Fact::Registers(0o20, &[0])],
        ..NOTHING
    },
];

pub const STATUS: [Case; 16] = [
    Case {
        name: "two positive numbers added: the carry is 0",
        registers: &[(0o20, &[0x5A]), (0o30, &[0x7F])],
        code: &[0o120, 0o030, 0o302],
        steps: 3,
        facts: &[Fact::Clear(Bit::Cy)],
        ..NOTHING
    },
    Case {
        name: "a positive and a negative number, the result negative: no carry",
        registers: &[(0o20, &[0x10]), (0o30, &[0x80])],
        code: &[0o120, 0o030, 0o302],
        steps: 3,
        facts: &[Fact::Clear(Bit::Cy), Fact::Set(Bit::Msb)],
        ..NOTHING
    },
    Case {
        name: "a positive and a negative number, the result positive: a carry",
        registers: &[(0o20, &[0x10]), (0o30, &[0xF8])],
        code: &[0o120, 0o030, 0o302],
        steps: 3,
        facts: &[Fact::Set(Bit::Cy), Fact::Clear(Bit::Msb)],
        ..NOTHING
    },
    Case {
        name: "two negative numbers added: a carry",
        registers: &[(0o20, &[0xF0]), (0o30, &[0xF8])],
        code: &[0o120, 0o030, 0o302],
        steps: 3,
        facts: &[Fact::Set(Bit::Cy)],
        ..NOTHING
    },
    Case {
        name: "a subtraction with a positive result: a carry",
        registers: &[(0o20, &[0x10]), (0o30, &[0x08])],
        code: &[0o120, 0o030, 0o304],
        steps: 3,
        facts: &[Fact::Set(Bit::Cy)],
        ..NOTHING
    },
    Case {
        name: "an increment of all ones: a carry",
        registers: &[(0o20, &[0xFF, 0xFF])],
        code: &[0o120, 0o211],
        steps: 2,
        facts: &[Fact::Set(Bit::Cy)],
        ..NOTHING
    },
    Case {
        name: "two positive numbers with a negative sum: overflow",
        registers: &[(0o20, &[0x7F]), (0o30, &[0x01])],
        code: &[0o120, 0o030, 0o302],
        steps: 3,
        facts: &[Fact::Set(Bit::Ovf)],
        ..NOTHING
    },
    Case {
        name: "two negative numbers with a positive sum: overflow",
        registers: &[(0o20, &[0x80]), (0o30, &[0x81])],
        code: &[0o120, 0o030, 0o302],
        steps: 3,
        facts: &[Fact::Set(Bit::Ovf)],
        ..NOTHING
    },
    Case {
        name: "a left shift that changes the sign: overflow",
        registers: &[(0o20, &[0x40])],
        code: &[0o120, 0o204],
        steps: 2,
        facts: &[Fact::Set(Bit::Ovf)],
        ..NOTHING
    },
    Case {
        name: "an odd number: its least significant bit",
        registers: &[(0o20, &[0x12]), (0o30, &[0x13])],
        code: &[0o120, 0o030, 0o240],
        steps: 3,
        facts: &[Fact::Set(Bit::Lsb)],
        ..NOTHING
    },
    Case {
        name: "an even number",
        registers: &[(0o20, &[0x13]), (0o30, &[0x12])],
        code: &[0o120, 0o030, 0o240],
        steps: 3,
        facts: &[Fact::Clear(Bit::Lsb)],
        ..NOTHING
    },
    Case {
        name: "a comparison of two equal numbers: zero",
        registers: &[(0o20, &[0x13]), (0o30, &[0x13])],
        code: &[0o120, 0o030, 0o300],
        steps: 3,
        facts: &[Fact::Set(Bit::Z)],
        ..NOTHING
    },
    Case {
        name: "the left digit zero",
        registers: &[(0o30, &[0x03])],
        code: &[0o120, 0o030, 0o240],
        steps: 3,
        facts: &[Fact::Set(Bit::Ldz), Fact::Clear(Bit::Rdz)],
        ..NOTHING
    },
    Case {
        name: "the right digit zero",
        registers: &[(0o30, &[0x30])],
        code: &[0o120, 0o030, 0o240],
        steps: 3,
        facts: &[Fact::Clear(Bit::Ldz), Fact::Set(Bit::Rdz)],
        ..NOTHING
    },
    Case {
        name: "of several bytes the first says odd and right digit zero, the last the others",
        registers: &[(0o20, &[0x30, 0x81])],
        code: &[0o120, 0o221],
        steps: 2,
        facts: &[
            Fact::Clear(Bit::Lsb),
            Fact::Set(Bit::Rdz),
            Fact::Set(Bit::Msb),
            Fact::Clear(Bit::Ldz),
            Fact::Clear(Bit::Z),
        ],
        ..NOTHING
    },
    Case {
        name: "OFFSET plus VARIABLE: 10001000 00111000 plus 00000000 11110101",
        registers: &[
            (0o20, &[0b0011_1000, 0b1000_1000]),
            (0o30, &[0b1111_0101, 0b0000_0000]),
        ],
        code: &[0o120, 0o030, 0o303],
        steps: 3,
        facts: &[
            Fact::Registers(0o20, &[0b0010_1101, 0b1000_1001]),
            Fact::Clear(Bit::Dcm),
            Fact::E(0),
            Fact::Clear(Bit::Cy),
            Fact::Clear(Bit::Ovf),
            Fact::Set(Bit::Msb),
            Fact::Set(Bit::Lsb),
            Fact::Clear(Bit::Ldz),
            Fact::Clear(Bit::Rdz),
            Fact::Clear(Bit::Z),
        ],
        ..NOTHING
    },
];

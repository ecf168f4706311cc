// Arithmetic, logic, shifts and tests.
use crate::case::{Bit, Case, Fact, NOTHING};

pub const OPERATIONS: [Case; 24] = [
    Case {
        name: "ADB R20,R30: R30 is added to R20",
        registers: &[(0o20, &[0x12, 0x34]), (0o30, &[0x56, 0x78])],
        code: &[0o120, 0o030, 0o302],
        steps: 3,
        facts: &[
            Fact::Registers(0o20, &[0x68, 0x34]),
            Fact::Registers(0o30, &[0x56, 0x78]),
        ],
        ..NOTHING
    },
    Case {
        name: "ADMD R20,=BINTAB: the contents of BINTAB are added to R20-R21",
        registers: &[(0o20, &[0xF0, 0x12])],
        memory: &[(0x8021, &[0x20, 0x56])],
        code: &[0o120, 0o323, 0x21, 0x80],
        steps: 2,
        facts: &[Fact::Registers(0o20, &[0x10, 0x69])],
        ..NOTHING
    },
    Case {
        name: "ANM R20,R30: 11011011 00101100 and 01000111 00001011",
        registers: &[
            (0o20, &[0b0010_1100, 0b1101_1011]),
            (0o30, &[0b0000_1011, 0b0100_0111]),
        ],
        code: &[0o120, 0o030, 0o307],
        steps: 3,
        facts: &[Fact::Registers(0o20, &[0b0000_1000, 0b0100_0011])],
        ..NOTHING
    },
    Case {
        name: "CMM DR,AR with DR below AR: CY is 0",
        registers: &[(0o20, &[0x34, 0x12]), (0o30, &[0x35, 0x12])],
        code: &[0o120, 0o030, 0o301],
        steps: 3,
        facts: &[
            Fact::Clear(Bit::Cy),
            Fact::Clear(Bit::Z),
            Fact::Registers(0o20, &[0x34, 0x12]),
        ],
        ..NOTHING
    },
    Case {
        name: "CMM DR,AR with DR above AR: CY is 1",
        registers: &[(0o20, &[0x35, 0x12]), (0o30, &[0x34, 0x12])],
        code: &[0o120, 0o030, 0o301],
        steps: 3,
        facts: &[Fact::Set(Bit::Cy), Fact::Clear(Bit::Z)],
        ..NOTHING
    },
    Case {
        name: "CMM DR,AR with DR equal to AR: CY and ZR are 1",
        registers: &[(0o20, &[0x34, 0x12]), (0o30, &[0x34, 0x12])],
        code: &[0o120, 0o030, 0o301],
        steps: 3,
        facts: &[Fact::Set(Bit::Cy), Fact::Set(Bit::Z)],
        ..NOTHING
    },
    Case {
        name: "ORB R20,R30: 00101100 or 00001011",
        registers: &[(0o20, &[0b0010_1100]), (0o30, &[0b0000_1011])],
        code: &[0o120, 0o030, 0o224],
        steps: 3,
        facts: &[Fact::Registers(0o20, &[0b0010_1111])],
        ..NOTHING
    },
    Case {
        name: "SBB DR,AR: the carry says that the result is positive",
        registers: &[(0o20, &[0x35]), (0o30, &[0x12])],
        code: &[0o120, 0o030, 0o304],
        steps: 3,
        facts: &[Fact::Registers(0o20, &[0x23]), Fact::Set(Bit::Cy)],
        ..NOTHING
    },
    Case {
        name: "SBB DR,AR: and cleared, that it is negative",
        registers: &[(0o20, &[0x12]), (0o30, &[0x35])],
        code: &[0o120, 0o030, 0o304],
        steps: 3,
        facts: &[Fact::Registers(0o20, &[0xDD]), Fact::Clear(Bit::Cy)],
        ..NOTHING
    },
    Case {
        name: "XRB DR,AR: 1 where the bits are not the same; CY and OVF cleared",
        registers: &[(0o20, &[0b1101_1011]), (0o30, &[0b0100_0111])],
        code: &[0o120, 0o030, 0o226],
        steps: 3,
        facts: &[
            Fact::Registers(0o20, &[0b1001_1100]),
            Fact::Clear(Bit::Cy),
            Fact::Clear(Bit::Ovf),
        ],
        ..NOTHING
    },
    Case {
        name: "ELM R20 in decimal: 1000 goes to E, and E, 0001, comes in",
        registers: &[(0o20, &[0x34, 0x82])],
        code: &[0o231, 0o234, 0o120, 0o201],
        steps: 4,
        facts: &[Fact::Registers(0o20, &[0x41, 0x23]), Fact::E(0b1000)],
        ..NOTHING
    },
    Case {
        name: "ERB R21 in binary: 11011011 with CY 1",
        registers: &[(0o20, &[0, 0b1101_1011])],
        code: &[0o100, 0o250, 0o377, 0o210, 0o121, 0o202],
        steps: 5,
        facts: &[Fact::Registers(0o20, &[0, 0b1110_1101]), Fact::Set(Bit::Cy)],
        ..NOTHING
    },
    Case {
        name: "LRB DR in binary: the lowest bit to CY, the highest cleared",
        registers: &[(0o20, &[0b1101_1011])],
        code: &[0o120, 0o206],
        steps: 2,
        facts: &[Fact::Registers(0o20, &[0b0110_1101]), Fact::Set(Bit::Cy)],
        ..NOTHING
    },
    Case {
        name: "LRB and ELB in decimal: the digit is kept in E, and goes back",
        registers: &[(0o20, &[0x47])],
        code: &[0o231, 0o120, 0o206, 0o200],
        steps: 4,
        facts: &[Fact::Registers(0o20, &[0x47]), Fact::E(0)],
        ..NOTHING
    },
    Case {
        name: "LLB DR in binary: the highest bit to CY, the lowest cleared; the sign changes",
        registers: &[(0o20, &[0b1011_0111])],
        code: &[0o120, 0o204],
        steps: 2,
        facts: &[
            Fact::Registers(0o20, &[0b0110_1110]),
            Fact::Set(Bit::Cy),
            Fact::Set(Bit::Ovf),
        ],
        ..NOTHING
    },
    Case {
        name: "DCB R31: 10000000 becomes 01111111, and OVF is set",
        registers: &[(0o31, &[0b1000_0000])],
        code: &[0o131, 0o212],
        steps: 2,
        facts: &[Fact::Registers(0o31, &[0b0111_1111]), Fact::Set(Bit::Ovf)],
        ..NOTHING
    },
    Case {
        name: "ICM R20 in decimal: 9925 becomes 9926, and OVF is cleared",
        registers: &[(0o20, &[0x25, 0x99])],
        code: &[0o231, 0o120, 0o211],
        steps: 3,
        facts: &[Fact::Registers(0o20, &[0x26, 0x99]), Fact::Clear(Bit::Ovf)],
        ..NOTHING
    },
    Case {
        name: "NCB R20 in binary: 01000111 becomes 10111000",
        registers: &[(0o20, &[0b0100_0111])],
        code: &[0o120, 0o216],
        steps: 2,
        facts: &[Fact::Registers(0o20, &[0b1011_1000])],
        ..NOTHING
    },
    Case {
        name: "NCM R20 in decimal: each digit from 9",
        registers: &[(0o20, &[0x47, 0x09])],
        code: &[0o231, 0o120, 0o217],
        steps: 3,
        facts: &[Fact::Registers(0o20, &[0x52, 0x90])],
        ..NOTHING
    },
    Case {
        name: "TCM DR in binary: the one's complement, incremented",
        registers: &[(0o20, &[0x00, 0x47])],
        code: &[0o120, 0o215],
        steps: 2,
        facts: &[Fact::Registers(0o20, &[0x00, 0xB9])],
        ..NOTHING
    },
    Case {
        name: "TCM DR in decimal: the nine's complement, incremented; OVF is cleared",
        registers: &[(0o20, &[0x00, 0x47])],
        code: &[0o231, 0o120, 0o215],
        steps: 3,
        facts: &[Fact::Registers(0o20, &[0x00, 0x53]), Fact::Clear(Bit::Ovf)],
        ..NOTHING
    },
    Case {
        name: "TSM R20: CY and OVF cleared, odd, positive, not zero, no digit zero",
        registers: &[(0o20, &[0x35, 0x12])],
        code: &[0o231, 0o234, 0o120, 0o221],
        steps: 4,
        facts: &[
            Fact::Registers(0o20, &[0x35, 0x12]),
            Fact::Set(Bit::Dcm),
            Fact::E(1),
            Fact::Clear(Bit::Cy),
            Fact::Clear(Bit::Ovf),
            Fact::Set(Bit::Lsb),
            Fact::Clear(Bit::Msb),
            Fact::Clear(Bit::Z),
            Fact::Clear(Bit::Ldz),
            Fact::Clear(Bit::Rdz),
        ],
        ..NOTHING
    },
    Case {
        name: "CLB R47: R47 is cleared",
        registers: &[(0o46, &[5, 6])],
        code: &[0o147, 0o222],
        steps: 2,
        facts: &[
            Fact::Registers(0o46, &[5, 0]),
            Fact::Clear(Bit::Cy),
            Fact::Clear(Bit::Ovf),
        ],
        ..NOTHING
    },
    Case {
        name: "CLM DR: all registers up to the boundary",
        registers: &[(0o44, &[1, 2, 3, 4, 5])],
        code: &[0o144, 0o223],
        steps: 2,
        facts: &[Fact::Registers(0o44, &[0, 0, 0, 0, 5]), Fact::Set(Bit::Z)],
        ..NOTHING
    },
];

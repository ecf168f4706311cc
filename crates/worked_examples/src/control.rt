// Subroutines, jumps, and the instructions without an operand. ROUTINE is 1010 hexadecimal, NUMVA+ 22403 octal as in the manual.
use crate::case::{Bit, Case, Fact, NOTHING};

pub const SUBROUTINES: [Case; 4] = [
    Case {
        name: "JSB =NUMVA+: to 22403, with the next instruction's address on the stack",
        code: &[0o316, 0o003, 0o045],
        steps: 1,
        facts: &[
            Fact::Pc(0o22403),
            Fact::Memory(0x0400, &[0x03, 0x10, 0]),
            Fact::Registers(0o6, &[0x02, 0x04]),
        ],
        ..NOTHING
    },
    Case {
        name: "JSB X14,ROUTINE: to ROUTINE plus R14-R15",
        registers: &[(0o14, &[0x05, 0x20])],
        code: &[0o014, 0o306, 0x10, 0x10],
        steps: 2,
        facts: &[
            Fact::Pc(0x3015),
            Fact::Registers(0o2, &[0x15, 0x30]),
            Fact::Memory(0x0400, &[0x04, 0x10, 0]),
            Fact::Registers(0o6, &[0x02, 0x04]),
        ],
        ..NOTHING
    },
    Case {
        name: "JSB =NUMVA+ and RTN: back to the next instruction",
        memory: &[(0o22403, &[0o236])],
        code: &[0o316, 0o003, 0o045],
        steps: 2,
        facts: &[Fact::Pc(0x1003), Fact::Registers(0o6, &[0x00, 0x04])],
        ..NOTHING
    },
    Case {
        name: "SAD, and PAD: ARP, DRP and status are restored, E is not",
        registers: &[(0o20, &[0xFF])],
        code: &[
            0o231, 0o032, 0o120, 0o221, 0o232, 0o234, 0o230, 0o001, 0o122, 0o222, 0o237,
        ],
        steps: 11,
        facts: &[
            Fact::Arp(0o32),
            Fact::Drp(0o20),
            Fact::Set(Bit::Dcm),
            Fact::Set(Bit::Lsb),
            Fact::Clear(Bit::Z),
            Fact::E(1),
            Fact::Registers(0o6, &[0x00, 0x04]),
        ],
        ..NOTHING
    },
];

pub const JUMPS: [Case; 24] = [
    Case {
        name: "JMP: 177 bytes forward at most",
        code: &[0o360, 0o177],
        steps: 1,
        facts: &[Fact::Pc(0x1081)],
        ..NOTHING
    },
    Case {
        name: "JMP: 200 bytes backward at most",
        code: &[0o360, 0o200],
        steps: 1,
        facts: &[Fact::Pc(0x0F82)],
        ..NOTHING
    },
    Case {
        name: "ADM R20,R30; JNO RESUME; ICE; RESUME BIN without an overflow",
        registers: &[(0o20, &[0xFF, 0x12]), (0o30, &[0x01, 0x00])],
        code: &[0o120, 0o030, 0o303, 0o361, 1, 0o234, 0o230],
        steps: 5,
        facts: &[Fact::Pc(0x1007), Fact::E(0)],
        ..NOTHING
    },
    Case {
        name: "the same with an overflow: E is incremented",
        registers: &[(0o20, &[0xFF, 0x7F]), (0o30, &[0x01, 0x00])],
        code: &[0o120, 0o030, 0o303, 0o361, 1, 0o234, 0o230],
        steps: 6,
        facts: &[Fact::Pc(0x1007), Fact::E(1)],
        ..NOTHING
    },
    Case {
        name: "JNG after a negative number, without an overflow: jumps",
        registers: &[(0o20, &[0x80])],
        code: &[0o120, 0o220, 0o364, 0o20],
        steps: 3,
        facts: &[Fact::Pc(0x1014)],
        ..NOTHING
    },
    Case {
        name: "JPS after it: does not",
        registers: &[(0o20, &[0x80])],
        code: &[0o120, 0o220, 0o365, 0o20],
        steps: 3,
        facts: &[Fact::Pc(0x1004)],
        ..NOTHING
    },
    Case {
        name: "JPS after two positive numbers with a negative sum: jumps",
        registers: &[(0o20, &[0x7F]), (0o30, &[0x01])],
        code: &[0o120, 0o030, 0o302, 0o365, 0o20],
        steps: 4,
        facts: &[Fact::Pc(0x1015)],
        ..NOTHING
    },
    Case {
        name: "TSM R36; JEV NOTPRIME with an even number: jumps",
        registers: &[(0o36, &[0x12, 0x35])],
        code: &[0o136, 0o221, 0o363, 0o20],
        steps: 3,
        facts: &[Fact::Pc(0x1014)],
        ..NOTHING
    },
    Case {
        name: "TSM R36; JEV NOTPRIME with an odd number: does not",
        registers: &[(0o36, &[0x35, 0x12])],
        code: &[0o136, 0o221, 0o363, 0o20],
        steps: 3,
        facts: &[Fact::Pc(0x1004)],
        ..NOTHING
    },
    Case {
        name: "TSM R36; JOD with an odd number: jumps",
        registers: &[(0o36, &[0x35, 0x12])],
        code: &[0o136, 0o221, 0o362, 0o20],
        steps: 3,
        facts: &[Fact::Pc(0x1014)],
        ..NOTHING
    },
    Case {
        name: "CMB R20,=120; JZR RESUME with 120 in R20: jumps",
        registers: &[(0o20, &[0o120])],
        code: &[0o120, 0o310, 0o120, 0o367, 0o20],
        steps: 3,
        facts: &[Fact::Pc(0x1015), Fact::Set(Bit::Z)],
        ..NOTHING
    },
    Case {
        name: "CMB R20,=120; JZR RESUME with 121 in R20: does not",
        registers: &[(0o20, &[0o121])],
        code: &[0o120, 0o310, 0o120, 0o367, 0o20],
        steps: 3,
        facts: &[Fact::Pc(0x1005)],
        ..NOTHING
    },
    Case {
        name: "LOOP DCB R20; JNZ LOOP with 20 in R20: twenty times",
        registers: &[(0o20, &[20])],
        code: &[0o120, 0o212, 0o366, 0o374],
        steps: 60,
        facts: &[Fact::Pc(0x1004), Fact::Registers(0o20, &[0])],
        ..NOTHING
    },
    Case {
        name: "LOOP DCB R20; JNZ LOOP: and no more often",
        registers: &[(0o20, &[20])],
        code: &[0o120, 0o212, 0o366, 0o374],
        steps: 57,
        facts: &[Fact::Pc(0x1000), Fact::Registers(0o20, &[1])],
        ..NOTHING
    },
    Case {
        name: "CMB R20,R30; JCY RESUME with R20 above R30: jumps",
        registers: &[(0o20, &[5]), (0o30, &[4])],
        code: &[0o120, 0o030, 0o300, 0o373, 0o20],
        steps: 4,
        facts: &[Fact::Pc(0x1015)],
        ..NOTHING
    },
    Case {
        name: "CMB R20,R30; JCY RESUME with R20 below R30: does not",
        registers: &[(0o20, &[4]), (0o30, &[5])],
        code: &[0o120, 0o030, 0o300, 0o373, 0o20],
        steps: 4,
        facts: &[Fact::Pc(0x1005)],
        ..NOTHING
    },
    Case {
        name: "CMM DR,AR; JNC LABEL with DR below AR: jumps",
        registers: &[(0o20, &[4, 1]), (0o30, &[5, 1])],
        code: &[0o120, 0o030, 0o301, 0o372, 0o20],
        steps: 4,
        facts: &[Fact::Pc(0x1015)],
        ..NOTHING
    },
    Case {
        name: "JEZ with E zero: jumps",
        code: &[0o235, 0o371, 0o20],
        steps: 2,
        facts: &[Fact::Pc(0x1013)],
        ..NOTHING
    },
    Case {
        name: "JEZ with E not zero: does not",
        code: &[0o234, 0o371, 0o20],
        steps: 2,
        facts: &[Fact::Pc(0x1003)],
        ..NOTHING
    },
    Case {
        name: "JEN with E not zero: jumps",
        code: &[0o234, 0o370, 0o20],
        steps: 2,
        facts: &[Fact::Pc(0x1013)],
        ..NOTHING
    },
    Case {
        name: "TSB R20; JLZ TRUE with 011 in R20: jumps",
        registers: &[(0o20, &[0o011])],
        code: &[0o120, 0o220, 0o374, 0o20],
        steps: 3,
        facts: &[Fact::Pc(0x1014)],
        ..NOTHING
    },
    Case {
        name: "TSB R20; JLN TRUE with 011 in R20: does not",
        registers: &[(0o20, &[0o011])],
        code: &[0o120, 0o220, 0o375, 0o20],
        steps: 3,
        facts: &[Fact::Pc(0x1004)],
        ..NOTHING
    },
    Case {
        name: "TSB R20; JRZ TRUE with 011 in R20: does not",
        registers: &[(0o20, &[0o011])],
        code: &[0o120, 0o220, 0o376, 0o20],
        steps: 3,
        facts: &[Fact::Pc(0x1004)],
        ..NOTHING
    },
    Case {
        name: "TSB R20; JRN TRUE with 011 in R20: jumps",
        registers: &[(0o20, &[0o011])],
        code: &[0o120, 0o220, 0o377, 0o20],
        steps: 3,
        facts: &[Fact::Pc(0x1014)],
        ..NOTHING
    },
];

pub const OTHERS: [Case; 8] = [
    Case {
        name: "BCD: decimal mode",
        code: &[0o231],
        steps: 1,
        facts: &[Fact::Set(Bit::Dcm)],
        ..NOTHING
    },
    Case {
        name: "BIN: binary mode",
        code: &[0o231, 0o230],
        steps: 2,
        facts: &[Fact::Clear(Bit::Dcm)],
        ..NOTHING
    },
    Case {
        name: "ICE: E is incremented",
        code: &[0o234, 0o234],
        steps: 2,
        facts: &[Fact::E(2)],
        ..NOTHING
    },
    Case {
        name: "DCE: E is decremented, in binary whatever the mode",
        code: &[0o231, 0o233, 0o233, 0o233, 0o233, 0o233, 0o233],
        steps: 7,
        facts: &[Fact::E(10)],
        ..NOTHING
    },
    Case {
        name: "CLE: E is set to 0",
        code: &[0o233, 0o235],
        steps: 2,
        facts: &[Fact::E(0)],
        ..NOTHING
    },
    Case {
        name: "ARP and DRP: the pointers are set",
        code: &[0o006, 0o110],
        steps: 2,
        facts: &[Fact::Arp(0o6), Fact::Drp(0o10)],
        ..NOTHING
    },
    Case {
        name: "ARP * and DRP *: to the low six bits of R0",
        registers: &[(0, &[0o326])],
        code: &[0o001, 0o101],
        steps: 2,
        facts: &[Fact::Arp(0o26), Fact::Drp(0o26)],
        ..NOTHING
    },
    Case {
        name: "SAD: three bytes onto the stack, whose pointer is incremented by three",
        code: &[0o032, 0o120, 0o232],
        steps: 3,
        facts: &[
            Fact::Registers(0o6, &[0x03, 0x04]),
            Fact::Arp(0o32),
            Fact::Drp(0o20),
        ],
        ..NOTHING
    },
];

// Loads and stores, and stacks. The manual gives no address for most labels: LABEL, TABLE, OFFST, ADDR and ADDRS are 2010 here,
// ROMFL is 8030 and BINTAB 8021, hexadecimal; CHIDLE is at the manual's address, 103670 octal.
use crate::case::{Case, Fact, NOTHING};

pub const LOADS: [Case; 10] = [
    Case {
        name: "LDB R36,R32",
        registers: &[(0o32, &[5, 6])],
        code: &[0o136, 0o032, 0o240],
        steps: 3,
        facts: &[Fact::Registers(0o36, &[5, 0])],
        ..NOTHING
    },
    Case {
        name: "LDBD R36,R32: from the address in R32-R33",
        registers: &[(0o32, &[0x10, 0x20])],
        memory: &[(0x2010, &[5, 6])],
        code: &[0o136, 0o032, 0o244],
        steps: 3,
        facts: &[Fact::Registers(0o36, &[5, 0])],
        ..NOTHING
    },
    Case {
        name: "LDBI R36,R32: R32 contains 105731, that location 110437, whose contents are loaded",
        registers: &[(0o32, &[0o331, 0o213])],
        memory: &[(0o105731, &[0o037, 0o221]), (0o110437, &[5, 6])],
        code: &[0o136, 0o032, 0o254],
        steps: 3,
        facts: &[Fact::Registers(0o36, &[5, 0])],
        ..NOTHING
    },
    Case {
        name: "LDB R36,=10D: loads 12 octal",
        code: &[0o136, 0o250, 10],
        steps: 2,
        facts: &[Fact::Registers(0o36, &[0o12])],
        ..NOTHING
    },
    Case {
        name: "LDM R40,=0,0,0,0,0,0,0,120: eight bytes",
        registers: &[(0o40, &[1, 2, 3, 4, 5, 6, 7, 8])],
        code: &[0o140, 0o251, 0, 0, 0, 0, 0, 0, 0, 0o120],
        steps: 2,
        facts: &[Fact::Registers(0o40, &[0, 0, 0, 0, 0, 0, 0, 0o120])],
        ..NOTHING
    },
    Case {
        name: "LDM R32,=LABEL: the address itself",
        code: &[0o132, 0o251, 0x10, 0x20],
        steps: 2,
        facts: &[Fact::Registers(0o32, &[0x10, 0x20])],
        ..NOTHING
    },
    Case {
        name: "LDBD R34,=ROMFL: the contents of the address",
        memory: &[(0x8030, &[3, 4])],
        code: &[0o134, 0o260, 0x30, 0x80],
        steps: 2,
        facts: &[Fact::Registers(0o34, &[3, 0])],
        ..NOTHING
    },
    Case {
        name: "LDMI R32,=ADDRS: the contents of the address that stands at the label",
        memory: &[(0x2010, &[0x20, 0x30]), (0x3020, &[5, 6, 7])],
        code: &[0o132, 0o271, 0x10, 0x20],
        steps: 2,
        facts: &[Fact::Registers(0o32, &[5, 6, 0])],
        ..NOTHING
    },
    Case {
        name: "LDBD R36,X30,TABLE: R2-R3 is the sum of R30-R31 and TABLE",
        registers: &[(0o30, &[0x05, 0x10])],
        memory: &[(0x3015, &[5, 6])],
        code: &[0o136, 0o030, 0o264, 0x10, 0x20],
        steps: 3,
        facts: &[
            Fact::Registers(0o36, &[5, 0]),
            Fact::Registers(0o2, &[0x15, 0x30]),
            Fact::Registers(0o30, &[0x05, 0x10]),
        ],
        ..NOTHING
    },
    Case {
        name: "LDBI R36,X32,TABLE: the contents of the address that stands at the sum",
        registers: &[(0o32, &[0x05, 0x10])],
        memory: &[(0x3015, &[0x20, 0x40]), (0x4020, &[5, 6])],
        code: &[0o136, 0o032, 0o274, 0x10, 0x20],
        steps: 3,
        facts: &[
            Fact::Registers(0o36, &[5, 0]),
            Fact::Registers(0o2, &[0x15, 0x30]),
        ],
        ..NOTHING
    },
];

pub const STORES: [Case; 9] = [
    Case {
        name: "STM R40,R50: R40-R47 into R50-R57",
        registers: &[(0o40, &[1, 2, 3, 4, 5, 6, 7, 8])],
        code: &[0o140, 0o050, 0o243],
        steps: 3,
        facts: &[
            Fact::Registers(0o50, &[1, 2, 3, 4, 5, 6, 7, 8]),
            Fact::Registers(0o40, &[1, 2, 3, 4, 5, 6, 7, 8]),
        ],
        ..NOTHING
    },
    Case {
        name: "STMD R40,R50: into memory from the address in R50-R51 on",
        registers: &[(0o40, &[1, 2, 3, 4, 5, 6, 7, 8]), (0o50, &[0x10, 0x20])],
        code: &[0o140, 0o050, 0o247],
        steps: 3,
        facts: &[
            Fact::Memory(0x2010, &[1, 2, 3, 4, 5, 6, 7, 8, 0]),
            Fact::Registers(0o50, &[0x10, 0x20]),
        ],
        ..NOTHING
    },
    Case {
        name: "STBI R36,R32: R32 contains 105731, that location 110437, where R36 is stored",
        registers: &[(0o32, &[0o331, 0o213]), (0o36, &[5, 6])],
        memory: &[(0o105731, &[0o037, 0o221])],
        code: &[0o136, 0o032, 0o256],
        steps: 3,
        facts: &[Fact::Memory(0o110437, &[5, 0])],
        ..NOTHING
    },
    Case {
        name: "STB R36,=10: the byte after the code is stored to",
        registers: &[(0o36, &[5])],
        code: &[0o136, 0o252, 0o10],
        steps: 2,
        facts: &[Fact::Memory(0x1000, &[0o136, 0o252, 5]), Fact::Pc(0x1003)],
        ..NOTHING
    },
    Case {
        name: "STMD R74,=CHIDLE: R74-R77 into four locations",
        registers: &[(0o74, &[1, 2, 3, 4])],
        code: &[0o174, 0o263, 0xB8, 0x87],
        steps: 2,
        facts: &[Fact::Memory(0o103670, &[1, 2, 3, 4, 0])],
        ..NOTHING
    },
    Case {
        name: "STBI R30,=ADDR: the location addressed by the one at ADDR",
        registers: &[(0o30, &[5, 6])],
        memory: &[(0x2010, &[0x20, 0x30])],
        code: &[0o130, 0o272, 0x10, 0x20],
        steps: 2,
        facts: &[Fact::Memory(0x3020, &[5, 0])],
        ..NOTHING
    },
    Case {
        name: "STBD R36,X30,TABLE",
        registers: &[(0o30, &[0x05, 0x10]), (0o36, &[5, 6])],
        code: &[0o136, 0o030, 0o266, 0x10, 0x20],
        steps: 3,
        facts: &[
            Fact::Memory(0x3015, &[5, 0]),
            Fact::Registers(0o2, &[0x15, 0x30]),
        ],
        ..NOTHING
    },
    Case {
        name: "STMI R36,X30,OFFST: R36 and R37 to the location addressed by the one at the sum",
        registers: &[(0o30, &[0x05, 0x10]), (0o36, &[5, 6])],
        memory: &[(0x3015, &[0x20, 0x40])],
        code: &[0o136, 0o030, 0o277, 0x10, 0x20],
        steps: 3,
        facts: &[
            Fact::Memory(0x4020, &[5, 6, 0]),
            Fact::Registers(0o2, &[0x15, 0x30]),
        ],
        ..NOTHING
    },
    Case {
        name: "LDB R0,=26; LDB R*,R30; STB R40,R*: R0 says that it is R26",
        registers: &[(0o30, &[5]), (0o40, &[7])],
        code: &[0o100, 0o250, 0o26, 0o101, 0o030, 0o240, 0o140, 0o001, 0o242],
        steps: 8,
        facts: &[
            Fact::Registers(0o26, &[7]),
            Fact::Arp(0o26),
            Fact::Drp(0o40),
        ],
        ..NOTHING
    },
];

pub const STACKS: [Case; 17] = [
    Case {
        name: "PUBD R32,+R12: the stack pointer is incremented",
        registers: &[(0o12, &[0x10, 0x20]), (0o32, &[5])],
        code: &[0o132, 0o012, 0o344],
        steps: 3,
        facts: &[
            Fact::Memory(0x2010, &[5, 0]),
            Fact::Registers(0o12, &[0x11, 0x20]),
        ],
        ..NOTHING
    },
    Case {
        name: "PUMD DR,+AR: the pointer is incremented by the number of bytes stored",
        registers: &[(0o12, &[0x10, 0x20]), (0o44, &[5, 6, 7, 8])],
        code: &[0o144, 0o012, 0o345],
        steps: 3,
        facts: &[
            Fact::Memory(0x2010, &[5, 6, 7, 8, 0]),
            Fact::Registers(0o12, &[0x14, 0x20]),
        ],
        ..NOTHING
    },
    Case {
        name: "POBD DR,-AR: the pointer is decremented first",
        registers: &[(0o12, &[0x11, 0x20])],
        memory: &[(0x2010, &[5, 6])],
        code: &[0o132, 0o012, 0o342],
        steps: 3,
        facts: &[
            Fact::Registers(0o32, &[5]),
            Fact::Registers(0o12, &[0x10, 0x20]),
        ],
        ..NOTHING
    },
    Case {
        name: "POMD DR,-AR: by the number of bytes to be popped",
        registers: &[(0o12, &[0x14, 0x20])],
        memory: &[(0x2010, &[5, 6, 7, 8, 9])],
        code: &[0o144, 0o012, 0o343],
        steps: 3,
        facts: &[
            Fact::Registers(0o44, &[5, 6, 7, 8]),
            Fact::Registers(0o12, &[0x10, 0x20]),
        ],
        ..NOTHING
    },
    Case {
        name: "PUBD DR,-AR: a decreasing stack, decremented first",
        registers: &[(0o12, &[0x11, 0x20]), (0o32, &[5])],
        code: &[0o132, 0o012, 0o346],
        steps: 3,
        facts: &[
            Fact::Memory(0x2010, &[5, 0]),
            Fact::Registers(0o12, &[0x10, 0x20]),
        ],
        ..NOTHING
    },
    Case {
        name: "PUMD DR,-AR",
        registers: &[(0o12, &[0x14, 0x20]), (0o44, &[5, 6, 7, 8])],
        code: &[0o144, 0o012, 0o347],
        steps: 3,
        facts: &[
            Fact::Memory(0x2010, &[5, 6, 7, 8, 0]),
            Fact::Registers(0o12, &[0x10, 0x20]),
        ],
        ..NOTHING
    },
    Case {
        name: "POBD R32,+R20: the pointer is incremented after the operation",
        registers: &[(0o20, &[0x10, 0x20])],
        memory: &[(0x2010, &[5, 6])],
        code: &[0o132, 0o020, 0o340],
        steps: 3,
        facts: &[
            Fact::Registers(0o32, &[5]),
            Fact::Registers(0o20, &[0x11, 0x20]),
        ],
        ..NOTHING
    },
    Case {
        name: "POBD R32,-R20: the pointer is decremented, and then R32 is loaded",
        registers: &[(0o20, &[0x10, 0x20])],
        memory: &[(0x200F, &[5, 6])],
        code: &[0o132, 0o020, 0o342],
        steps: 3,
        facts: &[
            Fact::Registers(0o32, &[5]),
            Fact::Registers(0o20, &[0x0F, 0x20]),
        ],
        ..NOTHING
    },
    Case {
        name: "POMD DR,+AR",
        registers: &[(0o12, &[0x10, 0x20])],
        memory: &[(0x2010, &[5, 6, 7, 8, 9])],
        code: &[0o144, 0o012, 0o341],
        steps: 3,
        facts: &[
            Fact::Registers(0o44, &[5, 6, 7, 8]),
            Fact::Registers(0o12, &[0x14, 0x20]),
        ],
        ..NOTHING
    },
    Case {
        name: "PUBI R32,-R46: decremented first, and then R32 is pushed",
        registers: &[(0o46, &[0x12, 0x20]), (0o32, &[5])],
        memory: &[(0x2010, &[0x20, 0x30])],
        code: &[0o132, 0o046, 0o356],
        steps: 3,
        facts: &[
            Fact::Memory(0x3020, &[5, 0]),
            Fact::Registers(0o46, &[0x10, 0x20]),
        ],
        ..NOTHING
    },
    Case {
        name: "PUBI DR,+AR: indirect, the pointer is incremented by two",
        registers: &[(0o12, &[0x10, 0x20]), (0o32, &[5])],
        memory: &[(0x2010, &[0x20, 0x30])],
        code: &[0o132, 0o012, 0o354],
        steps: 3,
        facts: &[
            Fact::Memory(0x3020, &[5, 0]),
            Fact::Registers(0o12, &[0x12, 0x20]),
        ],
        ..NOTHING
    },
    Case {
        name: "PUMI DR,+AR: by two, whatever the number of bytes",
        registers: &[(0o12, &[0x10, 0x20]), (0o44, &[5, 6, 7, 8])],
        memory: &[(0x2010, &[0x20, 0x30])],
        code: &[0o144, 0o012, 0o355],
        steps: 3,
        facts: &[
            Fact::Memory(0x3020, &[5, 6, 7, 8, 0]),
            Fact::Registers(0o12, &[0x12, 0x20]),
        ],
        ..NOTHING
    },
    Case {
        name: "POBI DR,-AR: decremented by two, to point to the effective address",
        registers: &[(0o12, &[0x12, 0x20])],
        memory: &[(0x2010, &[0x20, 0x30]), (0x3020, &[5, 6])],
        code: &[0o132, 0o012, 0o352],
        steps: 3,
        facts: &[
            Fact::Registers(0o32, &[5]),
            Fact::Registers(0o12, &[0x10, 0x20]),
        ],
        ..NOTHING
    },
    Case {
        name: "POMI DR,-AR",
        registers: &[(0o12, &[0x12, 0x20])],
        memory: &[(0x2010, &[0x20, 0x30]), (0x3020, &[5, 6, 7, 8, 9])],
        code: &[0o144, 0o012, 0o353],
        steps: 3,
        facts: &[
            Fact::Registers(0o44, &[5, 6, 7, 8]),
            Fact::Registers(0o12, &[0x10, 0x20]),
        ],
        ..NOTHING
    },
    Case {
        name: "PUMI DR,-AR",
        registers: &[(0o12, &[0x12, 0x20]), (0o44, &[5, 6, 7, 8])],
        memory: &[(0x2010, &[0x20, 0x30])],
        code: &[0o144, 0o012, 0o357],
        steps: 3,
        facts: &[
            Fact::Memory(0x3020, &[5, 6, 7, 8, 0]),
            Fact::Registers(0o12, &[0x10, 0x20]),
        ],
        ..NOTHING
    },
    Case {
        name: "POBI and POMI DR,+AR: two addresses of an ordered list",
        registers: &[(0o12, &[0x10, 0x20])],
        memory: &[
            (0x2010, &[0x20, 0x30, 0x30, 0x30]),
            (0x3020, &[5]),
            (0x3030, &[6, 7]),
        ],
        code: &[0o132, 0o012, 0o350, 0o134, 0o351],
        steps: 5,
        facts: &[
            Fact::Registers(0o32, &[5, 0, 6, 7]),
            Fact::Registers(0o12, &[0x14, 0x20]),
        ],
        ..NOTHING
    },
    Case {
        name: "LABEL POBD R10,-R6 and POBD R10,-R6: 110 006 342, and then 342 alone",
        memory: &[(0x03FE, &[5, 6])],
        code: &[0o110, 0o006, 0o342, 0o342],
        steps: 4,
        facts: &[
            Fact::Registers(0o10, &[5, 0]),
            Fact::Registers(0o6, &[0xFE, 0x03]),
        ],
        ..NOTHING
    },
];

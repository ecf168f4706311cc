// HP-87 code that loops without end. docs/speed.md lists it.

// Each program begins here, with its return stack there.
pub const START: u16 = 0x0200;

pub const STACK: u16 = 0x0400;

// The vector of the handler.
pub const VECTOR: u16 = 0x0008;

#[derive(Clone, Copy)]
pub struct Workload {
    pub name: &'static str,
    // Bytes, and where they are loaded.
    pub loads: &'static [(u16, &'static [u8])],
    // Whether a handler is rung all along.
    pub is_rung: bool,
}

pub const WORKLOADS: &[Workload] = &[
    // DRP R40, ICB, JMP to DRP.
    Workload {
        name: "bytes",
        loads: &[(START, b"\x60\x88\xF0\xFC")],
        is_rung: false,
    },
    // R50 to R57 are set. DRP R40, ARP R50, ADM of eight registers, JMP to DRP.
    Workload {
        name: "binary",
        loads: &[(
            START,
            b"\x68\xA9\x01\x02\x03\x04\x05\x06\x07\x08\x60\x28\xC3\xF0\xFB",
        )],
        is_rung: false,
    },
    // The same after BCD.
    Workload {
        name: "decimal",
        loads: &[(
            START,
            b"\x99\x68\xA9\x01\x02\x03\x04\x05\x06\x07\x08\x60\x28\xC3\xF0\xFB",
        )],
        is_rung: false,
    },
    // R12 is set to 0600. JSB, SAD, PAD, JMP to JSB; the subroutine at 0210: ARP R12, DRP R40, ICB, PUMD+, POMD-, RTN.
    Workload {
        name: "calls",
        loads: &[
            (START, b"\x4A\xA9\x00\x06\xCE\x10\x02\x9A\x9F\xF0\xF9"),
            (0x0210, b"\x0A\x60\x88\xE5\xE3\x9E"),
        ],
        is_rung: false,
    },
    // R50 to R57 and R12 are set. DRP R40, ARP R50, ADM, STMD and LDMD of 0610, JSB, ICB, JMP to DRP; the subroutine at 0240: SAD,
    // ARP R12, DRP R40, PUMD+, POMD-, PAD, RTN. The handler at 0300: SAD, BIN, DRP R42, STMD of 0700, LDBD of 0707, ICB, STBD of 0707,
    // LDMD of 0700, PAD, RTN.
    Workload {
        name: "rung",
        loads: &[
            (VECTOR, b"\x00\x03"),
            (
                START,
                b"\x68\xA9\x01\x02\x03\x04\x05\x06\x07\x08\x4A\xA9\x00\x06",
            ),
            (
                0x020E,
                b"\x60\x28\xC3\xB3\x10\x06\xB1\x10\x06\xCE\x40\x02\x88\xF0\xF1",
            ),
            (0x0240, b"\x9A\x0A\x60\xE5\xE3\x9F\x9E"),
            (
                0x0300,
                b"\x9A\x98\x62\xB3\x00\x07\xB0\x07\x07\x88\xB2\x07\x07\xB1\x00\x07\x9F\x9E",
            ),
        ],
        is_rung: true,
    },
];

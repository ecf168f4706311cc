// HP-87 code of a hotel's exchange: call setup for two rooms, and three timeout handlers. docs/hotel.md lists it.

// The program begins here, with its return stack there, and is done when it comes to a jump to itself.
pub const START: u16 = 0x0200;

pub const STACK: u16 = 0x0500;

pub const DONE: u16 = 0x020C;

// A room's entry: the line of its call, then its bill.
pub const ROOMS: [u16; 2] = [0x0410, 0x0412];

// Bytes, and where they are loaded.
pub const LOADS: [(u16, &[u8]); 6] = [
    // The handlers' vectors.
    (0x0008, b"\x00\x03\x40\x03\x80\x03"),
    // For each room, call setup as a subroutine.
    (
        START,
        b"\x60\xA8\x01\xCE\x10\x02\x60\xA8\x02\xCE\x10\x02\xF0\xFE",
    ),
    // Call setup: lock the trunk table, look for a free trunk, seize it, write its line and 5 units to the room's entry,
    // unlock.
    (
        0x0210,
        b"\x61\xB0\x06\x04\xF6\xFB\xA8\x01\xB2\x06\x04\x66\xA9\x00\x80\x26\x61\xA4\xF7\x09\x66\x89\xC9\x10\x80\xF6\xF5\xF0\x17\xA8\x10\x20\xC2\x26\xA6\x58\xA9\x0E\x04\x20\xC2\xC2\x18\x66\xE4\x61\xA4\x99\xCA\x05\x98\xA6\x61\x92\xB2\x06\x04\x9E",
    ),
    // The handler that keeps what it finds: it saves six registers beside the lock, counts the timeout, takes them back.
    (
        0x0300,
        b"\x9A\x98\x62\xB3\x00\x04\xB0\x07\x04\x88\xB2\x07\x04\xB1\x00\x04\x9F\x9E",
    ),
    // The same, but it frees the first trunk.
    (
        0x0340,
        b"\x9A\x98\x62\xB3\x00\x04\x92\xB2\x00\x80\xB1\x00\x04\x9F\x9E",
    ),
    // The same as the first, but it saves no registers.
    (0x0380, b"\x9A\x98\x62\xB0\x07\x04\x88\xB2\x07\x04\x9F\x9E"),
];

// A handler of the timeout.
#[derive(Clone, Copy, Debug)]
pub struct Handler {
    pub name: &'static str,
    pub vector: u16,
}

pub const HANDLERS: [Handler; 3] = [
    Handler {
        name: "a handler that keeps what it finds",
        vector: 0x08,
    },
    Handler {
        name: "a handler that frees the first trunk",
        vector: 0x0A,
    },
    Handler {
        name: "a handler that saves no registers",
        vector: 0x0C,
    },
];

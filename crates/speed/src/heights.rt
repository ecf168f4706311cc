// Piles of layers that refuse nothing of what the workloads store.
use bus::{LineBoard, Trunk};
use layers::{Guard, Split};

// How many buses a pile has one above another, RAM included.
pub const HEIGHTS: [u8; 3] = [1, 4, 16];

// A pile and three layers over it: a guard, a split with a line board beside the pile, and another guard.
pub type Higher<B> = Guard<Split<Guard<B>, LineBoard>>;

pub fn higher<B>(below: B) -> Higher<B> {
    Guard {
        first: 0x8000,
        last: 0x80FF,
        below: Split {
            at: 0xFF00,
            low: Guard {
                first: 0x9000,
                last: 0x90FF,
                below,
            },
            high: LineBoard::new(0xFF00, [Trunk::from(0); 16]),
        },
    }
}

// A split at 32,768: below it a guard of 0 to 255 over 32,768 bytes of RAM, from it on a line board.
ghost use Rattle.std.specs.Prelude.{◌≡◌, length};

use bus::{LineBoard, Ram};
use layers::{Guard, Split};

pub mod work;

#[derive(PartialEq, Eq, Debug, Drop)]
pub struct Memory {
    pile: Split<Guard<Ram>, LineBoard>,
    ghost split: { pile.at ≡ 32768 },
    ghost guard: { (pile.low.first ≡ 0) × (pile.low.last ≡ 255) },
    ghost ram: { (pile.low.below.base ≡ 0) × (length pile.low.below.bytes.items ≡ 32768) },
    ghost board: { pile.high.base ≡ 32768 },
}

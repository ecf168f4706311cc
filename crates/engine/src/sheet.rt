// The sheet with which an exchange begins.
ghost use Rattle.std.specs.Prelude.{◌≡◌};
ghost use Rattle.stains.specs.Marks.{blank};

use crate::live::SHEET_SIZE;

// A sheet with no stain.
#[tactic(auto, unfolding(stains::specs::Marks::blank, byte_rows::specs::Rows::zeros))]
pub fn clean_sheet() -> [u8; SHEET_SIZE]
    ensures { result ≡ blank }
{
    [0; SHEET_SIZE]
}

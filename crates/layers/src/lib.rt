// Layers over any bus: guard, split and shadow.
#![tactic(auto)]

mod guard;
mod page;
mod shadow;
mod split;

pub use guard::Guard;
pub use page::Page;
pub use shadow::Shadow;
pub use split::Split;

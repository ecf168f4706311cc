// What the instructions leave as it was, what they give back, and settings worked out by hand.
#![tactic(auto)]

mod part;
mod returned;
mod settings;

pub use part::{Part, leaves};
pub use returned::given_back;
pub use settings::{Settings, worked_settings};

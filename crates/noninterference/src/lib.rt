// What a step and a ring of an exchange answer, and, in specs/, what steps, rings and runs work out over any processor, and
// the theorem that clean interrupt handlers leave no trace in the program that they interrupt.
#![tactic(auto)]

mod answer;
mod refusal;

pub use answer::{Answer, Letter, VisitEnd};
pub use refusal::{Description, Detail, Refusal, StepFault};

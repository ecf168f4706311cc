// Codes, registers, reads of a bus, operations and instructions by example, and operations on random rows.
#![tactic(auto)]

#[cfg(test)]
mod backs;
#[cfg(test)]
mod codes;
#[cfg(test)]
mod control;
#[cfg(test)]
mod data;
#[cfg(test)]
mod digits;
#[cfg(test)]
mod fetching;
#[cfg(test)]
mod lefts;
#[cfg(test)]
mod operands;
#[cfg(test)]
mod random;
#[cfg(test)]
mod random_case;
#[cfg(test)]
mod reads;
#[cfg(test)]
mod refusals;
#[cfg(test)]
mod setup;
#[cfg(test)]
mod spans;

#[cfg(test)]
use std::fmt::Debug;
#[cfg(test)]
use std::process::Abort;

// That a value is the wanted one, in this case of a test.
#[cfg(test)]
fn same<C: Debug + Copy, T: PartialEq + Debug + Copy>(
    rt: &impl Abort,
    case: C,
    found: T,
    wanted: T,
) {
    assert_eq!(rt; found, wanted, "{case:?}");
}

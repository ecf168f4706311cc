// Buses and piles, stains, steps, rings, runs and visits by example.
#![tactic(auto)]

#[cfg(test)]
mod buses;
#[cfg(test)]
mod exchange;
#[cfg(test)]
mod faults;
#[cfg(test)]
mod marking;
#[cfg(test)]
mod rings;
#[cfg(test)]
mod runs;
#[cfg(test)]
mod sheets;
#[cfg(test)]
mod stores;
#[cfg(test)]
mod visits;

#[cfg(test)]
use std::fmt::Debug;
#[cfg(test)]
use std::process::Abort;

// That a value is the wanted one, in this case of a test.
#[cfg(test)]
fn same<C: Debug + Copy, T: PartialEq + Debug + Copy>(
    rt: &impl Abort,
    case: C,
    found: T,
    wanted: T,
) {
    assert_eq!(rt; found, wanted, "{case:?}");
}

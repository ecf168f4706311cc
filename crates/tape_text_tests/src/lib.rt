// Texts that are punched and tapes that are listed, by example.
#![tactic(auto)]

#[cfg(test)]
mod listed;
#[cfg(test)]
mod punched;

#[cfg(test)]
use std::fmt::Debug;
#[cfg(test)]
use std::process::Abort;

// That a value is the wanted one, in this case of a test.
#[cfg(test)]
fn same<C: Debug + Copy, T: PartialEq + Debug + Copy>(
    rt: &impl Abort,
    case: C,
    found: T,
    wanted: T,
) {
    assert_eq!(rt; found, wanted, "{case:?}");
}

//! Tests of calls that the program doesn't make, so that no script shows them. Nothing uses this
//! crate: it is proved while the crates that lead to the program are.
#![tactic(auto)]

#[cfg(test)]
mod definitions;
#[cfg(test)]
mod scripts;
#[cfg(test)]
mod values;

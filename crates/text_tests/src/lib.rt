//! Tests of what no call of the program reaches, in the crates that read and write text.
#![tactic(auto)]

#[cfg(test)]
mod collected;
#[cfg(test)]
mod reports;
#[cfg(test)]
mod rows;
#[cfg(test)]
mod sources;
#[cfg(test)]
mod streams;
#[cfg(test)]
mod workloads;

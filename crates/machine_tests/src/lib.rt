//! Tests of what no call of the program reaches, in the crates of the machine.
#![tactic(auto)]

mod answers;
#[cfg(test)]
mod checks;
#[cfg(test)]
mod cores;
#[cfg(test)]
mod cycles;
#[cfg(test)]
mod eager;
#[cfg(test)]
mod full;
#[cfg(test)]
mod histories;
#[cfg(test)]
mod images;
#[cfg(test)]
mod memories;
#[cfg(test)]
mod seeded;
#[cfg(test)]
mod threads;
#[cfg(test)]
mod timetables;
#[cfg(test)]
mod turns;

//! Tests of public calls, where no clause and no run of the built program says the same. They stand
//! apart from the crates that they test, since a crate with tests is proved twice.
#![tactic(auto)]

#[cfg(test)]
mod board;
#[cfg(test)]
mod commands;
#[cfg(test)]
mod cores;
#[cfg(test)]
mod emits;
#[cfg(test)]
mod examples;
#[cfg(test)]
mod faults;
#[cfg(test)]
mod gates;
#[cfg(test)]
mod inodes;
#[cfg(test)]
mod lanes;
#[cfg(test)]
mod lookups;
#[cfg(test)]
mod manifests;
#[cfg(test)]
mod names;
#[cfg(test)]
mod pool;
#[cfg(test)]
mod readers;
#[cfg(test)]
mod samples;
#[cfg(test)]
mod stacks;
#[cfg(test)]
mod thieves;
#[cfg(test)]
mod words;
#[cfg(test)]
mod works;
#[cfg(test)]
mod writers;

//! Tests that cross crates: the top call over sources and sinks in memory, networks run to their end, and that threads
//! run side by side. The worked examples are from docs/formats.md or worked out by hand, and none is what the program
//! printed.
#![tactic(auto)]

#[cfg(test)]
mod blanks;
#[cfg(test)]
mod bundles;
#[cfg(test)]
mod calls;
#[cfg(test)]
mod example;
#[cfg(test)]
mod judged;
#[cfg(test)]
mod line;
#[cfg(test)]
mod nets;
#[cfg(test)]
mod network;
#[cfg(test)]
mod reads;
#[cfg(test)]
mod refusals;
#[cfg(test)]
mod rendezvous;
#[cfg(test)]
mod sample;
#[cfg(test)]
mod solo;
#[cfg(test)]
mod watched;

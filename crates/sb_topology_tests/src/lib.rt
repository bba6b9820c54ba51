//! Tests of the loader: the first faults of many texts, and limits at their edges.
#![tactic(auto)]

#[cfg(test)]
mod example;
#[cfg(test)]
mod faults;
#[cfg(test)]
mod limits;

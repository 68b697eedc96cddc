//! Tests of a lane, with drawn events beside the same given to replicas by themselves, and of what a log
//! remembers of its entries.
#![tactic(auto)]

#[cfg(test)]
mod tests;

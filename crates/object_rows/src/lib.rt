//! Tests of the sequential object and of outputs, and of the object and of the table of sessions as bytes.
#![tactic(auto)]

#[cfg(test)]
mod tests;

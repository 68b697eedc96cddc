//! Tests of log records and of entries as bytes.
#![tactic(auto)]

#[cfg(test)]
mod tests;

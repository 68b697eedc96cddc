//! Tests of stores over disks that fail and lose power.
#![tactic(auto)]

#[cfg(test)]
mod tests;

//! Tests of runs of scripts, through the top call, that the scenarios of the crate `scenarios` cannot say:
//! faults of the source and the sink, sources and sinks that move one byte a call, texts that are long,
//! and lines without a line feed.
#![tactic(auto)]

#[cfg(test)]
mod tests;

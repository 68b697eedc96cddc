//! The world of a script: what each line does to it, the lines that are told, and what is printed where
//! a run stops.
#![tactic(auto)]

mod acting;
mod asking;
mod ending;
mod events;
mod settle;
mod turn;
mod world;

pub use ending::print_ending;
pub use world::World;

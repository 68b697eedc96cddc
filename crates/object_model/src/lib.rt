//! What a reader must believe: the sequential object, sessions, and when an output is legal. The
//! definitions stand in `specs`; the functions here compute them on small inputs, and carry laws
//! about them.
#![tactic(auto)]

mod command;
mod course;
mod laws;
mod legal;
mod mark;
mod pairs;
mod places;
mod words;

pub use command::{Change, Command, MOST_KEYS, Query, command_of, decimal, query_of, shown};
pub use laws::{
    acts_once, decides_legal, has_one_spelling, images_are_read, moves_are_legal,
    raised_is_greatest, repeats_what_acted, stands_from_front, stays_gone, stays_object,
    worked_outputs,
};
pub use legal::{entries, is_legal};
pub use mark::{Ending, Mark, Placed, What};
pub use places::{answer_after, reply_at, standing_after, verdict_at};
pub use words::{Words, is_key, is_name, is_value, number_of};

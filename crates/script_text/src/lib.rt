//! The text of a script and of its output: what each line says, which bytes it is, and what is printed.
//! Nothing here knows of replicas.
#![tactic(auto)]

mod buffer;
mod fault;
mod grammar;
mod kind;
mod limit;
mod line;
mod print;
mod refusal;
mod script;
mod told;

pub use buffer::Buffer;
pub use fault::LineFault;
pub use grammar::read_line;
pub use kind::EnvelopeKind;
pub use limit::{
    Limit, MOST_APPLIED, MOST_ENTRIES, MOST_ENVELOPES, MOST_LINE, MOST_ROUNDS, MOST_SCRIPT,
};
pub use line::Line;
pub use print::{print_line, push_line};
pub use refusal::Refusal;
pub use script::{HostEvent, ScriptLine};
pub use told::{Told, Tolds};

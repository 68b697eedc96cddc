ghost use Rattle.std.specs.Prelude.{◌≡◌, IfOk};

use crate::memory::NoMemory;
use crate::text::Text;

/// What a proposal meets as the next one after a list of others.
///
/// Source: dissertation section 6.3; `Responded` and eviction are this project's own.
#[derive(Debug, PartialEq, Eq, Drop)]
pub enum Verdict {
    /// A blank: nothing happens.
    Nothing,
    /// A command or a close of a client that has no session.
    NotStanding,
    /// A register of a client that has a session already.
    Taken,
    /// A command whose client has said that it had this series' reply.
    Responded,
    /// A command that acted before in the same session.
    RepeatOf {
        /// The reply that it got then.
        reply: Text,
    },
    /// It takes effect.
    Acts,
}

impl Verdict {
    /// Another verdict of the same contents. The only error is `NoMemory`.
    pub fn copy(&self) -> Result<Verdict, NoMemory>
        ensures { IfOk result (λ copy. copy ≡ self.now) }
    {
        match self {
            Verdict::Nothing => Ok(Verdict::Nothing),
            Verdict::NotStanding => Ok(Verdict::NotStanding),
            Verdict::Taken => Ok(Verdict::Taken),
            Verdict::Responded => Ok(Verdict::Responded),
            Verdict::RepeatOf { reply } => Ok(Verdict::RepeatOf {
                reply: reply.copy()?,
            }),
            Verdict::Acts => Ok(Verdict::Acts),
        }
    }
}

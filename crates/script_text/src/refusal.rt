ghost use Rattle.std.specs.Prelude.{◌≡◌};
ghost use Rattle.script_text.specs.Print.{refusal_number};

/// Why a line of a script is refused. The first that holds, in the order of their numbers, is the
/// answer, and then the line changes nothing. Source: this project's own.
#[derive(Clone, Copy, Debug, PartialEq, Eq)]
pub enum Refusal {
    /// 1: no host of this number was declared.
    NotDeclared,
    /// 2: there is no such group, or the host has no replica of it.
    NoReplica,
    /// 5: the context was used by a request that wasn't refused.
    ContextUsed,
    /// 6: the session's name is unknown; for `register`, it is used.
    SessionName,
    /// 7: a series is outstanding; for `again` and `completed`, none is.
    Outstanding,
    /// 9: there is no such envelope.
    NoEnvelope,
    /// 13: the host or the group was declared already.
    Declared,
    /// 14: the command is over 512 bytes.
    LongCommand,
}

impl Refusal {
    /// The number that the output shows, 1 to 14.
    pub fn number(self) -> u8
        ensures { result ≡ refusal_number self }
    {
        match self {
            Refusal::NotDeclared => 1,
            Refusal::NoReplica => 2,
            Refusal::ContextUsed => 5,
            Refusal::SessionName => 6,
            Refusal::Outstanding => 7,
            Refusal::NoEnvelope => 9,
            Refusal::Declared => 13,
            Refusal::LongCommand => 14,
        }
    }
}

ghost use Rattle.std.specs.Prelude.{◌≡◌, IfOk};

use host_ids::{NoMemory, Proposal, Text};

/// What a request asks for: that a proposal be decided, or an answer.
///
/// Source: this project's own.
#[derive(Debug, PartialEq, Eq, Drop)]
pub enum What {
    /// A proposal.
    Proposes {
        /// The proposal that was asked.
        proposal: Proposal,
    },
    /// A linearizable read.
    Queries {
        /// The query's text.
        query: Text,
    },
}

/// How a request ends whose proposal was decided.
///
/// Source: this project's own; the sessions are those of dissertation section 6.3.
#[derive(Debug, PartialEq, Eq, Drop)]
pub enum Ending {
    /// The command has this reply.
    Done {
        /// The object's reply, at its first time where the command repeats one of its session.
        reply: Text,
    },
    /// The client has no session, or has one already where it registers.
    Rejected,
    /// The client has said that it had this series' reply.
    Responded,
    /// A session of the client begins.
    Registered,
    /// The session of the client ends.
    Closed,
}

/// A place of a group's list: a proposal, and the context under which it was asked.
///
/// A blank's context says nothing. Source: this project's own.
#[derive(Debug, PartialEq, Eq, Drop)]
pub struct Placed {
    /// The context of the request.
    pub context: Text,
    /// What stands at the place.
    pub proposal: Proposal,
}

impl Placed {
    /// Another one of the same contents. The only error is `NoMemory`.
    pub fn copy(&self) -> Result<Placed, NoMemory>
        ensures { IfOk result (λ copy. copy ≡ self.now) }
    {
        Ok(Placed {
            context: self.context.copy()?,
            proposal: self.proposal.copy()?,
        })
    }
}

/// What one line of an output says of a group. Lines that say nothing of it have no mark.
///
/// Places and fronts count from 1; 0 is the front before the first place. Source: this project's
/// own.
#[derive(Debug, PartialEq, Eq, Drop)]
pub enum Mark {
    /// A request is asked.
    Asks {
        /// Its context.
        context: Text,
        /// What it asks for.
        what: What,
    },
    /// A request ends, and shows the place of its proposal.
    Ends {
        /// Its context.
        context: Text,
        /// The place.
        place: u64,
        /// How it ends.
        ending: Ending,
    },
    /// A request ends without a place: dropped, timed out, or terminated.
    Leaves {
        /// Its context.
        context: Text,
    },
    /// A read is answered.
    Reads {
        /// Its context.
        context: Text,
        /// The number of places that had been applied.
        front: u64,
        /// The answer.
        answer: Text,
    },
    /// A query is answered from what one host has applied, which may lag.
    Stales {
        /// The number of places that had been applied.
        front: u64,
        /// The query that was asked.
        query: Text,
        /// The answer.
        answer: Text,
    },
    /// A line tells a number of places.
    Tells {
        /// The number.
        number: u64,
    },
    /// An entry of the decided list is shown.
    Shows {
        /// The number that it is shown with: its place in the list, from 1 on.
        place: u64,
        /// What the place holds.
        placed: Placed,
    },
}

//! Laws of the definitions, each as the contract of a call that does nothing.

ghost use Rattle.session_lru.specs.Follow.{RegistersFollow, ClosesFollow, CommandsFollow};
ghost use Rattle.session_lru.specs.Law.{OthersLeave};
ghost use Rattle.session_lru.specs.Section.{ReadsBack, SpellsOne};

/// Blanks and commands outside of every session pass a table by: a table that stands for a list
/// stands for the list with such a proposal after it. Source: dissertation section 6.3.
pub fn others_leave()
    ensures { OthersLeave }
{}

/// What a table is spelt as reads as that table, and bytes that read as a table are its spelling:
/// a table has one spelling, and a spelling is of one table. Source: this project's own.
pub fn sections_are_read()
    ensures back { ReadsBack }
    ensures one { SpellsOne }
{}

/// The calls follow a list of proposals: to a table that stands for a list, each call answers the
/// verdict of its proposal, and the table after it stands for the list with that proposal; for a
/// command that acts, once the object's reply is kept. Source: dissertation section 6.3.
pub fn calls_follow()
    ensures registers { RegistersFollow }
    ensures closes { ClosesFollow }
    ensures commands { CommandsFollow }
{}

//! Laws of the definitions, each as the contract of a call that does nothing.

ghost use Rattle.std.specs.Prelude.{◌≡◌, true};
ghost use Rattle.object_model.specs.Image.{HasOneSpelling, StaysObject, FirstIsObject, ReadsBack, SpellsOne};
ghost use Rattle.object_model.specs.Mark.{entries};
ghost use Rattle.object_model.specs.Decision.{legal};
ghost use Rattle.object_model.specs.Desk.{MovesAreLegal, MovesShowNothing, MovesJoin};
ghost use Rattle.object_model.specs.Laws.{StandsFromFront, RaisedIsGreatest, RepeatsWhatActed, ActsOnce, StaysGone, DecidesLegal};
ghost use Rattle.object_model.specs.Rows.{evicting, responding};

/// The images of objects are one spelling each: objects with the same image have the same pairs.
/// Source: this project's own.
pub fn has_one_spelling()
    ensures { HasOneSpelling }
{}

/// What bytes read as is what they are the image of: an object's image reads as that object, and
/// bytes that read as an object are its image. So bytes are refused exactly where no object has
/// them. Source: this project's own.
pub fn images_are_read()
    ensures back { ReadsBack }
    ensures one { SpellsOne }
{}

/// An object without keys is one, and an object that is given any text stays one: its keys ascend,
/// its keys and values have their forms, and it has at most 1,000,000 keys. Each reply has at most
/// 512 bytes. Source: this project's own.
pub fn stays_object()
    ensures first { FirstIsObject }
    ensures stays { StaysObject }
{}

/// The standing clients are those that the list gives from its front on, one proposal after
/// another. Source: dissertation section 6.3.
pub fn stands_from_front()
    ensures { StandsFromFront }
{}

/// Where a client stands, a register of it acted, and its responded value is the greatest of its
/// commands since the last such register. Source: this project's own.
pub fn raised_is_greatest()
    ensures { RaisedIsGreatest }
{}

/// A command of a client that stands, whose series isn't responded, is a repeat exactly where a
/// command of that client and series acted after the client's last register that acted; the reply
/// that it has is that command's. Source: dissertation section 6.3.
pub fn repeats_what_acted()
    ensures { RepeatsWhatActed }
{}

/// A series of a client acts at most once before a new session of the client begins. Source:
/// dissertation section 6.3.
pub fn acts_once()
    ensures { ActsOnce }
{}

/// A client that doesn't stand doesn't until a session of it begins, and its commands are refused
/// till then. Source: this project's own.
pub fn stays_gone()
    ensures { StaysGone }
{}

/// The test of legality computes exactly what legality says. Source: this project's own.
pub fn decides_legal()
    ensures { DecidesLegal }
{}

/// Two worked outputs are legal: a full table evicts the session that was touched longest ago, and
/// a command whose series is responded has no reply any more. Source: this project's own.
pub fn worked_outputs()
    ensures evicting { legal 2 (entries evicting) evicting ≡ true }
    ensures responding { legal 4096 (entries responding) responding ≡ true }
{}

/// Whatever moves a world's desk makes, what it prints is legal: a world owes each step alone that
/// its one decided list only grows by what was asked, that an ending is printed at the place of its
/// own entry as the list has it, that a read is answered after a front that is at least its floor,
/// and that told numbers are at most the list's length. The entries shown at the end are that list.
/// Source: this project's own.
pub fn moves_are_legal()
    ensures legal { MovesAreLegal }
    ensures shown { MovesShowNothing }
    ensures join { MovesJoin }
{}

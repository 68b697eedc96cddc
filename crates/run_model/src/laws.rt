//! Laws of the definitions, each as the contract of a call that does nothing.

ghost use Rattle.std.specs.Prelude.{◌≡◌};
ghost use Rattle.run_model.specs.Rows.{script, printed, settling, settled, alone, alone_printed, showing, showing_printed, handing_on, handing_on_printed, twice, twice_printed, ahead, ahead_printed};
ghost use Rattle.run_model.specs.Run.{output_of};

/// A put and a get at one voter print exactly their worked output. Source: this project's own.
pub fn worked_run()
    ensures { output_of script ≡ printed }
{}

/// A script with a comment, an empty line and two settles prints exactly its worked output. Source:
/// this project's own.
pub fn settled_run()
    ensures { output_of settling ≡ settled }
{}

/// A command that one of three voters alone has saved isn't decided: the script prints exactly its
/// worked output. Source: this project's own.
pub fn alone_run()
    ensures { output_of alone ≡ alone_printed }
{}

/// The fifth envelope of an election, and the ninety-ninth, which isn't there, are shown exactly as
/// in the worked output. Source: this project's own.
pub fn showing_run()
    ensures { output_of showing ≡ showing_printed }
{}

/// A command that is asked at a follower is handed on, decided and done: the script prints exactly
/// its worked output. Source: this project's own.
pub fn handing_on_run()
    ensures { output_of handing_on ≡ handing_on_printed }
{}

/// A plain command that a follower hands on twice acts twice and ends once: the script prints exactly
/// its worked output. Source: this project's own.
pub fn twice_run()
    ensures { output_of twice ≡ twice_printed }
{}

/// A read while an entry of the log isn't saved is answered after what was applied: the script prints
/// exactly its worked output. Source: this project's own.
pub fn ahead_run()
    ensures { output_of ahead ≡ ahead_printed }
{}

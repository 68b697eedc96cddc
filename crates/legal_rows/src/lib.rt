//! What the definition of a legal output lets through, and what it refuses.
#![tactic(auto)]

ghost use Rattle.object_model.specs.Legal.{IsLegalOutput};
ghost use Rattle.legal_rows.specs.Outputs.{worked, second_ending, unasked_ending, other_reply, unasked_entry, read_below_told, skipped_number, late_number, repeated_number};

use object_model::decides_legal;

/// A worked output is legal by the entries that it shows: a command and a read are asked and
/// answered, one after the other. Source: this project's own.
pub fn worked_output()
    ensures legal { IsLegalOutput 4096 worked }
{
    decides_legal();
}

/// The worked output isn't legal any more where it is spoiled in one thing: a request ends twice, an
/// ending stands before its ask, a reply isn't the object's, an entry is shown that nobody asked
/// for, a read is answered after fewer places than were told before it was asked, or the entries
/// aren't numbered 1, 2 and so on: a number is left out, 1 is left out, or one stands twice. Source:
/// this project's own.
pub fn spoiled_outputs()
    ensures second_ending { ¬ IsLegalOutput 4096 second_ending }
    ensures unasked_ending { ¬ IsLegalOutput 4096 unasked_ending }
    ensures other_reply { ¬ IsLegalOutput 4096 other_reply }
    ensures unasked_entry { ¬ IsLegalOutput 4096 unasked_entry }
    ensures read_below_told { ¬ IsLegalOutput 4096 read_below_told }
    ensures skipped_number { ¬ IsLegalOutput 4096 skipped_number }
    ensures late_number { ¬ IsLegalOutput 4096 late_number }
    ensures repeated_number { ¬ IsLegalOutput 4096 repeated_number }
{
    decides_legal();
}

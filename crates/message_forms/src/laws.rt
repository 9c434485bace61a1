//! Laws of streams of frames, each the contract of a function that does nothing.
ghost use Rattle.message_forms.specs.Laws.{BrokenBeginsNoFrame, CarriedStays, RowsCarryTheirOwn};

/// A row of frames carries exactly its own messages, what has come whole stays so whatever comes
/// behind it, and no frame of a message stands where the grammar is left.
pub fn frames_carry_their_messages()
    ensures own { RowsCarryTheirOwn }
    ensures stays { CarriedStays }
    ensures broken { BrokenBeginsNoFrame }
{}

//! What holds of the definitions, as contracts of empty functions.
ghost use Rattle.mf_text.specs.Cuts.{TextsAreCutOnce};

/// A text consists of its pieces, and of no others.
pub fn texts_are_cut_once()
    ensures { TextsAreCutOnce }
{}

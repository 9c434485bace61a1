//! What holds of the definitions, as contracts of empty functions.
ghost use Rattle.mf_forms.specs.Laws.{TextsWithoutMarks, QuotesThatEnd, QuotesThatStayOpen};

/// Quotes as a reader sees them: a text has no quotation mark, or a front without one and a quote
/// behind it that ends at the next same mark or stays open.
pub fn quotes_end_at_the_next_same_mark()
    ensures without_marks { TextsWithoutMarks }
    ensures ends { QuotesThatEnd }
    ensures stays_open { QuotesThatStayOpen }
{}

//! Laws of the grammar of records, each the contract of a function that does nothing.
ghost use Rattle.log_records.specs.Laws.{ReadsSpellings, RefusesLeast, SpelledApart};

/// Reading and spelling belong together both ways, a refusal is at the least place that leaves the
/// grammar, and no two records have one spelling.
pub fn records_are_spelled_once()
    ensures reads { ReadsSpellings }
    ensures refuses { RefusesLeast }
    ensures apart { SpelledApart }
{}

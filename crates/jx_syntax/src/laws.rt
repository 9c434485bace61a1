//! Laws of texts and of the grammar. Nothing runs here.
ghost use Rattle.jx_syntax.specs.Laws.{NumbersReadBack, TextsReadBack};
ghost use Rattle.jx_syntax.specs.GrammarLaws.{IsUnambiguous, IsDecided, IsOneOrTheOther};
ghost use Rattle.jx_syntax.specs.GrammarLaws.{HasOneReason};
ghost use Rattle.jx_syntax.specs.ValueLaws.{ValuesAreWritten, ValuesReadBack};
ghost use Rattle.jx_syntax.specs.ValueLaws.{DeepValuesAreRefused, LongValuesAreRefused};

/// What is written for a text is read as that text.
pub fn texts_read_back()
    ensures { TextsReadBack }
{}

/// What is written for a number is read as that number.
pub fn numbers_read_back()
    ensures { NumbersReadBack }
{}

/// What is written for a value is read as an expression of that value, exactly where its text has
/// at most 16,777,216 bytes and opens at most 128 levels. A longer one is too large, and one that
/// only opens more levels is too deep.
pub fn values_read_back()
    ensures written { ValuesAreWritten }
    ensures read { ValuesReadBack }
    ensures deep { DeepValuesAreRefused }
    ensures long { LongValuesAreRefused }
{}

/// Two expressions that are written alike are one.
pub fn the_grammar_is_unambiguous()
    ensures { IsUnambiguous }
{}

/// A text is an expression, or there is a reason why it is none.
pub fn a_text_is_an_expression_or_refused()
    ensures { IsDecided }
{}

/// No text is an expression and refused too.
pub fn no_text_is_both()
    ensures { IsOneOrTheOther }
{}

/// There is one reason for which a text is refused.
pub fn a_refusal_has_one_reason()
    ensures { HasOneReason }
{}

//! Laws of expressions of literals and of the texts of values. Nothing runs here.
ghost use Rattle.jx_laws.specs.Laws.{LiteralsEvaluate, NodesAreCounted};
ghost use Rattle.jx_laws.specs.Laws.{TextsEvaluateBack, ValuesEvaluateBack};

use jx_syntax::values_read_back;

/// An expression of literals, lists and objects has the value that it says, where no list has more
/// than 1,000,000 items, no object has a key twice, at most 128 lists and objects are open at
/// a place, and at most 10,000,000 nodes are begun. It has a node for each value, and at most one
/// more for each number that isn't above 0.
pub fn literals_evaluate()
    ensures value { LiteralsEvaluate }
    ensures nodes { NodesAreCounted }
{}

/// The text of a value is read as an expression that has that value, whatever the names, where the
/// text is within its limits, no list has more than 1,000,000 items, no object has a key twice, and
/// at most 10,000,000 nodes are begun.
pub fn values_evaluate_back()
    ensures texts { TextsEvaluateBack }
    ensures values { ValuesEvaluateBack }
{
    values_read_back();
}

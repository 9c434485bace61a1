//! The functions.
ghost use Rattle.std.specs.Prelude.{◌≡◌};
ghost use Rattle.jx_meaning.specs.Functions.{function_of};

/// A function that an expression may call.
#[derive(Clone, Copy, Debug, PartialEq, Eq)]
pub enum Function {
    /// `range`
    Range,
    /// `join`
    Join,
    /// `format`
    Format,
    /// `template`
    Template,
    /// `len`
    Len,
}

impl Function {
    /// The function of this name.
    #[tactic(auto, unfolding(crate::specs::Functions::function_of))]
    pub fn of(name: &str) -> Option<Function>
        ensures { result ≡ function_of name.now }
    {
        if name == "range" {
            Some(Function::Range)
        } else if name == "join" {
            Some(Function::Join)
        } else if name == "format" {
            Some(Function::Format)
        } else if name == "template" {
            Some(Function::Template)
        } else if name == "len" {
            Some(Function::Len)
        } else {
            None
        }
    }
}

//! What a command line chooses.
use command_words::Language;
use flow_types::{Name, RuleNo};

/// What is shown of a plan.
#[derive(Clone, Copy, Debug, PartialEq, Eq)]
pub enum Part {
    /// All its rules.
    Rules,
    /// One rule, N.
    Rule(RuleNo),
    /// Its files, by `--files`.
    Files,
    /// Its graph for Graphviz, by `--dot`.
    Graph,
}

/// What a command line chooses.
#[derive(Drop)]
pub struct Options {
    /// FLOW.
    pub flow: Name,
    /// The language of its text, by `--jx`.
    pub language: Language,
    /// What is shown.
    pub part: Part,
}

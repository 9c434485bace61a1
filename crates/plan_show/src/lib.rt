//! The plan of a flow as text: its rules, its files, and the graph for Graphviz.
//!
//! What stands: each text is the one that its definition says. Nothing is left out of it, and no
//! control character of a name, a command or a variable stands in it as it is. Each call takes time
//! and memory linear in the plan and the text.
#![tactic(auto)]

mod examples;
mod files;
mod graph;
mod rules;
mod text;

pub use examples::{texts_of_a_plan, texts_of_names};
pub use files::files_text;
pub use graph::graph_text;
pub use rules::{rule_text, rules_text};

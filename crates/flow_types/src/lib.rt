//! The types and the definitions that every crate of the workflow engine cites.
#![tactic(auto)]

mod copies;
mod examples;
mod flow;
mod job;
mod laws;
mod lists;
mod messages;
mod name;
mod numbers;
mod plan;
mod records;

pub use examples::{
    example_plans_are_valid, later_rule_runs_first, names_that_are_nested, serial_run_of_two_rules,
    texts_that_give_names, texts_that_give_no_name,
};
pub use flow::{Pair, RawFile, RawFlow, RawRule, SizeBound};
pub use job::{Failure, Given, Job, Outcome, Report, Start, Task, Want};
pub use laws::{names_are_fixed, serial_run_is_fixed};
pub use lists::{Bytes, Memory, Rows, Text};
pub use messages::{Key, Message};
pub use name::{Name, NameFault, form_of};
pub use numbers::{Amounts, AttemptNo, Content, Digest, FileNo, LinkNo, Needs, RuleNo};
pub use plan::{FileRow, Plan, Port, Rule};
pub use records::{EndKind, Record};

//! What the program prints, and the status with which it ends.
ghost use Rattle.std.specs.Prelude.{◌≡◌, IfOk, option_map, string_bytes};
ghost use Rattle.flow_types.specs.Plans.{IsValid};
ghost use Rattle.makeflow_show.specs.Parts.{part_text};

use crate::reading::{plan_in, read_text};
use command_words::WordsFault;
use flow_types::{Bytes, Memory, Plan, Rows, RuleNo};
use plan_show::{files_text, graph_text, rule_text, rules_text};
use report::Cause;
use show_words::{Options, Part, read_words};
use std::alloc::{AllocError, Global};
use std::rt::Files;

const USAGE: &[u8] = b"makeflow: usage: makeflow_show [--jx] [--files | --dot] FLOW [N]\n";

// The status of words that the program doesn't take.
const WRONG_WORDS: u8 = 2;

// The status of want of memory.
const OUT_OF_MEMORY: u8 = 8;

/// What is printed, and the exit status.
#[derive(Drop)]
pub struct Answer {
    pub status: u8,
    pub text: Bytes,
}

fn refusal(alloc: Global, text: &[u8]) -> Result<Answer, Memory> {
    Ok(Answer {
        status: WRONG_WORDS,
        text: Bytes::of(alloc, text)?,
    })
}

// A fault as `makeflow` prints it, with its status.
fn fault(alloc: Global, cause: &Cause) -> Result<Answer, Memory> {
    let no_plan = Plan {
        rules: Rows::new(alloc),
        files: Rows::new(alloc),
    };
    Ok(Answer {
        status: cause.status(),
        text: cause.line(alloc, &no_plan)?,
    })
}

// The part of the plan as text, None where it is a rule that the plan doesn't have.
fn part_text(alloc: Global, plan: &Plan, part: Part) -> Result<Option<String>, Memory>
    requires { IsValid plan.now }
    ensures { IfOk result (λ text. option_map string_bytes text ≡ part_text plan.now part) }
{
    match part {
        Part::Rules => Ok(Some(rules_text(alloc, plan)?)),
        Part::Rule(number) => rule_text(alloc, plan, number),
        Part::Files => Ok(Some(files_text(alloc, plan)?)),
        Part::Graph => Ok(Some(graph_text(alloc, plan)?)),
    }
}

fn no_rule(alloc: Global, plan: &Plan, part: Part) -> Result<Answer, Memory> {
    let RuleNo(number) = match part {
        Part::Rule(number) => number,
        _ => RuleNo(0),
    };
    let count = plan.rules.len();
    match format!(in alloc; "makeflow: no rule {number}, there are {count}\n") {
        Ok(line) => refusal(alloc, line.as_bytes()),
        Err(AllocError) => Err(Memory),
    }
}

fn shown<R: Files>(
    rt: &R,
    alloc: Global,
    options: Options,
    env: &[(String, String)],
) -> Result<Answer, Memory> {
    let Options {
        flow,
        language,
        part,
    } = options;
    let text = match read_text(rt, alloc, &flow) {
        Ok(text) => text,
        Err(cause) => return fault(alloc, &cause),
    };
    let plan = match plan_in(alloc, language, flow, &text, env) {
        Ok(plan) => plan,
        Err(cause) => return fault(alloc, &cause),
    };
    match part_text(alloc, &plan, part)? {
        Some(text) => Ok(Answer {
            status: 0,
            text: Bytes::from_vec(text.into_bytes()),
        }),
        None => no_rule(alloc, &plan, part),
    }
}

fn asked<R: Files>(
    rt: &R,
    alloc: Global,
    words: &[String],
    env: &[(String, String)],
) -> Result<Answer, Memory> {
    match read_words(alloc, words) {
        Ok(options) => shown(rt, alloc, options, env),
        Err(WordsFault::Usage) => refusal(alloc, USAGE),
        Err(WordsFault::Memory) => Err(Memory),
    }
}

/// The answer to a command line. Want of memory has no line of its own where it has none to make
/// one.
pub fn answer_of<R: Files + AllocGlobal>(
    rt: &R,
    words: &[String],
    env: &[(String, String)],
) -> Answer {
    let alloc = rt.alloc();
    match asked(rt, alloc, words, env) {
        Ok(answer) => answer,
        Err(Memory) => match fault(alloc, &Cause::Memory) {
            Ok(answer) => answer,
            Err(Memory) => Answer {
                status: OUT_OF_MEMORY,
                text: Bytes::from_vec(Vec::new(alloc)),
            },
        },
    }
}

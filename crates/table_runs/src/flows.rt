//! A chain, and a table over its plan whose run was opened.
ghost use Rattle.std.specs.Prelude.{◌<◌, IfSome};
ghost use Rattle.flow_types.specs.Plans.{IsValid};

use flow_types::{
    Amounts, Content, Digest, Needs, Plan, RawFile, RawFlow, RawRule, Record, Rows, Text,
};
use rule_graph::{fits_limits, plan_of};
use run_history::{Mode, Options};
use std::alloc::Global;
use task_core::Table;

// The digest of each plan, as the records have it.
const DIGEST: Digest = Digest([0; 32]);

const ONE_CORE: Amounts = Amounts {
    cores: 1,
    memory: 0,
    disk: 0,
};

const OPTIONS: Options = Options {
    mode: Mode::Never,
    limit: None,
    retries: 0,
    wq: false,
    local: Amounts {
        cores: 2,
        memory: 0,
        disk: 0,
    },
};

fn one<T: Drop>(alloc: Global, item: T) -> Option<Rows<T>> {
    let mut rows = Vec::new(alloc);
    rows.push(item).ok()?;
    Some(Rows::of(rows))
}

fn file(alloc: Global, number: u32) -> Option<RawFile> {
    let name = format!(in alloc; "f{number}").ok()?;
    Some(RawFile {
        local: Text::from_string(name),
        remote: None,
    })
}

// A rule that makes a file of one other.
fn rule(alloc: Global, place: u32, input: u32, output: u32) -> Option<RawRule> {
    Some(RawRule {
        place,
        outputs: one(alloc, file(alloc, output)?)?,
        inputs: one(alloc, file(alloc, input)?)?,
        command: Text::of(alloc, "true").ok()?,
        local: false,
        needs: Needs::Stated(ONE_CORE),
        env: Rows::new(alloc),
    })
}

fn plan_over(alloc: Global, rules: Vec<RawRule>) -> Option<Plan>
    ensures { IfSome result IsValid }
{
    let flow = RawFlow {
        rules: Rows::of(rules),
        keep: Rows::new(alloc),
        bounds: Rows::new(alloc),
    };
    if !fits_limits(&flow) {
        return None;
    }
    plan_of(alloc, flow).ok()
}

/// So many rules, each of which takes in what the one before made.
pub fn chain(alloc: Global, count: u32) -> Option<Plan>
    requires { count < 4294967295 }
    ensures { IfSome result IsValid }
{
    let mut rules = Vec::new(alloc);
    for place in 0..count {
        rules.push(rule(alloc, place, place, place + 1)?).ok()?;
    }
    plan_over(alloc, rules)
}

/// One content of a byte.
pub fn contents(alloc: Global) -> Option<Rows<Content>> {
    one(
        alloc,
        Content {
            size: 1,
            digest: DIGEST,
        },
    )
}

/// The table over a plan with one source, whose run was opened.
pub fn opened(alloc: Global, plan: Plan) -> Option<Table>
    requires { IsValid plan }
{
    let mut history = Vec::new(alloc);
    history
        .push(Record::Opened {
            moment: 1,
            run: 0,
            retries: 0,
            limit: None,
            plan: DIGEST,
            sources: contents(alloc)?,
        })
        .ok()?;
    Table::new(alloc, plan, OPTIONS, &DIGEST, &history).ok()
}

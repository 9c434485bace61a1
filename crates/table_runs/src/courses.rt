//! A long chain through a table.
ghost use Rattle.std.specs.Prelude.{◌<◌, length};

use crate::flows::{chain, contents, opened};
use flow_types::{AttemptNo, LinkNo, RuleNo};
use std::alloc::Global;
use std::test::Fail;
use task_core::{AdmitAll, Reply, Table};
use world_contents::may_finish;

const LOCAL: LinkNo = LinkNo(0);

// So many rules, each of which takes in what the one before made.
const COUNT: u32 = 20_000;

// What a claim for the local place replies, none where the run isn't opened.
fn claim(table: &mut Table) -> Option<Reply> {
    if !table.is_begun() {
        return None;
    }
    Some(table.claim_by(LOCAL, &mut AdmitAll))
}

// The attempt of a rule with one output finishes; whether it ran.
fn finish(alloc: Global, table: &mut Table, rule: RuleNo, attempt: AttemptNo) -> Option<bool>
    requires { rule.0 < length table.old.plan.rules }
{
    let outs = contents(alloc)?;
    if !may_finish(table.plan(), rule, outs.as_slice()) {
        return None;
    }
    Some(table.finish(rule, attempt, outs.as_slice()).is_ok())
}

#[test]
fn of_a_long_chain_one_rule_is_ready_at_a_time(rt: HostRuntime) -> Result<(), Fail> {
    let alloc = rt.alloc();
    let Some(plan) = chain(alloc, COUNT) else {
        assert!(rt; false);
        return Ok(());
    };
    let Some(mut table) = opened(alloc, plan) else {
        assert!(rt; false);
        return Ok(());
    };
    for number in 0..COUNT {
        let rule = RuleNo(number);
        let attempt = AttemptNo(u64::from(number));
        assert_eq!(rt; table.ready(), [rule].as_slice());
        assert_eq!(rt; claim(&mut table), Some(Reply::Claimed { rule, attempt }));
        assert!(rt; table.ready().is_empty());
        if number as usize >= table.plan().rules.len() {
            assert!(rt; false);
            return Ok(());
        }
        assert_eq!(rt; finish(alloc, &mut table, rule, attempt), Some(true));
    }
    assert!(rt; table.ready().is_empty());
    assert_eq!(rt; table.complete_count(), COUNT);
    Ok(())
}

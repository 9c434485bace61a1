//! Rows of contents, and rules that they close.
ghost use Rattle.std.specs.Prelude.{◌≡◌, ◌<◌, ◌&&◌, All, IfOk, Some, length, map, nat_le};
ghost use Rattle.std.specs.Prelude.{slice_get, sum_by};
ghost use Rattle.std.specs.Option.{option_map};
ghost use Rattle.flow_types.specs.Plans.{IsValid, files_of, makes};
ghost use Rattle.run_history.specs.Legal.{are_within, is_failure_at};
ghost use Rattle.run_history.specs.Storage.{rule_bound};
ghost use Rattle.world_laws.specs.Worlds.{row_for, rule_at};

use crate::jobs::bound_of;
use flow_types::{
    AttemptNo, Bytes, Content, Digest, Failure, Memory, Plan, Port, Record, Rows, Rule, RuleNo,
};
use sha2::{Digest as Hasher, Sha256};
use std::alloc::Global;

// The size and the digest of a content.
fn row_for(content: &[u8]) -> Content
    ensures { result ≡ row_for content.now }
{
    let mut hasher = Sha256::new();
    hasher.update(content);
    Content {
        size: content.len() as u64,
        digest: Digest(hasher.finalize()),
    }
}

/// The rows of these contents.
pub fn rows_for(alloc: Global, contents: &[Bytes]) -> Result<Rows<Content>, Memory>
    ensures { IfOk result (λ rows. rows ≡ map row_for contents.now) }
{
    let mut rows = Vec::new(alloc);
    for content in contents {
        if rows.push(row_for(content.as_slice())).is_err() {
            return Err(Memory);
        }
    }
    Ok(Rows::of(rows))
}

/// The rule of an attempt: of so many starts the one at its number.
pub fn rule_at(records: &[Record], attempt: AttemptNo) -> Option<RuleNo>
    ensures { option_map (λ rule. rule.0) result ≡ rule_at records.now attempt.0 }
{
    let mut before = attempt.0;
    for record in records {
        if let Record::Started { rule, .. } = record {
            if before == 0 {
                return Some(*rule);
            }
            before -= 1;
        }
    }
    None
}

// One row for each port, each within the bound of its file.
fn are_within(plan: &Plan, ports: &[Port], rows: &[Content]) -> bool
    ensures { result ≡ are_within plan.now (files_of ports.now) rows.now }
{
    if ports.len() != rows.len() {
        return false;
    }
    for (at, port) in ports.iter().enumerate() {
        if rows[at].size > bound_of(plan, port.file) {
            return false;
        }
    }
    true
}

// The bytes of these contents together, where there are at most so many.
fn are_together(rows: &[Content], most: u64) -> bool
    ensures { result ≡ nat_le (sum_by (λ row. row.size) rows.now) most }
{
    let mut left = most;
    for row in rows {
        if row.size > left {
            return false;
        }
        left -= row.size;
    }
    true
}

// An index in the failure is that of one of so many outputs.
fn is_failure_at(why: Failure, outputs: usize) -> bool
    ensures { result ≡ is_failure_at why outputs }
{
    match why {
        Failure::Status(_) => true,
        Failure::MissingOutput(index) => (index as usize) < outputs,
        Failure::TooLong { index, .. } => (index as usize) < outputs,
    }
}

/// A rule of the plan.
pub fn rule_of(plan: &Plan, rule: RuleNo) -> &Rule
    requires { rule.0 < length plan.now.rules }
    ensures rule { slice_get plan.now.rules rule.0 ≡ Some result.now }
    ensures made { files_of result.now.outputs ≡ makes plan.now rule.0 }
    ensures bound { result.now.bound ≡ rule_bound plan.now rule.0 }
    ensures inside { IsValid plan.now
        → All (λ port. port.file.0 < length plan.now.files) result.now.outputs }
{
    &plan.rules.as_slice()[rule.0 as usize]
}

/// A rule of the plan may be closed by these contents.
pub fn may_finish(plan: &Plan, rule: RuleNo, rows: &[Content]) -> bool
    requires { rule.0 < length plan.now.rules }
    ensures { result ≡ (are_within plan.now (makes plan.now rule.0) rows.now
        && nat_le (sum_by (λ row. row.size) rows.now) (rule_bound plan.now rule.0)) }
{
    let rule = rule_of(plan, rule);
    are_within(plan, rule.outputs.as_slice(), rows) && are_together(rows, rule.bound)
}

/// A rule of the plan may be closed by this failure.
pub fn may_fail(plan: &Plan, rule: RuleNo, why: Failure) -> bool
    requires { rule.0 < length plan.now.rules }
    ensures { result ≡ is_failure_at why (length (makes plan.now rule.0)) }
{
    is_failure_at(why, rule_of(plan, rule).outputs.len())
}

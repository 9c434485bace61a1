//! The digest of a plan.
ghost use Rattle.std.specs.Prelude.{◌≡◌, All};
ghost use Rattle.std.specs.Int.{to_be_bytes, w32, w64};
ghost use Rattle.flow_types.specs.Plans.{IsValid};
ghost use Rattle.rule_graph.specs.Spelling.{text_bytes, counted_bytes, pair_bytes};
ghost use Rattle.rule_graph.specs.Spelling.{port_bytes, rule_bytes, maker_bytes};
ghost use Rattle.rule_graph.specs.Spelling.{flag_bytes, file_bytes, plan_digest};
ghost use Rattle.rule_graph.specs.Hashing.{Adds, IsCountable, IsPairCountable};
ghost use Rattle.rule_graph.specs.Hashing.{IsPortCountable, IsRuleCountable, IsFileCountable};

use flow_types::{Digest, FileRow, Name, Pair, Plan, Port, Rows, Rule, RuleNo, Text};
use sha2::{Digest as Hasher, Sha256};

/// The SHA-256 digest of a plan's spelling. Needs and local marks don't change it.
pub fn plan_digest(plan: &Plan) -> Digest
    requires { IsValid plan.now }
    ensures { result.0 ≡ plan_digest plan.now }
{
    let mut hasher = Sha256::new();
    add_rules(&mut hasher, &plan.rules);
    add_files(&mut hasher, &plan.files);
    Digest(hasher.finalize())
}

fn add_number(hasher: &mut Sha256, number: u32)
    ensures { Adds hasher.old hasher.new (to_be_bytes w32 number) }
{
    hasher.update(number.to_be_bytes());
}

fn add_long_number(hasher: &mut Sha256, number: u64)
    ensures { Adds hasher.old hasher.new (to_be_bytes w64 number) }
{
    hasher.update(number.to_be_bytes());
}

fn add_bytes(hasher: &mut Sha256, bytes: &[u8])
    requires { IsCountable bytes.now }
    ensures { Adds hasher.old hasher.new (text_bytes bytes.now) }
{
    add_number(hasher, bytes.len() as u32);
    hasher.update(bytes);
}

fn add_text(hasher: &mut Sha256, text: &Text)
    requires { IsCountable text.now }
    ensures { Adds hasher.old hasher.new (text_bytes text.now) }
{
    add_bytes(hasher, text.as_str().as_bytes());
}

fn add_name(hasher: &mut Sha256, name: &Name)
    requires { IsCountable name.now }
    ensures { Adds hasher.old hasher.new (text_bytes name.now) }
{
    add_bytes(hasher, name.as_bytes());
}

fn add_flag(hasher: &mut Sha256, flag: bool)
    ensures { Adds hasher.old hasher.new (flag_bytes flag) }
{
    if flag {
        hasher.update([1u8]);
    } else {
        hasher.update([0u8]);
    }
}

fn add_maker(hasher: &mut Sha256, maker: Option<RuleNo>)
    ensures { Adds hasher.old hasher.new (maker_bytes maker) }
{
    match maker {
        Some(rule) => {
            hasher.update([1u8]);
            add_number(hasher, rule.0);
        }
        None => hasher.update([0u8]),
    }
}

fn add_pair(hasher: &mut Sha256, pair: &Pair)
    requires { IsPairCountable pair.now }
    ensures { Adds hasher.old hasher.new (pair_bytes pair.now) }
{
    add_text(hasher, &pair.name);
    add_text(hasher, &pair.value);
}

fn add_pairs(hasher: &mut Sha256, pairs: &Rows<Pair>)
    requires count { IsCountable pairs.now }
    requires each { All IsPairCountable pairs.now }
    ensures { Adds hasher.old hasher.new (counted_bytes pair_bytes pairs.now) }
{
    add_number(hasher, pairs.len() as u32);
    for pair in pairs.as_slice() {
        add_pair(hasher, pair);
    }
}

fn add_port(hasher: &mut Sha256, port: &Port)
    requires { IsPortCountable port.now }
    ensures { Adds hasher.old hasher.new (port_bytes port.now) }
{
    add_number(hasher, port.file.0);
    add_name(hasher, &port.remote);
}

fn add_ports(hasher: &mut Sha256, ports: &Rows<Port>)
    requires count { IsCountable ports.now }
    requires each { All IsPortCountable ports.now }
    ensures { Adds hasher.old hasher.new (counted_bytes port_bytes ports.now) }
{
    add_number(hasher, ports.len() as u32);
    for port in ports.as_slice() {
        add_port(hasher, port);
    }
}

fn add_rule(hasher: &mut Sha256, rule: &Rule)
    requires { IsRuleCountable rule.now }
    ensures { Adds hasher.old hasher.new (rule_bytes rule.now) }
{
    add_text(hasher, &rule.command);
    add_pairs(hasher, &rule.env);
    add_ports(hasher, &rule.inputs);
    add_ports(hasher, &rule.outputs);
    add_long_number(hasher, rule.bound);
}

fn add_rules(hasher: &mut Sha256, rules: &Rows<Rule>)
    requires count { IsCountable rules.now }
    requires each { All IsRuleCountable rules.now }
    ensures { Adds hasher.old hasher.new (counted_bytes rule_bytes rules.now) }
{
    add_number(hasher, rules.len() as u32);
    for rule in rules.as_slice() {
        add_rule(hasher, rule);
    }
}

fn add_file(hasher: &mut Sha256, row: &FileRow)
    requires { IsFileCountable row.now }
    ensures { Adds hasher.old hasher.new (file_bytes row.now) }
{
    add_name(hasher, &row.name);
    add_maker(hasher, row.maker);
    add_flag(hasher, row.kept);
    add_long_number(hasher, row.bound);
}

fn add_files(hasher: &mut Sha256, files: &Rows<FileRow>)
    requires count { IsCountable files.now }
    requires each { All IsFileCountable files.now }
    ensures { Adds hasher.old hasher.new (counted_bytes file_bytes files.now) }
{
    add_number(hasher, files.len() as u32);
    for row in files.as_slice() {
        add_file(hasher, row);
    }
}

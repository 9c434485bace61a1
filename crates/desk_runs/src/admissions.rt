//! Claims and stops where an admission refuses.
ghost use Rattle.std.specs.Prelude.{◌≤◌, IfOk};
ghost use Rattle.flow_types.specs.Plans.{IsValid};

use desk_bench::{BenchOf, Claimed, Held, OneByOne, Unmade, begin, folder, planned, raw_rule};
use flow_types::{Amounts, LinkNo, Needs, Plan, RawFlow, Rows, RuleNo};
use run_history::{Mode, Next, Nothing, Options, Stop};
use std::alloc::Global;
use std::process::Abort;
use task_core::Admission;

// So many cores, each with a share of memory and disk.
fn amounts(cores: u32) -> Amounts
    requires { cores ≤ 64 }
{
    Amounts {
        cores,
        memory: 1024 * cores,
        disk: 1024 * cores,
    }
}

fn options(wq: bool) -> Options {
    Options {
        mode: Mode::Never,
        limit: None,
        retries: 0,
        wq,
        local: amounts(4),
    }
}

// Two rules that take the same source.
fn two_rules(alloc: Global) -> Result<Plan, Unmade>
    ensures { IfOk result IsValid }
{
    let mut rules = Rows::new(alloc);
    for output in ["a0", "a1"].iter() {
        let needs = Needs::Stated(amounts(1));
        let Ok(rule) = raw_rule(alloc, *output, "s0", needs) else {
            return Err(Unmade);
        };
        if rules.push(rule).is_err() {
            return Err(Unmade);
        }
    }
    let flow = RawFlow {
        rules,
        keep: Rows::new(alloc),
        bounds: Rows::new(alloc),
    };
    planned(alloc, flow)
}

fn start<A: Admission>(rt: &impl Abort, alloc: Global, options: Options) -> BenchOf<A> {
    let plan = two_rules(alloc).expect(rt, "a plan");
    let site = folder(alloc, &["s0"]).expect(rt, "a folder");
    match begin(alloc, plan, site, options) {
        Ok(bench) => bench,
        Err((why, _)) => panic!(rt; "not started: {why:?}"),
    }
}

// The attempt that was started.
fn taken(rt: &impl Abort, claimed: Claimed) -> Held {
    match claimed {
        Claimed::Taken(held) => held,
        Claimed::Nothing(why) => panic!(rt; "nothing: {why:?}"),
        Claimed::Refused(why) => panic!(rt; "refused: {why:?}"),
        Claimed::NoLink => panic!(rt; "no link"),
    }
}

// Why no attempt was started.
fn nothing(rt: &impl Abort, claimed: Claimed) -> Nothing {
    match claimed {
        Claimed::Taken(_held) => panic!(rt; "taken"),
        Claimed::Nothing(why) => why,
        Claimed::Refused(why) => panic!(rt; "refused: {why:?}"),
        Claimed::NoLink => panic!(rt; "no link"),
    }
}

// A worker's link comes, its attempt at rule 0 fails for good, and it leaves.
fn fail_first<A: Admission>(rt: &impl Abort, bench: &mut BenchOf<A>, link: LinkNo, held: Held) {
    match bench.fail(held, 3, 2) {
        Ok(Ok(next)) => assert_eq!(rt; next, Next::Final),
        Ok(Err(why)) => panic!(rt; "not closed: {why:?}"),
        Err(_held) => panic!(rt; "no such rule"),
    }
    assert!(rt; bench.leave(link));
}

#[test]
fn a_rule_that_is_not_admitted_is_named(rt: HostRuntime) {
    let alloc = rt.alloc();
    let mut bench = start::<OneByOne>(&rt, alloc, options(false));
    let held = taken(&rt, bench.claim_by(LinkNo(0), 1));
    assert_eq!(&rt; held.rule(), RuleNo(0));
    let why = nothing(&rt, bench.claim_by(LinkNo(0), 2));
    assert_eq!(&rt; why, Nothing::NotAdmitted { rule: RuleNo(1) });
    match bench.finish(held, 3) {
        Ok(reply) => assert_eq!(&rt; reply, Ok(())),
        Err(_held) => panic!(&rt; "no such rule"),
    }
    let held = taken(&rt, bench.claim_by(LinkNo(0), 4));
    assert_eq!(&rt; held.rule(), RuleNo(1));
    match bench.lose(held, 5) {
        Ok(reply) => assert_eq!(&rt; reply, Ok(())),
        Err(_held) => panic!(&rt; "no such rule"),
    }
}

#[test]
fn waiting_is_not_in_vain_where_no_ready_rule_is_admitted(rt: HostRuntime) {
    let alloc = rt.alloc();
    let mut bench = start::<OneByOne>(&rt, alloc, options(true));
    let link = bench.join(amounts(1), 1 << 20).expect(&rt, "a link");
    let held = taken(&rt, bench.claim_by(link, 1));
    fail_first(&rt, &mut bench, link, held);
    assert!(&rt; !bench.stop_by(Stop::Waited { idles: 3 }));
    assert!(&rt; bench.stop_by(Stop::Halt));
}

#[test]
fn waiting_is_in_vain_where_every_rule_is_admitted(rt: HostRuntime) {
    let alloc = rt.alloc();
    let mut bench = start(&rt, alloc, options(true));
    let link = bench.join(amounts(1), 1 << 20).expect(&rt, "a link");
    let held = taken(&rt, bench.claim(link, 1));
    fail_first(&rt, &mut bench, link, held);
    assert!(&rt; bench.stop(Stop::Waited { idles: 3 }));
}

//! From the words and the flow file to what is asked for.
ghost use Rattle.std.specs.Prelude.{◌≡◌, ◌≢◌, ◌≤◌, ◌<◌, ℕ, List, IfOk, IsErrOf, Ok};
ghost use Rattle.command_words.specs.declared.options.Options.{Options as OptionsValue};
ghost use Rattle.flow_types.specs.Plans.{IsValid};
ghost use Rattle.mf_rules.specs.Flow.{given_pairs};
ghost use Rattle.outside.specs.Disk.{IsImage, LeavesOnly, Within};
ghost use Rattle.file_store.specs.Outputs.{file_name};
ghost use Rattle.master_run.specs.Asked.{ask_of, checked, choice, file_plan, generated_plan};
ghost use Rattle.master_run.specs.Asked.{has_workers, plan_by, request, run_mode, run_options};
ghost use Rattle.master_run.specs.Asked.{workers_of};
ghost use Rattle.master_run.specs.Needs.{NeedsFit, with_needs};
ghost use Rattle.master_run.specs.Stages.{Stage, WordsStage, OfFlow, SaysRefusal, SiteTrace};
ghost use Rattle.master_run.specs.Words.{flow_name, generated_name};

use crate::ask::Ask;
use crate::flow_file::read_file;
use crate::flow_plan::{flow_plan, generated_rules};
use crate::log_name::with_log_name;
use crate::needs::{Excess, least_excess};
use command_words::{Flow, Language, Options, Transport, WordsFault, read_words};
use flow_types::{Memory, Name, Plan};
use outside::{Fault, Site};
use report::Cause;
use run_history::{Mode, Options as RunOptions};
use std::alloc::Global;
use wq_run::Workers;

/// Why there is no plan.
#[derive(Drop)]
pub enum Refusal {
    /// For this cause.
    Said(Cause),
    /// The site failed.
    Site,
    /// Want of memory.
    Memory,
}

/// What the words choose.
pub fn chosen(alloc: Global, words: &[String]) -> Result<Options, Refusal>
    ensures stage { Stage (choice words.now) result }
    ensures words { WordsStage (choice words.now) result }
    ensures kind { SaysRefusal result }
    ensures no_site { IsErrOf result Refusal.Site → ⊥ }
    ensures some { IfOk result (λ options. 0 < options.service.jobs) }
    ensures patient { IfOk result (λ options. 0 < options.limits.idle) }
{
    match read_words(alloc, words) {
        Ok(options) => Ok(options),
        Err(WordsFault::Usage) => Err(Refusal::Said(Cause::Usage)),
        Err(WordsFault::Memory) => Err(Refusal::Memory),
    }
}

// The plan, if its rules need no more than there is.
fn with_needs(plan: Plan, options: &RunOptions) -> Result<Plan, Refusal>
    requires { IsValid plan }
    ensures stage { Stage (with_needs options.now plan) result }
    ensures flow { (name : List ℕ) → OfFlow name result }
    ensures kind { SaysRefusal result }
    ensures same { IfOk result (λ p. p ≡ plan) }
    ensures fits { IfOk result (NeedsFit options.now) }
    ensures no_site { IsErrOf result Refusal.Site → ⊥ }
{
    match least_excess(options, plan.rules.as_slice()) {
        Some(Excess { rule, need, total }) => {
            Err(Refusal::Said(Cause::NeedsTooMuch { rule, need, total }))
        }
        None => Ok(plan),
    }
}

// The plan, where the log can have its name and no rule needs more than there is.
fn checked(
    alloc: Global,
    log: &Name,
    flow: Option<Name>,
    options: &RunOptions,
    plan: Plan,
) -> Result<Plan, Refusal>
    requires { IsValid plan }
    ensures stage { Stage (checked log.now flow options.now plan) result }
    ensures flow { (name : List ℕ) → OfFlow name result }
    ensures kind { SaysRefusal result }
    ensures valid { IfOk result IsValid }
    ensures apart { IfOk result (λ plan. (f : ℕ) → file_name plan f ≢ log.now) }
    ensures fits { IfOk result (NeedsFit options.now) }
    ensures no_site { IsErrOf result Refusal.Site → ⊥ }
{
    match with_log_name(alloc, log, flow, plan) {
        Ok(plan) => with_needs(plan, options),
        Err(refusal) => Err(refusal),
    }
}

// The plan of the flow file of this name, where its log and its needs let it be run.
fn file_plan<S: Site>(
    alloc: Global,
    language: Language,
    name: Name,
    log: &Name,
    options: &RunOptions,
    env: &[(String, String)],
    site: &mut S,
) -> Result<Plan, Refusal>
    ensures stage { S.tells → Stage
        (file_plan language (given_pairs env.now) (S.files site.old) name log.now options.now)
        result }
    ensures flow { OfFlow name result }
    ensures kind { SaysRefusal result }
    ensures valid { IfOk result IsValid }
    ensures apart { IfOk result (λ plan. (f : ℕ) → file_name plan f ≢ log.now) }
    ensures fits { IfOk result (NeedsFit options.now) }
    ensures files { S.tells → S.files site.new ≡ S.files site.old }
    ensures crash { S.tells → Within (S.may_leave site.old) (S.may_leave site.new) }
    ensures any_moment { S.tells → LeavesOnly S.moment S.images_since site.old site.new
        (IsImage (S.may_leave site.old)) }
    ensures trace { SiteTrace (S.count site.old) (S.count site.new) result }
{
    let Ok(flow) = name.copy(alloc) else {
        return Err(Refusal::Memory);
    };
    let text = match read_file(alloc, site, &name) {
        Ok(Some(text)) => text,
        Ok(None) => return Err(Refusal::Said(Cause::FlowMissing { name })),
        Err(Fault::Failed) => return Err(Refusal::Site),
        Err(Fault::Memory) => return Err(Refusal::Memory),
    };
    match flow_plan(alloc, language, name, text, env) {
        Ok(plan) => checked(alloc, log, Some(flow), options, plan),
        Err(refusal) => Err(refusal),
    }
}

// The plan of the flow of so many rules that is made up, where its log and its needs let it be run.
fn generated_plan(
    alloc: Global,
    rules: u32,
    log: &Name,
    options: &RunOptions,
) -> Result<Plan, Refusal>
    ensures stage { Stage (generated_plan rules log.now options.now) result }
    ensures flow { OfFlow generated_name result }
    ensures kind { SaysRefusal result }
    ensures valid { IfOk result IsValid }
    ensures apart { IfOk result (λ plan. (f : ℕ) → file_name plan f ≢ log.now) }
    ensures fits { IfOk result (NeedsFit options.now) }
    ensures no_site { IsErrOf result Refusal.Site → ⊥ }
{
    match generated_rules(alloc, rules) {
        Ok(plan) => checked(alloc, log, None, options, plan),
        Err(refusal) => Err(refusal),
    }
}

// The plan of this flow, where its log and its needs let it be run.
fn plan_by<S: Site>(
    alloc: Global,
    flow: Flow,
    log: &Name,
    options: &RunOptions,
    env: &[(String, String)],
    site: &mut S,
) -> Result<Plan, Refusal>
    ensures stage { S.tells → Stage
        (plan_by flow (given_pairs env.now) (S.files site.old) log.now options.now) result }
    ensures flow { OfFlow (flow_name flow) result }
    ensures kind { SaysRefusal result }
    ensures valid { IfOk result IsValid }
    ensures apart { IfOk result (λ plan. (f : ℕ) → file_name plan f ≢ log.now) }
    ensures fits { IfOk result (NeedsFit options.now) }
    ensures files { S.tells → S.files site.new ≡ S.files site.old }
    ensures crash { S.tells → Within (S.may_leave site.old) (S.may_leave site.new) }
    ensures any_moment { S.tells → LeavesOnly S.moment S.images_since site.old site.new
        (IsImage (S.may_leave site.old)) }
    ensures trace { SiteTrace (S.count site.old) (S.count site.new) result }
{
    match flow {
        Flow::File { name, language } => file_plan(alloc, language, name, log, options, env, site),
        Flow::Generated { rules } => generated_plan(alloc, rules, log, options),
    }
}

fn run_mode(mode: command_words::Mode) -> Mode
    ensures { result ≡ run_mode mode }
{
    match mode {
        command_words::Mode::Never => Mode::Never,
        command_words::Mode::RefCount => Mode::RefCount,
        command_words::Mode::OnDemand => Mode::OnDemand,
    }
}

// Whether rules run at workers.
fn has_workers(transport: Transport) -> bool
    ensures { result ≡ has_workers transport }
{
    match transport {
        Transport::Local => false,
        Transport::WorkQueue => true,
    }
}

// Where workers come.
fn workers_of(options: &Options) -> Workers
    ensures { result ≡ workers_of options.now }
{
    Workers {
        port: options.service.port,
        limit: options.limits.idle,
    }
}

// What a run goes by.
fn run_options(options: &Options) -> RunOptions
    ensures { result ≡ run_options options.now }
{
    RunOptions {
        mode: run_mode(options.mode),
        limit: options.limits.storage,
        retries: options.limits.retries,
        wq: has_workers(options.service.transport),
        local: options.local,
    }
}

/// What words, environment and files ask for.
pub fn read_ask<S: Site>(
    alloc: Global,
    words: &[String],
    env: &[(String, String)],
    site: &mut S,
) -> Result<Ask, Refusal>
    ensures stage { S.tells → Stage (request words.now env.now (S.files site.old)) result }
    ensures words { WordsStage (choice words.now) result }
    ensures kind { SaysRefusal result }
    ensures valid { IfOk result (λ ask. IsValid ask.plan) }
    ensures apart { IfOk result (λ ask. (f : ℕ) → file_name ask.plan f ≢ ask.log) }
    ensures fits { IfOk result (λ ask. NeedsFit ask.options ask.plan) }
    ensures asked { IfOk result (λ ask. (options : OptionsValue)
        → choice words.now ≡ Ok options → ask ≡ ask_of options ask.plan) }
    ensures goes_by { IfOk result (λ ask. (options : OptionsValue)
        → choice words.now ≡ Ok options → ask.options ≡ run_options options) }
    ensures meets { IfOk result (λ ask. (options : OptionsValue)
        → choice words.now ≡ Ok options → ask.workers ≡ workers_of options) }
    ensures jobs { IfOk result (λ ask. (options : OptionsValue)
        → choice words.now ≡ Ok options → ask.jobs ≡ options.service.jobs) }
    ensures some { IfOk result (λ ask. 0 < ask.jobs) }
    ensures patient { IfOk result (λ ask. 0 < ask.workers.limit) }
    ensures files { S.tells → S.files site.new ≡ S.files site.old }
    ensures crash { S.tells → Within (S.may_leave site.old) (S.may_leave site.new) }
    ensures any_moment { S.tells → LeavesOnly S.moment S.images_since site.old site.new
        (IsImage (S.may_leave site.old)) }
    ensures trace { SiteTrace (S.count site.old) (S.count site.new) result }
{
    let options = match chosen(alloc, words) {
        Ok(options) => options,
        Err(refusal) => return Err(refusal),
    };
    let goes_by = run_options(&options);
    let workers = workers_of(&options);
    let Options {
        work,
        flow,
        log,
        service,
        ..
    } = options;
    match plan_by(alloc, flow, &log, &goes_by, env, site) {
        Ok(plan) => Ok(Ask {
            plan,
            work,
            log,
            options: goes_by,
            workers,
            jobs: service.jobs,
        }),
        Err(refusal) => Err(refusal),
    }
}

//! The table that the lines of a text fill, line by line.
ghost use Rattle.std.specs.Prelude.{◌≡◌, ℕ, Bool, false, not, nat_lt, map, List};
ghost use Rattle.std.specs.Prelude.{[], ◌∷◌, ◌++◌, IfOk, MatchOption, MatchResult};
ghost use Rattle.mf_rules.specs.declared.steps.Formed.{Formed};
ghost use Rattle.mf_rules.specs.Tables.{environment_size};
ghost use Rattle.mf_rules.specs.Flow.{given_pairs, flow_at};
ghost use Rattle.mf_text.specs.Answers.{Fails};
ghost use Rattle.mf_rules.specs.Faults.{least, where_true};
ghost use Rattle.mf_rules.specs.Progress.{Goes, Stands, Drafts, table_pairs, refused, with_needs};

use crate::categories::{Categories, resource_of};
use crate::drafts::{Draft, Head};
use crate::faults::{check_command, first_of, head_files, stated_bound};
use crate::names::{MAX_COMMAND, value_or_empty};
use crate::steps::{Formed, Step};
use crate::variables::Variables;
use flow_types::{Memory, Pair, RawFlow, RawRule, Rows, SizeBound, Text};
use mf_forms::{Form, HeadFiles, Resource, command_in, is_local, words};
use mf_text::{MakeFault, expand, expand_shortened};
use std::alloc::Global;

/// What the lines read so far say.
#[derive(Drop)]
pub(crate) struct Reader {
    pub variables: Variables,
    pub categories: Categories,
    pub waiting: Option<Head>,
    pub drafts: Vec<Draft>,
    pub bounds: Vec<SizeBound>,
}

impl Reader {
    /// No line is read.
    pub(crate) fn new(alloc: Global, env: &[(String, String)]) -> Result<Reader, Memory>
        ensures { IfOk result (λ reader. Stands (given_pairs env.now) [] reader) }
    {
        let variables = Variables::new(alloc, env)?;
        let categories = Categories::new(alloc)?;
        Ok(Reader {
            variables,
            categories,
            waiting: None,
            drafts: Vec::new(alloc),
            bounds: Vec::new(alloc),
        })
    }

    /// Reads one more line.
    pub(crate) fn read(&mut self, alloc: Global, step: Step) -> Result<(), MakeFault>
        ensures { Goes self.old step.line step.is_answered result self.new }
    {
        let Step { line, is_answered } = step;
        let Formed { number, form } = line;
        match form {
            Form::Passed => Ok(()),
            Form::OpenQuote { is_head: _ } => Err(MakeFault::OpenQuote(number)),
            Form::Command(text) => self.command(alloc, number, &text),
            Form::Assignment {
                marks,
                name,
                appends,
                value,
            } => self.assign(alloc, number, marks, &name, appends, &value),
            Form::Marking(names) => self.mark(alloc, number, &names),
            Form::Category(text) => self.category(alloc, number, &text),
            Form::Amount(resource, text) => self.amount(alloc, number, resource, &text),
            Form::SizeBound(text) => self.bound(alloc, number, &text),
            Form::Head(text) => self.head(alloc, number, &text, is_answered),
        }
    }

    fn command(&mut self, alloc: Global, number: u32, text: &Text) -> Result<(), MakeFault>
        ensures { (answered : Bool) → Goes self.old
            (record { number = number; form = Form.Command text.now }) answered result self.new }
    {
        let is_waiting = self.waiting.is_some();
        match expand_shortened(alloc, &self.variables.values, number, text.as_str()) {
            Ok(made) => match check_command(number, &made, is_waiting) {
                Ok(()) => self.draft(alloc, made.text.as_str()),
                Err(fault) => Err(fault),
            },
            Err(fault) => Err(fault),
        }
    }

    // The command is taken, if its environment keeps the limit.
    fn draft(&mut self, alloc: Global, text: &str) -> Result<(), MakeFault>
        ensures { MatchResult result
            (λ _. Drafts self.old text.now (table_pairs self.old.variables) self.new
            × (nat_lt 1048576 (environment_size (table_pairs self.old.variables)) ≡ false))
            (λ fault. Fails fault (refused (least
            (where_true (nat_lt 1048576 (environment_size (table_pairs self.old.variables)))
            (MakeFault.TooLarge 1048576))))) }
    {
        match self.variables.marked.pairs(alloc, &self.variables.values) {
            Ok(found) => match found {
                Some(env) => self.push_draft(alloc, text, env),
                None => Err(MakeFault::TooLarge(MAX_COMMAND)),
            },
            Err(_) => Err(MakeFault::Memory),
        }
    }

    fn push_draft(&mut self, alloc: Global, text: &str, env: Rows<Pair>) -> Result<(), MakeFault>
        ensures { MatchResult result (λ _. Drafts self.old text.now env self.new)
            (λ fault. fault ≡ MakeFault.Memory) }
    {
        let Ok(command) = Text::of(alloc, command_in(text)) else {
            return Err(MakeFault::Memory);
        };
        let Some(head) = self.waiting.take() else {
            return Ok(());
        };
        let local = is_local(text);
        match self.drafts.push(Draft {
            head,
            command,
            local,
            env,
        }) {
            Ok(()) => Ok(()),
            Err(_) => Err(MakeFault::Memory),
        }
    }

    fn assign(
        &mut self,
        alloc: Global,
        number: u32,
        marks: bool,
        name: &Text,
        appends: bool,
        text: &Text,
    ) -> Result<(), MakeFault>
        ensures { (answered : Bool) → Goes self.old
            (record { number = number; form = Form.Assignment marks name.now appends text.now })
            answered result self.new }
    {
        let name = name.as_str();
        match expand(alloc, &self.variables.values, number, text.as_str()) {
            Ok(value) => match self.variables.assign(marks, name, appends, value.as_str()) {
                Ok(()) => {
                    let value = value_or_empty(&self.variables.values, name);
                    self.categories.heed(alloc, number, name, value)
                }
                Err(_) => Err(MakeFault::Memory),
            },
            Err(fault) => Err(first_of(
                fault,
                resource_of(name).is_some(),
                MakeFault::BadNumber(number),
            )),
        }
    }

    fn mark(&mut self, alloc: Global, number: u32, names: &Rows<Text>) -> Result<(), MakeFault>
        ensures { (answered : Bool) → Goes self.old
            (record { number = number; form = Form.Marking names.now }) answered result self.new }
    {
        self.variables.mark(alloc, number, names.as_slice())
    }

    fn category(&mut self, alloc: Global, number: u32, text: &Text) -> Result<(), MakeFault>
        ensures { (answered : Bool) → Goes self.old
            (record { number = number; form = Form.Category text.now }) answered result self.new }
    {
        match expand(alloc, &self.variables.values, number, text.as_str()) {
            Ok(text) => {
                self.categories.current = text;
                Ok(())
            }
            Err(fault) => Err(fault),
        }
    }

    fn amount(
        &mut self,
        alloc: Global,
        number: u32,
        resource: Resource,
        text: &Text,
    ) -> Result<(), MakeFault>
        ensures { (answered : Bool) → Goes self.old
            (record { number = number; form = Form.Amount resource text.now })
            answered result self.new }
    {
        match expand(alloc, &self.variables.values, number, text.as_str()) {
            Ok(text) => self.categories.set_amount(number, resource, text.as_str()),
            Err(fault) => Err(first_of(fault, true, MakeFault::BadNumber(number))),
        }
    }

    fn bound(&mut self, alloc: Global, number: u32, text: &Text) -> Result<(), MakeFault>
        ensures { (answered : Bool) → Goes self.old
            (record { number = number; form = Form.SizeBound text.now }) answered result self.new }
    {
        match expand_shortened(alloc, &self.variables.values, number, text.as_str()) {
            Ok(made) => match stated_bound(alloc, number, &made) {
                Ok(bound) => self.push_bound(bound),
                Err(fault) => Err(fault),
            },
            Err(fault) => Err(fault),
        }
    }

    fn head(
        &mut self,
        alloc: Global,
        number: u32,
        text: &Text,
        is_answered: bool,
    ) -> Result<(), MakeFault>
        ensures { Goes self.old (record { number = number; form = Form.Head text.now })
            is_answered result self.new }
    {
        match expand_shortened(alloc, &self.variables.values, number, text.as_str()) {
            Ok(made) => match head_files(alloc, number, &made, is_answered) {
                Ok(files) => self.wait(alloc, number, files),
                Err(fault) => Err(fault),
            },
            Err(fault) => Err(fault),
        }
    }

    // The head waits for its command.
    fn wait(&mut self, alloc: Global, place: u32, files: HeadFiles) -> Result<(), MakeFault>
        ensures { MatchResult result
            (λ _. self.new ≡ record self.old {
              waiting = Some (record {
                place = place;
                files = files;
                category = self.old.categories.current;
              });
            })
            (λ fault. fault ≡ MakeFault.Memory) }
    {
        match self.categories.current.copy(alloc) {
            Ok(category) => {
                self.waiting = Some(Head {
                    place,
                    files,
                    category,
                });
                Ok(())
            }
            Err(_) => Err(MakeFault::Memory),
        }
    }

    fn push_bound(&mut self, bound: SizeBound) -> Result<(), MakeFault>
        ensures rest { self.new ≡ record self.old { bounds = self.new.bounds } }
        ensures bounds { MatchResult result
            (λ _. self.new.bounds.items ≡ self.old.bounds.items ++ bound ∷ [])
            (λ fault. fault ≡ MakeFault.Memory) }
    {
        match self.bounds.push(bound) {
            Ok(()) => Ok(()),
            Err(_) => Err(MakeFault::Memory),
        }
    }

    /// The flow of the lines.
    pub(crate) fn finish(self, alloc: Global) -> Result<RawFlow, Memory>
        ensures { IfOk result (λ flow. (env : List (List ℕ × List ℕ)) (whole : List Formed) →
            Stands env whole self → flow ≡ flow_at env whole) }
    {
        let Reader {
            variables,
            categories,
            waiting: _,
            drafts,
            bounds,
        } = self;
        let outputs = value_or_empty(&variables.values, "MAKEFLOW_OUTPUTS");
        let keep = words(alloc, outputs)?;
        let rules = rules_of(alloc, &categories, drafts)?;
        Ok(RawFlow {
            rules: Rows::of(rules),
            keep,
            bounds: Rows::of(bounds),
        })
    }
}

// The rules with what their categories need.
fn rules_of(
    alloc: Global,
    categories: &Categories,
    drafts: Vec<Draft>,
) -> Result<Vec<RawRule>, Memory>
    ensures { IfOk result (λ rules. rules.items ≡ map (with_needs categories.now) drafts.items) }
{
    let mut drafts = drafts;
    drafts.shrink_to_fit();
    let Ok(mut rules) = Vec::with_capacity(alloc, drafts.len()) else {
        return Err(Memory);
    };
    for draft in drafts {
        let rule = with_needs(categories, draft);
        let Ok(()) = rules.push(rule) else {
            return Err(Memory);
        };
    }
    Ok(rules)
}

fn with_needs(categories: &Categories, draft: Draft) -> RawRule
    ensures { result ≡ with_needs categories.now draft }
{
    let Draft {
        head,
        command,
        local,
        env,
    } = draft;
    let Head {
        place,
        files,
        category,
    } = head;
    let HeadFiles { outputs, inputs } = files;
    RawRule {
        place,
        outputs,
        inputs,
        command,
        local,
        needs: categories.needs(category.as_str()),
        env,
    }
}

//! Worked printed lines, each proved by computing. Nothing calls these functions.
ghost use Rattle.std.specs.Prelude.{◌≡◌, ℕ, List, [], ◌∷◌, codes, pos, negsuc, Some, None};
ghost use Rattle.flow_types.specs.declared.job.Failure.TheVariants.{Status, MissingOutput, TooLong};
ghost use Rattle.flow_types.specs.declared.numbers.Content.{Content};
ghost use Rattle.flow_types.specs.declared.numbers.Digest.{Digest};
ghost use Rattle.mf_text.specs.declared.fault.MakeFault.TheVariants.{NotUtf8, UnknownName};
ghost use Rattle.mf_text.specs.declared.fault.MakeFault.TheVariants.{NoColon, TooLarge};
ghost use Rattle.rule_graph.specs.declared.faults.GraphFault.TheVariants.{BadName, NestedName};
ghost use Rattle.rule_graph.specs.declared.faults.GraphFault.TheVariants.{TwoMakers, Cycle};
ghost use Rattle.run_history.specs.declared.states.Found.{Found};
ghost use Rattle.report.specs.declared.cause.Cause.TheVariants.{Complete, Cleaned, Printed};
ghost use Rattle.report.specs.declared.cause.Cause.TheVariants.{Usage, FlowMissing, LogFull, NoRoom};
ghost use Rattle.report.specs.declared.cause.Cause.TheVariants.{LogNameTaken, LogDamaged};
ghost use Rattle.report.specs.declared.cause.Cause.TheVariants.{OtherFlow, NotLegal};
ghost use Rattle.report.specs.declared.cause.Cause.TheVariants.{StoredAboveLimit};
ghost use Rattle.report.specs.declared.cause.Cause.TheVariants.{SourceChanged, FileDamaged};
ghost use Rattle.report.specs.declared.cause.Cause.TheVariants.{NeedsTooMuch, HallFault, Waited};
ghost use Rattle.report.specs.declared.cause.Cause.TheVariants.{SourceTooLarge, InputsTooLarge};
ghost use Rattle.report.specs.declared.cause.Cause.TheVariants.{SiteFault, RunnerFault};
ghost use Rattle.report.specs.declared.cause.Cause.TheVariants.{SinkFault, Memory};
ghost use Rattle.report.specs.Lines.{line_of};
ghost use Rattle.report.specs.Examples.{one_rule, rule_failed, source_missing};
ghost use Rattle.report.specs.Examples.{refused_text, refused_jx, refused_rules};
ghost use Rattle.jx_tokens.specs.declared.fault.JxFault.TheVariants as syntax;
ghost use Rattle.jx_meaning.specs.declared.fault.EvalFault.TheVariants as evaluation;
ghost use Rattle.jx_flow.specs.declared.fault.JxFlowFault.TheVariants as jx;

/// What is printed of a run of one rule.
pub fn lines_of_a_run()
    ensures complete { line_of one_rule (Complete 1 0)
        ≡ codes "makeflow: complete, 1 rules, 0 files collected\n" }
    ensures collected { line_of one_rule (Complete 6 5)
        ≡ codes "makeflow: complete, 6 rules, 5 files collected\n" }
    ensures status { line_of one_rule (rule_failed 0 (Status (pos 3)))
        ≡ codes "makeflow: rule 0 failed: status 3\n" }
    ensures signed { line_of one_rule (rule_failed 0 (Status (negsuc 0)))
        ≡ codes "makeflow: rule 0 failed: status -1\n" }
    ensures missing { line_of one_rule (rule_failed 0 (MissingOutput 0))
        ≡ codes "makeflow: rule 0 failed: output out missing\n" }
    ensures too_large { line_of one_rule (InputsTooLarge (record { 0 = 0 }) 134217729)
        ≡ codes "makeflow: inputs of rule 0 too large: 134217729\n" }
    ensures no_room { line_of one_rule (NoRoom (record { 0 = 2 }) 40 80 100)
        ≡ codes "makeflow: no room for rule 2: needs 40, stored 80, limit 100\n" }
    ensures waited { line_of one_rule (Waited (record { idles = 3; rule = record { 0 = 0 } }))
        ≡ codes "makeflow: waited, 3 idle, rule 0\n" }
    ensures too_long { line_of one_rule (rule_failed 0 (TooLong 0 4))
        ≡ codes "makeflow: rule 0 failed: output out too long, 4 bytes\n" }
{}

/// What is printed where no rule runs.
pub fn lines_of_refusals()
    ensures usage { line_of one_rule Usage ≡ codes "makeflow: usage: makeflow [options] FILE\n" }
    ensures flow { line_of one_rule (FlowMissing (codes "flow"))
        ≡ codes "makeflow: no flow file flow\n" }
    ensures needs { line_of one_rule (NeedsTooMuch (record { 0 = 0 }) 65 64)
        ≡ codes "makeflow: rule 0 needs 65, there is 64\n" }
    ensures source { line_of one_rule (source_missing 0) ≡ codes "makeflow: source in missing\n" }
    ensures large_source { line_of one_rule (SourceTooLarge (record { 0 = 0 }) 67108865)
        ≡ codes "makeflow: source in too large\n" }
{}

/// What is printed where the log is refused, or what it says of a file, and of work on the log.
/// Digests and contents aren't printed.
pub fn lines_of_logs()
    ensures taken { (file : List ℕ) → line_of one_rule (LogNameTaken file)
        ≡ codes "makeflow: the log's name is in the flow\n" }
    ensures damaged { line_of one_rule (LogDamaged 141) ≡ codes "makeflow: log damaged at 141\n" }
    ensures other_flow { (logged found : Digest) → line_of one_rule (OtherFlow logged found)
        ≡ codes "makeflow: the log is of another flow\n" }
    ensures not_legal { line_of one_rule (NotLegal 3)
        ≡ codes "makeflow: log record 3 is not allowed\n" }
    ensures stored { line_of one_rule (StoredAboveLimit 120 100)
        ≡ codes "makeflow: stored 120 is above the limit 100\n" }
    ensures source { (logged : Content) (found : Found)
        → line_of one_rule (SourceChanged (record { 0 = 0 }) logged found)
        ≡ codes "makeflow: source in changed\n" }
    ensures made { (logged : Content) (found : Found)
        → line_of one_rule (FileDamaged (record { 0 = 1 }) logged found)
        ≡ codes "makeflow: file out damaged\n" }
    ensures full { (records : ℕ) → line_of one_rule (LogFull records)
        ≡ codes "makeflow: log full\n" }
    ensures cleaned { line_of one_rule (Cleaned 1) ≡ codes "makeflow: cleaned, 1 files removed\n" }
    ensures printed { (lines : ℕ) → line_of one_rule (Printed lines) ≡ [] }
{}

/// What is printed where the text of a flow is refused.
pub fn lines_of_texts()
    ensures utf8 { line_of one_rule (refused_text (NotUtf8 7))
        ≡ codes "makeflow: flow: not UTF-8 at 7\n" }
    ensures name { line_of one_rule (refused_text (UnknownName 2 (codes "X")))
        ≡ codes "makeflow: flow: line 2: unknown name X\n" }
    ensures colon { line_of one_rule (refused_text (NoColon 12))
        ≡ codes "makeflow: flow: line 12: no colon\n" }
    ensures large { line_of one_rule (refused_text (TooLarge 16777216))
        ≡ codes "makeflow: flow: too large\n" }
{}

/// What is printed where a JX text is refused.
pub fn lines_of_jx()
    ensures syntax { line_of one_rule (refused_jx (jx.Syntax (syntax.Unexpected 7)))
        ≡ codes "makeflow: flow: syntax fault at 7\n" }
    ensures large { line_of one_rule (refused_jx (jx.Syntax syntax.TooLarge))
        ≡ codes "makeflow: flow: too large\n" }
    ensures value { line_of one_rule (refused_jx (jx.Evaluation (evaluation.Overflow 20)))
        ≡ codes "makeflow: flow: evaluation fault at 20\n" }
    ensures missing { line_of one_rule (refused_jx (jx.MissingField (Some 0) (codes "outputs")))
        ≡ codes "makeflow: flow: missing field outputs\n" }
    ensures kind { line_of one_rule (refused_jx (jx.FieldKind None (codes "define")))
        ≡ codes "makeflow: flow: bad field define\n" }
    ensures category { line_of one_rule (refused_jx (jx.UnknownCategory 2))
        ≡ codes "makeflow: flow: unknown category\n" }
{}

/// What is printed where the rules of a flow are no plan.
pub fn lines_of_rules()
    ensures name { line_of one_rule
        (refused_rules (BadName (record { 0 = 0 }) (codes "/etc/passwd")))
        ≡ codes "makeflow: flow: rule 0: bad name /etc/passwd\n" }
    ensures nested { line_of one_rule (refused_rules (NestedName (codes "a") (codes "a/b")))
        ≡ codes "makeflow: flow: nested names a and a/b\n" }
    ensures makers { line_of one_rule
        (refused_rules (TwoMakers (codes "x") (record { 0 = 0 }) (record { 0 = 1 })))
        ≡ codes "makeflow: flow: two rules make x: 0 and 1\n" }
    ensures cycle { line_of one_rule
        (refused_rules (Cycle (record { 0 = 0 } ∷ record { 0 = 1 } ∷ [])))
        ≡ codes "makeflow: flow: cycle of rules 0 1\n" }
{}

/// What is printed where something failed that the run stands on.
pub fn lines_of_faults()
    ensures site { line_of one_rule (SiteFault 0 1) ≡ codes "makeflow: folder fault\n" }
    ensures runner { line_of one_rule (RunnerFault 0 1) ≡ codes "makeflow: runner fault\n" }
    ensures hall { line_of one_rule (HallFault 0 1) ≡ codes "makeflow: network fault\n" }
    ensures sink { line_of one_rule (SinkFault 0 1) ≡ [] }
    ensures memory { line_of one_rule Memory ≡ codes "makeflow: out of memory\n" }
{}

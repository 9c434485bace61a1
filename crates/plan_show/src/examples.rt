//! Worked texts, each proved by computing. Nothing calls these functions.
ghost use Rattle.std.specs.Prelude.{◌≡◌, [], ◌∷◌, ◌++◌, codes};
ghost use Rattle.plan_show.specs.Shown.{quoted};
ghost use Rattle.plan_show.specs.Rules.{rules_text};
ghost use Rattle.plan_show.specs.Files.{files_text};
ghost use Rattle.plan_show.specs.Graph.{graph_text};
ghost use Rattle.plan_show.specs.Examples.{two_rules};

/// The texts of a plan of two rules.
pub fn texts_of_a_plan()
    ensures rules { rules_text two_rules ≡
        codes "rule 0:\n  output \"b\", at most 7 bytes\n  input \"a\"\n  command \"cp a b\"\n"
        ++ codes "  needs 2 cores, 10 MB of memory, 0 MB of disk\n  variable \"A\" is \"\\\"\\\\\"\n"
        ++ codes "rule 1:\n  output \"c\", at most 67108864 bytes\n  input \"b\" as \"t\"\n"
        ++ codes "  command \"cp t c\"\n  local\n  needs a whole worker\n" }
    ensures files { files_text two_rules ≡
        codes "\"a\": source, taken by 0\n\"b\": made by 0, taken by 1\n\"c\": made by 1\n" }
    ensures graph { graph_text two_rules ≡
        codes "digraph flow {\n  node [shape=box];\n  0 [label=\"0: b\"];\n"
        ++ codes "  1 [label=\"1: c\"];\n  0 -> 1 [label=\"b\"];\n}\n" }
{}

/// Names with characters that have escapes.
pub fn texts_of_names()
    ensures marks { quoted (codes "a\"\\\n\r\tb") ≡ codes "\"a\\\"\\\\\\n\\r\\tb\"" }
    ensures codes { quoted (codes "\u{1}\u{1f}\u{7f}") ≡ codes "\"\\u0001\\u001f\\u007f\"" }
    ensures late { quoted (194 ∷ 155 ∷ []) ≡ codes "\"\\u009b\"" }
    ensures empty { quoted [] ≡ codes "\"\"" }
{}

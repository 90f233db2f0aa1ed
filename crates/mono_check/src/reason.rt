//! Why an answer is rejected.

ghost use Rattle.std.specs.Prelude.{◌≡◌};
ghost use Rattle.mono_check.specs.Names.{reason_name};

/// Why an answer is rejected.
#[derive(Clone, Copy, Debug, PartialEq, Eq)]
pub enum Reason {
    /// The first line that is no blank line, comment or leading version line is no status line, or there is no such line.
    NotAnswer,
    /// The grammar has no such line here.
    BadLine,
    /// No predicate has the number of a lemma.
    UnknownAtom,
    /// The witness of a lemma is not one for its predicate.
    WrongKind,
    /// A literal's variable is beyond the problem's, the predicate's graph has no such node or edge, or no earlier clause
    /// has a number that a chain names.
    UnknownNumber,
    /// The witness of a lemma passes its test, and the clause lacks a literal that it calls for.
    MissingLiteral,
    /// The witness of a lemma passes its test over no part of the graph.
    WitnessFails,
    /// At some step of a chain not exactly one variable clashes.
    ChainStuck,
    /// The end of a chain isn't within the chain's clause.
    NotCovered,
    /// The last step of a refutation isn't a chain with the empty clause.
    NoEmptyClause,
    /// A variable of a model is beyond the problem's, occurs twice, or has no value.
    ModelVariables,
    /// The model makes the clause of this number false, and none before it.
    ClauseFalse(u32),
    /// The model gives the variable of the predicate of this number a value that differs from what holds in its graph, and
    /// that of none before it.
    AtomWrong(u32),
}

impl Reason {
    /// The name of the reason, as it is printed. A number that the reason carries isn't part of it.
    pub fn name(self) -> &'static str
        ensures { result.now ≡ reason_name self }
    {
        match self {
            Reason::NotAnswer => "NotAnswer",
            Reason::BadLine => "BadLine",
            Reason::UnknownAtom => "UnknownAtom",
            Reason::WrongKind => "WrongKind",
            Reason::UnknownNumber => "UnknownNumber",
            Reason::MissingLiteral => "MissingLiteral",
            Reason::WitnessFails => "WitnessFails",
            Reason::ChainStuck => "ChainStuck",
            Reason::NotCovered => "NotCovered",
            Reason::NoEmptyClause => "NoEmptyClause",
            Reason::ModelVariables => "ModelVariables",
            Reason::ClauseFalse(_) => "ClauseFalse",
            Reason::AtomWrong(_) => "AtomWrong",
        }
    }
}

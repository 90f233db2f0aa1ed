//! Faults of an input.

ghost use Rattle.std.specs.Prelude.{◌≡◌};
ghost use Rattle.mono_gnf.specs.Names.{fault_name};

/// What is wrong with a line of an input.
#[derive(Clone, Copy, PartialEq, Eq, Debug)]
pub enum GnfFault {
    /// The first token is no word of the format, or `p` is followed by another name than `cnf` and `gnf`.
    UnknownWord,
    /// A field or a literal isn't a number of its kind.
    NotNumber,
    /// A field or a literal is above its limit.
    TooLarge,
    /// The word's form has another number of tokens.
    FieldCount,
    /// No line before declares the graph.
    UnknownGraph,
    /// A line before declares a graph of the same identity.
    DuplicateGraph,
    /// The graph hasn't the node, or a graph of no nodes is declared.
    NodeOutOfRange,
    /// Variable 0.
    BadVariable,
    /// A weight word other than `int`.
    WeightWord,
    /// A line before is a header.
    SecondHeader,
    /// A word line stands within a clause.
    OpenClause,
    /// The input ends within a clause, of which the line has the last literal.
    UnfinishedClause,
    /// A flow from a node to itself.
    SameEnds,
    /// There are more graphs, nodes, edges, predicates, clauses or literals than an input may have.
    TooMany,
}

impl GnfFault {
    /// The variant's name.
    pub fn name(self) -> &'static str
        ensures { result.now ≡ fault_name self }
    {
        match self {
            GnfFault::UnknownWord => "UnknownWord",
            GnfFault::NotNumber => "NotNumber",
            GnfFault::TooLarge => "TooLarge",
            GnfFault::FieldCount => "FieldCount",
            GnfFault::UnknownGraph => "UnknownGraph",
            GnfFault::DuplicateGraph => "DuplicateGraph",
            GnfFault::NodeOutOfRange => "NodeOutOfRange",
            GnfFault::BadVariable => "BadVariable",
            GnfFault::WeightWord => "WeightWord",
            GnfFault::SecondHeader => "SecondHeader",
            GnfFault::OpenClause => "OpenClause",
            GnfFault::UnfinishedClause => "UnfinishedClause",
            GnfFault::SameEnds => "SameEnds",
            GnfFault::TooMany => "TooMany",
        }
    }
}

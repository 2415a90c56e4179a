//! The reasons for which a text or a claim is refused.

ghost use Rattle.std.specs.Prelude.{◌≡◌};
ghost use Rattle.dimacs_records.specs.Names.{name_of};

use std::fmt;

/// Why a text or a claim is refused: first the reasons for texts, then those of judges and certifiers.
#[derive(Clone, Copy, Debug, PartialEq, Eq)]
pub enum Reason {
    /// The line has more than `MAX_LINE` bytes.
    LineTooLong,
    /// The first field is no letter of the kind.
    UnknownLine,
    /// No form of the letter has as many fields as the line.
    FieldCount,
    /// The field isn't an optional sign and one or more digits.
    BadNumber,
    /// The number is outside the range of its field.
    NumberRange,
    /// The field isn't the word that the form has there.
    BadWord,
    /// There is no problem line, or a record stands before it.
    ProblemMissing,
    /// There is an earlier problem line.
    ProblemTwice,
    /// The record comes too late, isn't of the kind announced, or belongs to no block.
    RecordOrder,
    /// The node is above NODES.
    NodeRange,
    /// An earlier line has this node; for a label, an earlier line of its block.
    NodeTwice,
    /// An earlier node line has this end.
    EndTwice,
    /// Source or sink is missing.
    EndMissing,
    /// A bound is negative, or CAP is less than LOW.
    BoundOrder,
    /// Never given.
    ParallelArc,
    /// There are more lines than declared, or more labels in a block.
    TooMany,
    /// There are fewer lines than declared, or fewer labels in a block.
    TooFew,
    /// A solution has no value.
    SolutionMissing,
    /// A solution has an earlier value.
    SolutionTwice,
    /// The predecessor isn't the source, and has no earlier label in the block.
    PredUnknown,
    /// The text has more than `MAX_LINES` lines.
    LineLimit,
    /// The distance is greater than the RADIUS of its block.
    PastRadius,
    /// No arc has these ends.
    UnknownArc,
    /// There are more entries with these ends than arcs.
    ArcTwice,
    /// The flow of the arc is less than LOW, or than 0.
    BelowLow,
    /// The flow of the arc is greater than CAP.
    AboveCap,
    /// The outflow of the node less its inflow isn't its supply; in a maximum flow, isn't 0.
    Balance,
    /// A sum of costs is outside -10^30 to 10^30.
    CostRange,
    /// The value or cost isn't the flow's.
    ValueDiffers,
    /// The text and the instance differ in the number of nodes.
    NodesDiffer,
    /// The source isn't in the cut.
    SourceOutside,
    /// The sink is in the cut.
    SinkInside,
    /// The arc leaves the cut and doesn't carry CAP.
    NotSaturated,
    /// The arc enters the cut and carries flow.
    BackFlow,
    /// The arc breaks complementary slackness under the potentials.
    NotTight,
    /// The bounds of the arcs allow the supply of the set to flow out of it.
    NotViolated,
    /// The node of a query is no node of the graph.
    QueryNode,
    /// A query has no block that answers it.
    BlockMissing,
    /// No arc from the predecessor gives the label its distance; or no chain of tight arcs leads to the node.
    NoTightArc,
    /// The arc leads from a labelled node to one without a label, not beyond the RADIUS.
    Escapes,
    /// The arc gives a shorter distance than claimed.
    NotShortest,
    /// The graph has a negative weight, and the block a RADIUS.
    NegativeWeight,
    /// A feasible flow has a greater value.
    NotMaximum,
    /// A feasible flow costs less.
    NotLeast,
    /// A feasible flow exists.
    Feasible,
}

impl fmt::Display for Reason {
    fn fmt<W: fmt::Write>(&self, f: &mut fmt::Formatter<W>) -> fmt::Result {
        f.write_str(self.name())
    }
}

impl Reason {
    /// The reason's name in a printed refusal.
    pub fn name(&self) -> &str
        ensures { result.now ≡ name_of self.now }
    {
        match self {
            Reason::LineTooLong => "LineTooLong",
            Reason::UnknownLine => "UnknownLine",
            Reason::FieldCount => "FieldCount",
            Reason::BadNumber => "BadNumber",
            Reason::NumberRange => "NumberRange",
            Reason::BadWord => "BadWord",
            Reason::ProblemMissing => "ProblemMissing",
            Reason::ProblemTwice => "ProblemTwice",
            Reason::RecordOrder => "RecordOrder",
            Reason::NodeRange => "NodeRange",
            Reason::NodeTwice => "NodeTwice",
            Reason::EndTwice => "EndTwice",
            Reason::EndMissing => "EndMissing",
            Reason::BoundOrder => "BoundOrder",
            Reason::ParallelArc => "ParallelArc",
            Reason::TooMany => "TooMany",
            Reason::TooFew => "TooFew",
            Reason::SolutionMissing => "SolutionMissing",
            Reason::SolutionTwice => "SolutionTwice",
            Reason::PredUnknown => "PredUnknown",
            Reason::LineLimit => "LineLimit",
            Reason::PastRadius => "PastRadius",
            Reason::UnknownArc => "UnknownArc",
            Reason::ArcTwice => "ArcTwice",
            Reason::BelowLow => "BelowLow",
            Reason::AboveCap => "AboveCap",
            Reason::Balance => "Balance",
            Reason::CostRange => "CostRange",
            Reason::ValueDiffers => "ValueDiffers",
            Reason::NodesDiffer => "NodesDiffer",
            Reason::SourceOutside => "SourceOutside",
            Reason::SinkInside => "SinkInside",
            Reason::NotSaturated => "NotSaturated",
            Reason::BackFlow => "BackFlow",
            Reason::NotTight => "NotTight",
            Reason::NotViolated => "NotViolated",
            Reason::QueryNode => "QueryNode",
            Reason::BlockMissing => "BlockMissing",
            Reason::NoTightArc => "NoTightArc",
            Reason::Escapes => "Escapes",
            Reason::NotShortest => "NotShortest",
            Reason::NegativeWeight => "NegativeWeight",
            Reason::NotMaximum => "NotMaximum",
            Reason::NotLeast => "NotLeast",
            Reason::Feasible => "Feasible",
        }
    }
}

//! Records: lines without their spelling.

ghost use Rattle.std.specs.Prelude.{◌≡◌};
ghost use Rattle.dimacs_records.specs.Spelling.{end_word, query_word};

/// What a line of a text spells, whatever its blanks and the form of its numbers. IDs count from 1.
#[derive(Clone, Copy, Debug, PartialEq, Eq)]
pub enum Record {
    /// `p max NODES ARCS`
    MaxProblem {
        nodes: u32,
        arcs: u32,
    },
    /// `n ID s` or `n ID t`
    MaxNode {
        id: u32,
        end: End,
    },
    /// `a TAIL HEAD CAP`
    MaxArc {
        tail: u32,
        head: u32,
        cap: i64,
    },
    /// `p min NODES ARCS`
    MinProblem {
        nodes: u32,
        arcs: u32,
    },
    /// `n ID SUPPLY`
    MinNode {
        id: u32,
        supply: i64,
    },
    /// `a TAIL HEAD LOW CAP COST`
    MinArc {
        tail: u32,
        head: u32,
        low: i64,
        cap: i64,
        cost: i64,
    },
    /// `p sp NODES ARCS`
    GraphProblem {
        nodes: u32,
        arcs: u32,
    },
    /// `a TAIL HEAD WEIGHT`
    GraphArc {
        tail: u32,
        head: u32,
        weight: i64,
    },
    /// `p aux sp ss K` or `p aux sp p2p K`
    QueriesProblem {
        asks: QueryKind,
        count: u32,
    },
    /// `s ID`
    SourceQuery {
        id: u32,
    },
    /// `q FROM TO`
    PairQuery {
        from: u32,
        to: u32,
    },
    /// `s VALUE`
    SolutionValue {
        value: i128,
    },
    /// `f TAIL HEAD FLOW`
    SolutionEntry {
        tail: u32,
        head: u32,
        flow: i64,
    },
    /// `p cut NODES K`
    CutProblem {
        nodes: u32,
        count: u32,
    },
    /// `u ID`
    CutNode {
        id: u32,
    },
    /// `p pot NODES K`
    PotentialsProblem {
        nodes: u32,
        count: u32,
    },
    /// `y ID VALUE`
    PotentialsNode {
        id: u32,
        value: i128,
    },
    /// `p dist NODES B`
    LabelsProblem {
        nodes: u32,
        blocks: u32,
    },
    /// `t SOURCE K` or `t SOURCE K RADIUS`
    LabelsBlock {
        source: u32,
        count: u32,
        radius: Option<i128>,
    },
    /// `d ID DIST PRED`
    LabelsNode {
        id: u32,
        dist: i128,
        pred: u32,
    },
    /// `p distances NODES B`
    DistancesProblem {
        nodes: u32,
        blocks: u32,
    },
    /// `t SOURCE K`
    DistancesBlock {
        source: u32,
        count: u32,
    },
    /// `d ID DIST`
    DistancesNode {
        id: u32,
        dist: i128,
    },
}

/// Source or sink of a maximum flow.
#[derive(Clone, Copy, Debug, PartialEq, Eq)]
pub enum End {
    Source,
    Sink,
}

impl End {
    /// The word for it on a node line: `s` or `t`.
    pub fn word(self) -> &'static [u8]
        ensures { result.now ≡ end_word self }
    {
        match self {
            End::Source => b"s",
            End::Sink => b"t",
        }
    }
}

/// What the queries of a text ask.
#[derive(Clone, Copy, Debug, PartialEq, Eq)]
pub enum QueryKind {
    /// `ss`: the distances from one node to all nodes.
    Sources,
    /// `p2p`: the distance from one node to another.
    Pairs,
}

impl QueryKind {
    /// The word for it on a problem line.
    pub fn word(self) -> &'static [u8]
        ensures { result.now ≡ query_word self }
    {
        match self {
            QueryKind::Sources => b"ss",
            QueryKind::Pairs => b"p2p",
        }
    }
}

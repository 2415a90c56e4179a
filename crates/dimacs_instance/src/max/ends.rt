//! The node lines of a maximum flow instance: they name its source and its sink.

ghost use Rattle.std.specs.{Prelude.{◌≡◌, ◌++◌, ◌∷◌, [], false}, List.{list_any}};
ghost use Rattle.dimacs_records.specs.{Earlier.{names, is_end_node}, Conditions.{lacks_end}};
ghost use Rattle.dimacs_instance.specs.inside.MaxReading.{AreEnds};
ghost use Rattle.dimacs_instance.specs.MaxReading.{end_records, max_node, EndsAreDistinct};

use dimacs_records::End;

/// A node line: it names the source or the sink.
#[derive(Clone, Copy)]
pub(crate) struct EndLine {
    pub(crate) node: u32,
    pub(crate) end: End,
}

/// The node lines so far, in their order.
#[derive(Clone, Copy)]
pub(crate) enum EndLines {
    Neither,
    One(EndLine),
    Both(EndLine, EndLine),
}

impl EndLines {
    pub(crate) fn names(self, node: u32) -> bool
        ensures { result ≡ list_any (names node) (end_records self) }
    {
        match self {
            EndLines::Neither => false,
            EndLines::One(first) => first.node == node,
            EndLines::Both(first, second) => first.node == node || second.node == node,
        }
    }

    pub(crate) fn has(self, end: End) -> bool
        ensures { result ≡ list_any (is_end_node end) (end_records self) }
    {
        match self {
            EndLines::Neither => false,
            EndLines::One(first) => first.end == end,
            EndLines::Both(first, second) => first.end == end || second.end == end,
        }
    }

    #[inline(always)]
    pub(crate) fn lacks_end(self) -> bool
        ensures { result ≡ lacks_end (end_records self) }
    {
        match self {
            EndLines::Neither | EndLines::One(_) => true,
            EndLines::Both(..) => false,
        }
    }

    /// The source, then the sink.
    pub(crate) fn in_order(self) -> (u32, u32)
        requires distinct { EndsAreDistinct self }
        requires both { lacks_end (end_records self) ≡ false }
        ensures { AreEnds self result.0 result.1 }
    {
        let EndLines::Both(first, second) = self else {
            unreachable!()
        };
        match first.end {
            End::Source => (first.node, second.node),
            End::Sink => (second.node, first.node),
        }
    }

    /// Adds a line for another node and the other end.
    pub(crate) fn and(self, line: EndLine) -> EndLines
        requires distinct { EndsAreDistinct self }
        requires other_node { list_any (names line.node) (end_records self) ≡ false }
        requires other_end { list_any (is_end_node line.end) (end_records self) ≡ false }
        ensures lines { end_records result ≡ end_records self ++ max_node line ∷ [] }
        ensures distinct { EndsAreDistinct result }
    {
        match self {
            EndLines::Neither => EndLines::One(line),
            EndLines::One(first) => EndLines::Both(first, line),
            EndLines::Both(..) => unreachable!(),
        }
    }
}

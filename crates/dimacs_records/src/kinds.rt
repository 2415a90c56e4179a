//! The nine kinds of text.

/// The kind of a text: an instance, queries, a claim or a certificate.
#[derive(Clone, Copy, Debug, PartialEq, Eq)]
pub enum TextKind {
    /// A maximum flow instance, as in the first DIMACS challenge.
    Max,
    /// A minimum cost flow instance, as in the first DIMACS challenge.
    Min,
    /// A graph for shortest paths, as in the ninth DIMACS challenge (`.gr`).
    Graph,
    /// Shortest path queries, as in the ninth DIMACS challenge (`.ss` and `.p2p`).
    Queries,
    /// A claimed flow with its value or cost, as in the first DIMACS challenge.
    Solution,
    /// A set of nodes: the certificate of a maximum flow or of infeasibility.
    Cut,
    /// Node potentials: the certificate of a minimum cost flow.
    Potentials,
    /// Distance labels with predecessors, in a block for each source: a certificate.
    Labels,
    /// Distances without predecessors, in a block for each source: a claim.
    Distances,
}

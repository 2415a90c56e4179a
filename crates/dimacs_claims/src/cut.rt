//! Sets of nodes: the source's side of a cut, or a set whose supply can't be met.

ghost use Rattle.std.specs.Prelude.{◌≡◌, ◌≤◌, ◌<◌, ◌+◌, ℕ, List, None, Some, OnOk, OnErr, false, if◌then◌else◌, length, refl};
ghost use Rattle.std.specs.FinSet as set;
ghost use Rattle.dimacs_lines.specs.{Limits.{most_nodes, IsNode}, Lines.{lines}, Puts.{Puts}};
ghost use Rattle.dimacs_network.specs.Skips.{Skips};
ghost use Rattle.dimacs_records.specs.declared.kinds.TextKind.TheVariants as kinds;
ghost use Rattle.dimacs_records.specs.{declared.records.Record.TheVariants.{CutNode}, Faults.{Fault}, Texts.{Reads}};
ghost use Rattle.dimacs_records.specs.Readings.{CountsRead};
ghost use Rattle.dimacs_claims.specs.Cuts.{CutValue, IsCut, GivesCut, SpellsCut, canonical_cut, empty_cut, ids_in, shown_cut, with_node};
ghost use Rattle.dimacs_claims.specs.CutReading.{IsCutBegunBy, plain_context, context};

use crate::show::show_nodes;
use dimacs_lines::{DeviceFault, Memory, Sink, Source};
use dimacs_network::NodeSet;
use dimacs_records::{
    Builder, Context, CountedReading, Declared, ReadError, Record, Text, TextKind, Writable,
    put_sparse_text, read_counted,
};
use std::alloc::Global;
use std::marker::Model;

/// A set of nodes of an instance.
#[derive(Drop)]
pub struct Cut {
    nodes: u32,
    ids: NodeSet,
    len: u32,
}

impl Model for Cut {
    ghost use Rattle.std.specs.Prelude.{◌≡◌, length};
    ghost use Rattle.dimacs_claims.specs.Cuts.{CutValue, IsCut, ids_in};
    ghost use Rattle.dimacs_claims.specs.CutReading.{cut_code};

    ghost Value = { CutValue };

    ghost coded = { cut_code };

    ghost view = { λ c. record { nodes = c.nodes; ids = c.ids } };

    ghost invariant = { λ c. IsCut (record { nodes = c.nodes; ids = c.ids }) × (c.len ≡ length (ids_in (record { nodes = c.nodes; ids = c.ids }))) };
}

impl Cut {
    /// The empty set in an instance with `nodes` nodes. Allocates nothing.
    pub fn new(alloc: Global, nodes: u32) -> Cut
        requires { nodes ≤ most_nodes }
        ensures { result ≡ empty_cut nodes }
    {
        Cut {
            nodes,
            ids: NodeSet::new(alloc),
            len: 0,
        }
    }

    /// The number of nodes of the instance, NODES of the text.
    #[inline]
    pub fn nodes(&self) -> u32
        ensures { result ≡ self.now.nodes }
    {
        self.nodes
    }

    /// The number of nodes in the set.
    #[inline]
    pub fn len(&self) -> u32
        ensures count { result ≡ length (ids_in self.now) }
        ensures lawful { IsCut self.now }
    {
        self.len
    }

    /// Whether the set has this node; false for an ID above the number of nodes.
    #[inline]
    pub fn contains(&self, id: u32) -> bool
        ensures { result ≡ set.contains self.now.ids id }
    {
        self.ids.contains(id)
    }

    /// Goes from `from` over nodes that aren't in the set, at most to `end`.
    #[inline]
    pub fn next(&self, from: u32, end: u32) -> u32
        requires { from ≤ end }
        ensures { Skips (λ id. set.contains self.now.ids id ≡ false) from end result }
    {
        self.ids.next(from, end)
    }

    /// Adds a node, which may be in the set already.
    pub fn add(&mut self, id: u32) -> Result<(), Memory>
        requires { IsNode self.old.nodes id }
        ensures added { OnOk result (self.new ≡ with_node self.old id) }
        ensures unchanged { OnErr result (self.new ≡ self.old) }
    {
        if self.ids.contains(id) {
            return Ok(());
        }
        self.ids.insert(id)?;
        self.len += 1;
        Ok(())
    }
}

/// Reads the records of a set of nodes.
pub type CutReading = CountedReading<CutBuilder>;

/// A set of nodes while its text is read: the nodes after the problem line.
#[derive(Drop)]
pub struct CutBuilder {
    declared: u32,
    cut: Cut,
}

impl Model for CutBuilder {
    ghost use Rattle.dimacs_claims.specs.CutReading.{CutBegun, begun_code};

    ghost Value = { CutBegun };

    ghost coded = { begun_code };

    ghost view = { λ b. record { declared = b.declared; cut = b.cut } };
}

impl Builder for CutBuilder {
    type Value = Cut;

    ghost kind = { kinds.Cut };

    ghost built_from = { λ begun rs. IsCutBegunBy begun rs };

    ghost context = { λ begun r. context begun r };

    ghost end_context = { λ begun. plain_context begun };

    ghost gives = { λ rs c. GivesCut rs c };

    fn kind() -> TextKind {
        TextKind::Cut
    }

    #[tactic(auto, using(crate::proofs::CutLemmas::begins))]
    fn begin(alloc: Global, problem: Record) -> CutBuilder {
        let Record::CutProblem { nodes, count } = problem else {
            unreachable!()
        };
        CutBuilder {
            declared: count,
            cut: Cut::new(alloc, nodes),
        }
    }

    #[inline(always)]
    fn context(&self, rec: Record) -> Context {
        match rec {
            Record::CutNode { id } => Context {
                named: self.cut.contains(id),
                ..self.end_context()
            },
            Record::CutProblem { .. } => self.end_context(),
            _ => unreachable!(),
        }
    }

    #[inline(always)]
    fn keep(&mut self, rec: Record) -> Result<(), Memory> {
        let Record::CutNode { id } = rec else {
            unreachable!()
        };
        self.cut.add(id)
    }

    #[inline(always)]
    fn end_context(&self) -> Context {
        let nodes = Some(self.cut.nodes());
        let count = self.declared;
        Context::of(Some(Declared { nodes, count }), self.cut.len())
    }

    fn value(self, _alloc: Global) -> Result<Cut, Memory> {
        Ok(self.cut)
    }

    ghost has_problem = { refl };
}

/// Reads the text of a set of nodes. `docs/TEXTS.md` has the rules and the order of faults.
pub fn read_cut<S: Source>(alloc: Global, source: &mut S) -> Result<Cut, ReadError>
    ensures reads { (text : List ℕ) → S.coming source.old ≡ Some text → Reads (SpellsCut text) (Fault kinds.Cut (lines text)) result }
    ensures faults { CountsRead result (S.faults source.old) (S.faults source.new) }
{
    read_counted::<CutBuilder, S>(alloc, source)
}

/// Writes the canonical text of a set of nodes.
pub fn write_cut<S: Sink>(cut: &Cut, sink: &mut S) -> Result<(), DeviceFault>
    ensures puts { Puts result (S.seen sink.old) (canonical_cut cut.now) (S.seen sink.new) }
    ensures round_trip { SpellsCut (canonical_cut cut.now) cut.now }
    ensures same_text { (read : CutValue) → SpellsCut (canonical_cut cut.now) read → canonical_cut read ≡ canonical_cut cut.now }
{
    let nodes = cut.nodes();
    let count = cut.len();
    put_sparse_text(
        sink,
        &[Record::CutProblem { nodes, count }],
        nodes as usize,
        |i|
            requires { i ≤ nodes × nodes ≤ most_nodes }
            ensures { Skips (λ id. set.contains cut.entry.now.ids id ≡ false) (i + 1) (nodes + 1) (result + 1) }
        { cut.next(i as u32 + 1, nodes + 1) as usize - 1 },
        |i|
            requires { i < most_nodes }
            ensures { result ≡ (if set.contains cut.entry.now.ids (i + 1) then Some (CutNode (i + 1)) else None) }
        {
            let id = i as u32 + 1;
            cut.contains(id).then_some(Record::CutNode { id })
        },
    )
}

impl Writable for Cut {
    ghost kind = { kinds.Cut };

    ghost Content = { CutValue };

    ghost content = { λ c. c };

    ghost spells = { λ text c. SpellsCut text c };

    ghost canonical = { λ c. canonical_cut c };

    ghost shown = { λ c. shown_cut c };

    fn kind() -> TextKind {
        TextKind::Cut
    }

    fn write<K: Sink>(&self, sink: &mut K) -> Result<(), DeviceFault> {
        write_cut(self, sink)
    }

    fn show<K: Sink>(&self, sink: &mut K) -> Result<(), DeviceFault> {
        show_nodes(sink, b"cut", self.nodes(), self.len() as usize)
    }
}

impl Text for Cut {
    fn read<S: Source>(alloc: Global, source: &mut S) -> Result<Self, ReadError> {
        read_cut(alloc, source)
    }
}

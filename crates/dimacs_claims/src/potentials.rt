//! Node potentials.

ghost use Rattle.std.specs.Prelude.{◌≡◌, ◌≤◌, ◌<◌, ◌+◌, ℕ, List, None, Some, OnOk, OnErr, if◌then◌else◌, length, pos, refl};
ghost use Rattle.dimacs_lines.specs.{Limits.{most_nodes, IsNode}, Lines.{lines}, Puts.{Puts}};
ghost use Rattle.dimacs_network.specs.Skips.{Skips};
ghost use Rattle.dimacs_records.specs.declared.kinds.TextKind.TheVariants as kinds;
ghost use Rattle.dimacs_records.specs.{declared.records.Record.TheVariants.{PotentialsNode}, Faults.{Fault}};
ghost use Rattle.dimacs_records.specs.{Readings.{CountsRead}, Texts.{Reads}, Ranges.{IsWide}, NodeValues.{is_nonzero}};
ghost use Rattle.dimacs_claims.specs.Potentials.{PotentialsValue, ArePotentials, GivesPotentials, SpellsPotentials, canonical_potentials, nonzero_ids, potential_of, shown_potentials, with_potential, zero_potentials};
ghost use Rattle.dimacs_claims.specs.PotentialsReading.{ArePotentialsBegunBy, plain_context, context};

use crate::show::show_nodes;
use dimacs_lines::{DeviceFault, Memory, Sink, Source};
use dimacs_network::WideMap;
use dimacs_records::{
    Builder, Context, CountedReading, Declared, ReadError, Record, Text, TextKind, Writable,
    put_sparse_text, read_counted,
};
use std::alloc::Global;
use std::marker::Model;

/// A potential for each node of an instance: 0 unless it is set.
#[derive(Drop)]
pub struct Potentials {
    nodes: u32,
    /// The potentials that were set, some of them perhaps to 0.
    values: WideMap,
}

impl Model for Potentials {
    ghost use Rattle.dimacs_claims.specs.Potentials.{PotentialsValue, ArePotentials};
    ghost use Rattle.dimacs_claims.specs.PotentialsReading.{potentials_code};
    ghost use Rattle.dimacs_records.specs.NodeValues.{without_zeros};

    ghost Value = { PotentialsValue };

    ghost coded = { potentials_code };

    ghost view = { λ p. record { nodes = p.nodes; values = without_zeros p.values } };

    ghost invariant = { λ p. ArePotentials (record { nodes = p.nodes; values = without_zeros p.values }) };
}

impl Potentials {
    /// The potential 0 at each of `nodes` nodes. Allocates nothing.
    pub fn new(alloc: Global, nodes: u32) -> Potentials
        requires { nodes ≤ most_nodes }
        ensures { result ≡ zero_potentials nodes }
    {
        Potentials {
            nodes,
            values: WideMap::new(alloc),
        }
    }

    /// The number of nodes of the instance, NODES of the text.
    #[inline]
    pub fn nodes(&self) -> u32
        ensures nodes { result ≡ self.now.nodes }
        ensures lawful { ArePotentials self.now }
    {
        self.nodes
    }

    /// The potential of a node; 0 for an ID above the number of nodes.
    #[inline]
    pub fn of(&self, id: u32) -> i128
        ensures value { result ≡ potential_of self.now id }
        ensures wide { IsWide result }
    {
        self.values.get(id).unwrap_or(0)
    }

    /// Goes from `from` over nodes whose potentials are 0, at most to `end`.
    #[inline]
    pub fn next(&self, from: u32, end: u32) -> u32
        requires { from ≤ end }
        ensures { Skips (λ id. potential_of self.now id ≡ pos 0) from end result }
    {
        self.values.next(from, end)
    }

    /// Sets the potential of a node.
    pub fn set(&mut self, id: u32, value: i128) -> Result<(), Memory>
        requires node { IsNode self.old.nodes id }
        requires wide { IsWide value }
        ensures set { OnOk result (self.new ≡ with_potential self.old id value) }
        ensures unchanged { OnErr result (self.new ≡ self.old) }
    {
        self.values.set(id, value)
    }

    /// The number of nodes whose potential isn't 0.
    pub fn count_nonzero(&self) -> u32
        ensures { result ≡ length (nonzero_ids self.now) }
    {
        let end = self.nodes() + 1;
        let mut count = 0;
        let mut id = 1;
        while id < end {
            if self.of(id) != 0 {
                count += 1;
            }
            id = self.next(id + 1, end);
        }
        count
    }
}

/// Reads the records of potentials.
pub type PotentialsReading = CountedReading<PotentialsBuilder>;

/// Potentials while their text is read: the lines after the problem line.
#[derive(Drop)]
pub struct PotentialsBuilder {
    nodes: u32,
    declared: u32,
    /// The number of lines after the problem line.
    taken: u32,
    /// The potentials of the nodes on these lines, some of them perhaps 0.
    values: WideMap,
}

impl Model for PotentialsBuilder {
    ghost use Rattle.dimacs_claims.specs.Potentials.{ArePotentials};
    ghost use Rattle.dimacs_claims.specs.PotentialsReading.{PotentialsBegun, begun_code};
    ghost use Rattle.dimacs_claims.specs.inside.PotentialsReading.{potentials_begun};

    ghost Value = { PotentialsBegun };

    ghost coded = { begun_code };

    ghost view = { λ b. record { nodes = b.nodes; declared = b.declared; taken = b.taken; values = b.values } };

    ghost invariant = { λ b. ArePotentials (potentials_begun (record { nodes = b.nodes; declared = b.declared; taken = b.taken; values = b.values })) };
}

impl Builder for PotentialsBuilder {
    type Value = Potentials;

    ghost kind = { kinds.Potentials };

    ghost built_from = { λ begun rs. ArePotentialsBegunBy begun rs };

    ghost context = { λ begun r. context begun r };

    ghost end_context = { λ begun. plain_context begun };

    ghost gives = { λ rs p. GivesPotentials rs p };

    fn kind() -> TextKind {
        TextKind::Potentials
    }

    fn begin(alloc: Global, problem: Record) -> PotentialsBuilder {
        let Record::PotentialsProblem { nodes, count } = problem else {
            unreachable!()
        };
        PotentialsBuilder {
            nodes,
            declared: count,
            taken: 0,
            values: WideMap::new(alloc),
        }
    }

    #[inline(always)]
    fn context(&self, rec: Record) -> Context {
        match rec {
            Record::PotentialsNode { id, .. } => Context {
                named: self.values.get(id).is_some(),
                ..self.end_context()
            },
            Record::PotentialsProblem { .. } => self.end_context(),
            _ => unreachable!(),
        }
    }

    #[inline(always)]
    fn keep(&mut self, rec: Record) -> Result<(), Memory> {
        let Record::PotentialsNode {
            id,
            value: potential,
        } = rec
        else {
            unreachable!()
        };
        self.values.set(id, potential)?;
        self.taken += 1;
        Ok(())
    }

    #[inline(always)]
    fn end_context(&self) -> Context {
        let nodes = Some(self.nodes);
        let count = self.declared;
        Context::of(Some(Declared { nodes, count }), self.taken)
    }

    #[tactic(auto, using(crate::proofs::PotentialsLemmas::gives_potentials))]
    fn value(self, _alloc: Global) -> Result<Potentials, Memory> {
        Ok(Potentials {
            nodes: self.nodes,
            values: self.values,
        })
    }

    ghost has_problem = { refl };
}

/// Reads a text of potentials. `docs/TEXTS.md` has the rules and the order of faults.
pub fn read_potentials<S: Source>(alloc: Global, source: &mut S) -> Result<Potentials, ReadError>
    ensures reads { (text : List ℕ) → S.coming source.old ≡ Some text → Reads (SpellsPotentials text) (Fault kinds.Potentials (lines text)) result }
    ensures faults { CountsRead result (S.faults source.old) (S.faults source.new) }
{
    read_counted::<PotentialsBuilder, S>(alloc, source)
}

/// Writes the canonical text of potentials.
pub fn write_potentials<S: Sink>(potentials: &Potentials, sink: &mut S) -> Result<(), DeviceFault>
    ensures puts { Puts result (S.seen sink.old) (canonical_potentials potentials.now) (S.seen sink.new) }
    ensures round_trip { SpellsPotentials (canonical_potentials potentials.now) potentials.now }
    ensures same_text { (read : PotentialsValue) → SpellsPotentials (canonical_potentials potentials.now) read
        → canonical_potentials read ≡ canonical_potentials potentials.now }
{
    let nodes = potentials.nodes();
    let count = potentials.count_nonzero();
    put_sparse_text(
        sink,
        &[Record::PotentialsProblem { nodes, count }],
        nodes as usize,
        |i|
            requires { i ≤ nodes × nodes ≤ most_nodes }
            ensures { Skips (λ id. potential_of potentials.entry.now id ≡ pos 0) (i + 1) (nodes + 1) (result + 1) }
        { potentials.next(i as u32 + 1, nodes + 1) as usize - 1 },
        |i|
            requires { i < most_nodes }
            ensures { let value = potential_of potentials.entry.now (i + 1) in
                result ≡ (if is_nonzero value then Some (PotentialsNode (i + 1) value) else None) }
        {
            let id = i as u32 + 1;
            let value = potentials.of(id);
            (value != 0).then_some(Record::PotentialsNode { id, value })
        },
    )
}

impl Writable for Potentials {
    ghost kind = { kinds.Potentials };

    ghost Content = { PotentialsValue };

    ghost content = { λ p. p };

    ghost spells = { λ text p. SpellsPotentials text p };

    ghost canonical = { λ p. canonical_potentials p };

    ghost shown = { λ p. shown_potentials p };

    fn kind() -> TextKind {
        TextKind::Potentials
    }

    fn write<K: Sink>(&self, sink: &mut K) -> Result<(), DeviceFault> {
        write_potentials(self, sink)
    }

    fn show<K: Sink>(&self, sink: &mut K) -> Result<(), DeviceFault> {
        show_nodes(sink, b"pot", self.nodes(), self.count_nonzero() as usize)
    }
}

impl Text for Potentials {
    fn read<S: Source>(alloc: Global, source: &mut S) -> Result<Self, ReadError> {
        read_potentials(alloc, source)
    }
}

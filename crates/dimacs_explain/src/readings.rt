//! The values of a run's texts, read again.

ghost use Rattle.std.specs.Prelude.{IfOk};
ghost use Rattle.dimacs_claims.specs.SolutionTexts.{SpellsSolution, claimed};
ghost use Rattle.dimacs_instance.specs.{Graph.{SpellsGraph}, MaxTexts.{SpellsMax}, MinTexts.{SpellsMin}};
ghost use Rattle.dimacs_explain.specs.inside.Readings.{IsRead, IsReadIn, SpellsTested};
ghost use Rattle.dimacs_quote.specs.Texts.{claims, instances};

use crate::explanation::Explanation;
use dimacs_claims::{
    Cut, Labels, Potentials, Solution, read_cut, read_distances, read_labels, read_potentials,
    read_solution,
};
use dimacs_instance::{Graph, MaxInstance, MinInstance};
use dimacs_judging::{Flow, flow_of};
use dimacs_lines::Source;
use dimacs_network::{ArcView, CapacityArc, Network, PlainArcs, WeightArc};
use dimacs_quote::{OrStop, Reopen, Stop, TextFile};
use dimacs_records::{Text, TextKind};

impl<'a, A: Reopen> Explanation<'a, A> {
    pub(crate) fn max_instance(&self) -> OrStop<'a, MaxInstance<PlainArcs<CapacityArc>>>
        ensures { IfOk result (λ max. IsRead instances (A.reopens self.now.page.again.now) self.now.page.texts (λ bytes. SpellsMax bytes max)) }
    {
        let text = self.page.texts.instance()?;
        MaxInstance::read(self.page.alloc, &mut self.page.source(text)?).map_err(|_| text.unread())
    }

    pub(crate) fn min_instance(&self) -> OrStop<'a, MinInstance<PlainArcs<ArcView>>>
        ensures { IfOk result (λ min. IsRead instances (A.reopens self.now.page.again.now) self.now.page.texts (λ bytes. SpellsMin bytes min)) }
    {
        let text = self.page.texts.instance()?;
        MinInstance::read(self.page.alloc, &mut self.page.source(text)?).map_err(|_| text.unread())
    }

    pub(crate) fn graph(&self) -> OrStop<'a, Graph<PlainArcs<WeightArc>>>
        ensures { IfOk result (λ graph. IsRead instances (A.reopens self.now.page.again.now) self.now.page.texts (λ bytes. SpellsGraph bytes graph)) }
    {
        let text = self.page.texts.instance()?;
        Graph::read(self.page.alloc, &mut self.page.source(text)?).map_err(|_| text.unread())
    }

    pub(crate) fn solution(&self) -> OrStop<'a, Solution>
        ensures { IfOk result (λ solution. IsRead claims (A.reopens self.now.page.again.now) self.now.page.texts
            (λ bytes. SpellsSolution bytes (claimed solution))) }
    {
        self.solution_in(self.page.texts.claim()?)
    }

    pub(crate) fn solution_in(&self, text: TextFile<'a>) -> OrStop<'a, Solution>
        ensures { IfOk result (λ solution. IsReadIn (A.reopens self.now.page.again.now) text.entry.file.now (λ bytes. SpellsSolution bytes (claimed solution))) }
    {
        read_solution(self.page.alloc, &mut self.page.source(text)?).map_err(|_| text.unread())
    }

    pub(crate) fn flow<N: Network>(&self, network: &N, solution: &Solution) -> OrStop<'a, Flow> {
        let Ok(flow) = flow_of(self.page.alloc, network, solution) else {
            return Err(Stop::Done);
        };
        Ok(flow)
    }

    pub(crate) fn set<R: Source>(&self, certificate: &mut R) -> OrStop<'a, Cut> {
        let Ok(set) = read_cut(self.page.alloc, certificate) else {
            return Err(Stop::Done);
        };
        Ok(set)
    }

    pub(crate) fn potentials<R: Source>(&self, certificate: &mut R) -> OrStop<'a, Potentials> {
        let Ok(potentials) = read_potentials(self.page.alloc, certificate) else {
            return Err(Stop::Done);
        };
        Ok(potentials)
    }

    /// Labels, or distances as labels.
    pub(crate) fn labels(&self, text: TextFile<'a>) -> OrStop<'a, Labels>
        ensures { IfOk result (λ labels. IsReadIn (A.reopens self.now.page.again.now) text.entry.file.now (λ bytes. SpellsTested text.entry.kind bytes labels)) }
    {
        let mut source = self.page.source(text)?;
        let labels = match text.kind {
            TextKind::Distances => match read_distances(self.page.alloc, &mut source) {
                Ok(distances) => Ok(distances.into_labels()),
                Err(error) => Err(error),
            },
            _ => read_labels(self.page.alloc, &mut source),
        };
        match labels {
            Ok(labels) => Ok(labels),
            Err(_) => Err(Stop::Memory),
        }
    }
}

//! Explains a yes: reads the texts again, judges them again, and writes the numbers that show it.

ghost use Rattle.std.specs.Prelude.{IfOk};
ghost use Rattle.dimacs_instance.specs.QueryTexts.{AreLawful, asked};

use crate::crossing::{explain_infeasible, explain_maximum};
use crate::explanation::Explanation;
use crate::least_cost::{explain_least, write_cost};
use crate::routes::explain_distances;
use dimacs_claims::{Labels, Potentials, read_labels};
use dimacs_facts::shows_no_flow;
use dimacs_instance::{MinInstance, Queries, read_queries};
use dimacs_judging::{Flow, JudgeError, Verdict, index_for, judge_max, judge_min, judge_paths};
use dimacs_lines::Source;
use dimacs_network::Network;
use dimacs_quote::{OrStop, Prose, Reopen, Said, Stop, TextFile, Wanted, say};

const LEFT_OUT: &str = "a text has changed, can't be read twice, or memory ran out";

impl<'a, A: Reopen> Explanation<'a, A> {
    /// Explains a yes by its certificate. Without a verdict it is that of a run that certifies distances.
    pub fn explain_yes<R: Source + Drop>(
        &mut self,
        verdict: Option<&Verdict>,
        certificate: Option<R>,
    ) {
        if self.show(verdict, certificate).is_err() || self.page.out.is_lost {
            self.page.out = Prose::new(self.page.alloc);
            self.write_left_out();
        }
    }

    fn write_left_out(&mut self) {
        let reason = self.page.words(LEFT_OUT, "memory ran out");
        match self.replaced() {
            Some(claim) =>
                say!(self.page.out; "the numbers are left out: the certificate has taken the place of {}\n", claim),
            None => say!(self.page.out; "the numbers are left out: {}\n", reason),
        }
    }

    /// The claim, if the run has read it, and then written the certificate to its file.
    fn replaced(&self) -> Option<TextFile<'a>> {
        let claim = self.page.texts.claim().ok()?;
        let kind = self.page.texts.certificate().ok()?.kind;
        let is_read = self.page.texts.emptied().is_empty();
        let is_replaced = self.page.has(TextFile { kind, ..claim }, Wanted::Problem);
        Some(claim).filter(|_| is_read && is_replaced)
    }

    /// Writes what shows the yes, if the texts, read again, give it.
    fn show<R: Source + Drop>(
        &mut self,
        verdict: Option<&Verdict>,
        certificate: Option<R>,
    ) -> Said<'a> {
        let mut certificate = certificate.ok_or(Stop::Done)?;
        let shown = match verdict {
            Some(Verdict::Max(_)) => self.maximum(&mut certificate)?,
            Some(Verdict::Min(_)) => self.least(&mut certificate)?,
            Some(Verdict::Infeasible) => self.infeasible(&mut certificate)?,
            Some(Verdict::Sources(_) | Verdict::Pairs(_)) | None => {
                let queries = self.queries(verdict.is_some())?;
                self.distances(&queries, &mut certificate)?
            }
        };
        match verdict {
            Some(verdict) if *verdict != shown => Err(Stop::Done),
            _ => Ok(()),
        }
    }

    fn maximum<R: Source>(&mut self, certificate: &mut R) -> OrStop<'a, Verdict> {
        let (cut, max) = (self.set(certificate)?, self.max_instance()?);
        let solution = self.solution()?;
        let Ok(verdict) = judge_max(self.page.alloc, &max, &solution, &cut) else {
            return Err(Stop::Done);
        };
        explain_maximum(&mut self.page.out, &max, &solution, &cut);
        Ok(verdict)
    }

    fn least<R: Source>(&mut self, certificate: &mut R) -> OrStop<'a, Verdict> {
        let (potentials, min) = (self.potentials(certificate)?, self.min_instance()?);
        self.least_by(&min, &potentials)
    }

    fn least_by<N: Network>(
        &mut self,
        min: &MinInstance<N>,
        potentials: &Potentials,
    ) -> OrStop<'a, Verdict> {
        let solution = self.solution()?;
        let Ok(verdict) = judge_min(self.page.alloc, min, &solution, potentials) else {
            return Err(Stop::Done);
        };
        let flow = self.flow(min.network(), &solution)?;
        write_cost(&mut self.page.out, min.network(), &flow);
        let zero = self.page.words(" (0 without a line)", "");
        explain_least(&mut self.page.out, min, &solution, potentials, zero);
        Ok(verdict)
    }

    fn infeasible<R: Source>(&mut self, certificate: &mut R) -> OrStop<'a, Verdict> {
        let (set, min) = (self.set(certificate)?, self.min_instance()?);
        if !shows_no_flow(&min, &set) {
            return Err(Stop::Done);
        }
        explain_infeasible(&mut self.page.out, &min, &set);
        Ok(Verdict::Infeasible)
    }

    fn distances<R: Source>(
        &mut self,
        queries: &Queries,
        certificate: &mut R,
    ) -> OrStop<'a, Verdict>
        requires lawful { AreLawful (asked queries.now) }
    {
        let (labels, graph) = (self.labels_for(queries, certificate)?, self.graph()?);
        let Ok(verdict) = judge_paths(self.page.alloc, &graph, queries, &labels) else {
            return Err(Stop::Done);
        };
        let name = self.page.words("label", "distance");
        explain_distances(&mut self.page.out, &graph, queries, &labels, name)?;
        Ok(verdict)
    }

    fn labels_for<R: Source>(&self, queries: &Queries, certificate: &mut R) -> OrStop<'a, Labels> {
        let mut labels = read_labels(self.page.alloc, certificate).map_err(|_| Stop::Done)?;
        index_for(queries, &mut labels)?;
        Ok(labels)
    }

    /// The queries that labels have to answer: none if distances were certified.
    fn queries(&self, is_asked: bool) -> OrStop<'a, Queries>
        ensures lawful { IfOk result (λ queries. AreLawful (asked queries)) }
    {
        if !is_asked {
            return Ok(Queries::Sources(Vec::new(self.page.alloc)));
        }
        let text = self.page.texts.claim()?;
        read_queries(self.page.alloc, &mut self.page.source(text)?).map_err(|_| text.unread())
    }
}

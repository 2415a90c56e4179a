//! The explanation of an answer.

use dimacs_claims::Solution;
use dimacs_facts::Steps;
use dimacs_lines::Memory;
use dimacs_quote::{Page, Reopen, Texts};
use std::alloc::Global;

/// The explanation of what a run answered.
#[derive(Drop)]
pub struct Explanation<'a, A> {
    pub(crate) page: Page<'a, A>,
    /// The solution that the run made in place of a certificate.
    pub(crate) made: Option<&'a Solution>,
    /// What is left of the steps that all its searches share.
    pub(crate) steps: Steps,
}

impl<'a, A: Reopen> Explanation<'a, A> {
    /// An empty one, about a run over these texts, which are read again, and the solution that it made.
    pub fn new(alloc: Global, again: &'a A, texts: Texts<'a>, made: Option<&'a Solution>) -> Self {
        let page = Page::new(alloc, again, texts);
        let steps = Steps::all();
        Explanation { page, made, steps }
    }

    /// What was written.
    pub fn finish(self) -> Result<String, Memory> {
        self.page.finish()
    }
}

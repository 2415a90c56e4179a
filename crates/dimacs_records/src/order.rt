//! The tests of a record and of the end of a text, in the order in which faults are reported.

ghost use Rattle.std.specs.Prelude.{◌≡◌, ◌&&◌, ◌||◌, not, false, true, Option, None, is_some, is_none, OnOk, OnErr, IfErr};
ghost use Rattle.dimacs_records.specs.{declared.faults.TakeError.TheVariants.{Refused}, Spelling.{kind_of}};
ghost use Rattle.dimacs_records.specs.{declared.kinds.TextKind.{TextKind}, declared.order.Declared.{Declared}};
ghost use Rattle.dimacs_records.specs.declared.records.Record.{Record};
ghost use Rattle.dimacs_records.specs.Conditions.{is_above_at, bounded_ids, is_bound_wrong, needs_problem};
ghost use Rattle.dimacs_records.specs.Earlier.{is_above, is_counted, is_full, is_problem, is_short, is_some_and};
ghost use Rattle.dimacs_records.specs.Tests.{Passes, PassesEnd, answer_at, answer_at_end, plain_context_of, passes_count, needs_value, place_by, reason_by};

use crate::faults::TakeError;
use crate::kinds::TextKind;
use crate::reasons::Reason;
use crate::records::Record;

/// What a problem line declares; queries have no NODES.
#[derive(Clone, Copy)]
pub struct Declared {
    pub nodes: Option<u32>,
    pub count: u32,
}

/// The context in which a record, or the end, is tested: what the tests need from the earlier records. "The record" is the one that is tested.
/// Flags that its tests don't use are false.
#[derive(Clone, Copy)]
pub struct Context {
    /// The problem line, if any.
    pub problem: Option<Declared>,
    /// The number of lines that the problem line counts.
    pub counted: u32,
    /// The record comes too late, isn't of the kind announced, or belongs to no block.
    pub misplaced: bool,
    /// An earlier line has the record's node as its own; for a label, an earlier line of its block.
    pub named: bool,
    /// An earlier node line has the record's end.
    pub end_named: bool,
    /// Source or sink isn't named yet.
    pub lacks_end: bool,
    /// The record's block has as many labels as it declares.
    pub block_full: bool,
    /// The last block has fewer labels than it declares, and no more can come.
    pub block_short: bool,
    /// The solution has a value.
    pub valued: bool,
    /// The label's predecessor has no label in the block.
    pub pred_unknown: bool,
    /// The label's distance is greater than the block's RADIUS.
    pub past_radius: bool,
}

impl Context {
    /// The context after this problem line, if any, and `counted` of the lines that it counts. All flags are false.
    #[inline(always)]
    pub fn of(problem: Option<Declared>, counted: u32) -> Context
        ensures { result ≡ plain_context_of problem counted }
    {
        Context {
            problem,
            counted,
            misplaced: false,
            named: false,
            end_named: false,
            lacks_end: false,
            block_full: false,
            block_short: false,
            valued: false,
            pred_unknown: false,
            past_radius: false,
        }
    }

    #[inline(always)]
    fn lacks_problem_before(self, rec: Record) -> bool
        ensures { result ≡ ((needs_problem (kind_of rec) && not (is_problem rec)) && is_none self.problem) }
    {
        match self.problem {
            Some(_) => false,
            None => must_follow_problem(rec),
        }
    }

    #[inline(always)]
    fn is_second_problem(self, rec: Record) -> bool
        ensures { result ≡ (is_problem rec && is_some self.problem) }
    {
        match self.problem {
            Some(_) => is_problem(rec),
            None => false,
        }
    }

    /// The record is one line more than the text declares, or one label more than its block declares.
    #[inline(always)]
    fn is_full_for(self, rec: Record) -> bool
        ensures { result ≡ passes_count self rec }
    {
        match rec {
            Record::LabelsNode { .. } | Record::DistancesNode { .. } => self.block_full,
            _ => is_counted(rec) && self.is_full(),
        }
    }

    #[inline(always)]
    fn lacks_problem(self, kind: TextKind) -> bool
        ensures { result ≡ (needs_problem kind && is_none self.problem) }
    {
        match self.problem {
            Some(_) => false,
            None => needs_problem(kind),
        }
    }

    /// The text has fewer lines than it declares, or the last block fewer labels.
    #[inline(always)]
    fn is_unfinished(self) -> bool
        ensures { result ≡ (self.block_short || is_short self.problem self.counted) }
    {
        self.block_short || self.is_short()
    }

    #[inline(always)]
    fn lacks_value(self, kind: TextKind) -> bool
        ensures { result ≡ (needs_value kind && not self.valued) }
    {
        match kind {
            TextKind::Solution => !self.valued,
            _ => false,
        }
    }

    /// The ID is above NODES.
    #[inline(always)]
    fn is_above(self, id: u32) -> bool
        ensures { result ≡ is_above self.problem id }
    {
        match self.problem {
            Some(
                Declared {
                    nodes: Some(nodes),
                    ..
                },
            ) => nodes < id,
            _ => false,
        }
    }

    #[inline(always)]
    fn has_above(self, id: Option<u32>) -> bool
        ensures { result ≡ is_some_and (is_above self.problem) id }
    {
        match id {
            Some(id) => self.is_above(id),
            None => false,
        }
    }

    #[inline(always)]
    fn is_full(self) -> bool
        ensures { result ≡ is_full self.problem self.counted }
    {
        match self.problem {
            Some(problem) => problem.count <= self.counted,
            None => false,
        }
    }

    #[inline(always)]
    fn is_short(self) -> bool
        ensures { result ≡ is_short self.problem self.counted }
    {
        match self.problem {
            Some(problem) => self.counted < problem.count,
            None => false,
        }
    }
}

/// Tests a record in its context. Returns its first fault in the order of `docs/TEXTS.md`.
#[inline(always)]
pub fn test_record(context: Context, rec: Record) -> Result<(), TakeError>
    ensures passes { OnOk result (Passes context rec) }
    ensures first_fault { result ≡ answer_at (place_by context rec) }
{
    refuse_if(context.lacks_problem_before(rec), 0, Reason::ProblemMissing)?;
    refuse_if(context.is_second_problem(rec), 0, Reason::ProblemTwice)?;
    refuse_if(context.misplaced, 0, Reason::RecordOrder)?;
    refuse_if(context.has_above(second_id(rec)), 2, Reason::NodeRange)?;
    refuse_if(context.has_above(third_id(rec)), 3, Reason::NodeRange)?;
    refuse_if(context.has_above(fourth_id(rec)), 4, Reason::NodeRange)?;
    refuse_if(context.named, 2, Reason::NodeTwice)?;
    refuse_if(context.end_named, 3, Reason::EndTwice)?;
    refuse_if(context.lacks_end, 0, Reason::EndMissing)?;
    refuse_if(has_wrong_low(rec), 4, Reason::BoundOrder)?;
    refuse_if(has_wrong_cap(rec), 5, Reason::BoundOrder)?;
    refuse_if(context.is_full_for(rec), 0, Reason::TooMany)?;
    refuse_if(context.block_short, 0, Reason::TooFew)?;
    refuse_if(context.valued, 0, Reason::SolutionTwice)?;
    refuse_if(context.pred_unknown, 0, Reason::PredUnknown)?;
    refuse_if(context.past_radius, 3, Reason::PastRadius)?;
    Ok(())
}

/// Tests the end of a text. Returns its first fault. Only a solution needs `valued`.
#[inline(always)]
pub fn test_end(kind: TextKind, context: Context) -> Result<(), TakeError>
    ensures passes { OnOk result (PassesEnd kind context) }
    ensures first_fault { result ≡ answer_at_end (reason_by kind context) }
{
    refuse_if(context.lacks_problem(kind), 0, Reason::ProblemMissing)?;
    refuse_if(context.lacks_end, 0, Reason::EndMissing)?;
    refuse_if(context.is_unfinished(), 0, Reason::TooFew)?;
    refuse_if(context.lacks_value(kind), 0, Reason::SolutionMissing)?;
    Ok(())
}

#[inline(always)]
fn refuse_if(wrong: bool, field: u32, reason: Reason) -> Result<(), TakeError>
    ensures passed { OnOk result (wrong ≡ false) }
    ensures failed { OnErr result (wrong ≡ true) }
    ensures refused { IfErr result (λ error. error ≡ Refused (record { field = field; reason = reason })) }
{
    if wrong {
        Err(TakeError::refused(field, reason))
    } else {
        Ok(())
    }
}

/// Whether texts of the kind begin with a problem line; a solution doesn't.
#[inline(always)]
fn needs_problem(kind: TextKind) -> bool
    ensures { result ≡ needs_problem kind }
{
    match kind {
        TextKind::Solution => false,
        _ => true,
    }
}

#[inline(always)]
fn must_follow_problem(rec: Record) -> bool
    ensures { result ≡ (needs_problem (kind_of rec) && not (is_problem rec)) }
{
    match rec {
        Record::SolutionValue { .. } | Record::SolutionEntry { .. } => false,
        _ => !is_problem(rec),
    }
}

#[inline(always)]
pub(crate) fn is_problem(rec: Record) -> bool
    ensures { result ≡ is_problem rec }
{
    match rec {
        Record::MaxProblem { .. }
        | Record::MinProblem { .. }
        | Record::GraphProblem { .. }
        | Record::QueriesProblem { .. }
        | Record::CutProblem { .. }
        | Record::PotentialsProblem { .. }
        | Record::LabelsProblem { .. }
        | Record::DistancesProblem { .. } => true,
        _ => false,
    }
}

/// The ID in field 2, if NODES bounds it.
#[inline(always)]
fn second_id(rec: Record) -> Option<u32>
    ensures { (p : Option Declared) → is_above_at 2 p (bounded_ids rec) ≡ is_some_and (is_above p) result }
{
    match rec {
        Record::MaxNode { id, .. }
        | Record::MinNode { id, .. }
        | Record::CutNode { id }
        | Record::PotentialsNode { id, .. }
        | Record::LabelsNode { id, .. }
        | Record::DistancesNode { id, .. } => Some(id),
        Record::MaxArc { tail, .. } | Record::MinArc { tail, .. } | Record::GraphArc { tail, .. } =>
            Some(tail),
        Record::LabelsBlock { source, .. } | Record::DistancesBlock { source, .. } => Some(source),
        _ => None,
    }
}

/// The ID in field 3, if NODES bounds it.
#[inline(always)]
fn third_id(rec: Record) -> Option<u32>
    ensures { (p : Option Declared) → is_above_at 3 p (bounded_ids rec) ≡ is_some_and (is_above p) result }
{
    match rec {
        Record::MaxArc { head, .. } | Record::MinArc { head, .. } | Record::GraphArc { head, .. } =>
            Some(head),
        _ => None,
    }
}

/// The ID in field 4, if NODES bounds it.
#[inline(always)]
fn fourth_id(rec: Record) -> Option<u32>
    ensures { (p : Option Declared) → is_above_at 4 p (bounded_ids rec) ≡ is_some_and (is_above p) result }
{
    match rec {
        Record::LabelsNode { pred, .. } => Some(pred),
        _ => None,
    }
}

/// Whether the bound in field 4 is negative.
#[inline(always)]
fn has_wrong_low(rec: Record) -> bool
    ensures { result ≡ is_bound_wrong 4 rec }
{
    match rec {
        Record::MaxArc { cap, .. } => cap < 0,
        Record::MinArc { low, .. } => low < 0,
        _ => false,
    }
}

/// Whether CAP is below LOW.
#[inline(always)]
fn has_wrong_cap(rec: Record) -> bool
    ensures { result ≡ is_bound_wrong 5 rec }
{
    match rec {
        Record::MinArc { low, cap, .. } => cap < low,
        _ => false,
    }
}

#[inline(always)]
fn is_counted(rec: Record) -> bool
    ensures { result ≡ is_counted rec }
{
    match rec {
        Record::MaxArc { .. }
        | Record::MinArc { .. }
        | Record::GraphArc { .. }
        | Record::SourceQuery { .. }
        | Record::PairQuery { .. }
        | Record::CutNode { .. }
        | Record::PotentialsNode { .. }
        | Record::LabelsBlock { .. }
        | Record::DistancesBlock { .. } => true,
        _ => false,
    }
}

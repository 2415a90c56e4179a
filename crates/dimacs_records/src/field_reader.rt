//! Reads the fields of a line from left to right, each by its type.
//!
//! A fault is reported only at the end of the line, since a wrong number of fields comes first.

ghost use Rattle.std.specs.Prelude.{◌≡◌, ◌≤ℤ◌, pos, neg_ℤ, ◌^◌, codes};
ghost use Rattle.dimacs_lines.specs.Number.{IsWithin};
ghost use Rattle.dimacs_records.specs.{Earlier.{or_else}, Forms.{Nodes, Count, Id, Whole, Wide, Word, Either, Number}};
ghost use Rattle.dimacs_records.specs.Spelling.{Text, Amount, end_word, query_word};
ghost use Rattle.dimacs_records.specs.inside.FieldReader.{TakesField, TakesLast, ReadsAmount, IsUntouched, finished, fault_at, number_reason, word_of};

use crate::faults::LineFault;
use crate::reasons::Reason;
use crate::records::{End, QueryKind, Record};
use dimacs_lines::{NumberFault, Scan, Token};

/// The greatest NODES, and the greatest ID.
pub const MAX_NODES: u32 = 134_217_728;

/// The greatest number of lines that a problem line may declare.
pub const MAX_COUNT: u32 = 268_435_456;

/// One of two words.
#[derive(Clone, Copy)]
enum Choice {
    Former,
    Latter,
}

/// The remaining fields, and the first fault of those before them.
#[derive(Drop)]
pub(crate) struct FieldReader<'a> {
    scan: Scan<'a>,
    missing: bool,
    fault: Option<LineFault>,
}

impl<'a> FieldReader<'a> {
    /// The fields after the line's letter.
    #[inline(always)]
    pub(crate) fn new(scan: Scan<'a>) -> FieldReader<'a>
        ensures fresh { IsUntouched result }
        ensures fields { result.scan ≡ scan.entry }
    {
        FieldReader {
            scan,
            missing: false,
            fault: None,
        }
    }

    /// Takes a field that has to be this word.
    #[inline(always)]
    pub(crate) fn word(&mut self, field: u32, word: &[u8])
        ensures { TakesField field (Word word.now) self.old (Text word.now) self.new }
    {
        match self.scan.next_token() {
            None => self.missing = true,
            Some(token) if token.field.text == word => (),
            Some(_) => self.refuse(field, Reason::BadWord),
        }
    }

    /// Takes `s` or `t`; the source after a fault.
    pub(crate) fn end(&mut self, field: u32) -> End
        ensures { TakesField field (Either (codes "s") (codes "t")) self.old (Text (end_word result)) self.new }
    {
        match self.either(field, b"s", b"t") {
            Choice::Former => End::Source,
            Choice::Latter => End::Sink,
        }
    }

    /// Takes `ss` or `p2p`; `ss` after a fault.
    pub(crate) fn query_kind(&mut self, field: u32) -> QueryKind
        ensures { TakesField field (Either (codes "ss") (codes "p2p")) self.old (Text (query_word result)) self.new }
    {
        match self.either(field, b"ss", b"p2p") {
            Choice::Former => QueryKind::Sources,
            Choice::Latter => QueryKind::Pairs,
        }
    }

    /// Takes NODES; 0 after a fault.
    #[inline(always)]
    pub(crate) fn nodes(&mut self, field: u32) -> u32
        ensures { TakesField field Nodes self.old (Amount (pos result)) self.new }
    {
        self.range(field, 0, i64::from(MAX_NODES)) as u32
    }

    /// Takes a declared count; 0 after a fault.
    #[inline(always)]
    pub(crate) fn count(&mut self, field: u32) -> u32
        ensures { TakesField field Count self.old (Amount (pos result)) self.new }
    {
        self.range(field, 0, i64::from(MAX_COUNT)) as u32
    }

    /// Takes an ID; 1 after a fault.
    #[inline(always)]
    pub(crate) fn id(&mut self, field: u32) -> u32
        ensures { TakesField field Id self.old (Amount (pos result)) self.new }
    {
        self.range(field, 1, i64::from(MAX_NODES)) as u32
    }

    /// Takes a 64-bit number; the least after a fault.
    #[inline(always)]
    pub(crate) fn whole(&mut self, field: u32) -> i64
        ensures { TakesField field Whole self.old (Amount result) self.new }
    {
        self.range(field, i64::MIN, i64::MAX)
    }

    /// Takes a number from -10^30 to 10^30; 0 after a fault.
    #[inline(always)]
    pub(crate) fn wide(&mut self, field: u32) -> i128
        ensures { TakesField field Wide self.old (Amount result) self.new }
    {
        let Some(token) = self.scan.next_token() else {
            self.missing = true;
            return 0;
        };
        match wide_amount(&token) {
            Ok(n) => n,
            Err(reason) => {
                self.refuse(field, reason);
                0
            }
        }
    }

    /// Takes a RADIUS, if the line has one more field.
    pub(crate) fn radius(&mut self, field: u32) -> Option<i128>
        ensures { TakesLast field self.old.scan self.old result self.new }
    {
        let token = self.scan.next_token()?;
        match radius_amount(&token) {
            Ok(n) => Some(n),
            Err(reason) => {
                self.refuse(field, reason);
                Some(0)
            }
        }
    }

    /// The record, or the first fault; a wrong number of fields comes before all others.
    #[inline(always)]
    pub(crate) fn finish(mut self, spelled: Record) -> Result<Option<Record>, LineFault>
        ensures { result ≡ finished self.entry spelled }
    {
        if self.missing || self.scan.next_token().is_some() {
            return Err(LineFault {
                field: 0,
                reason: Reason::FieldCount,
            });
        }
        match self.fault {
            None => Ok(Some(spelled)),
            Some(fault) => Err(fault),
        }
    }

    /// Takes one of two words; the former after a fault.
    fn either(&mut self, field: u32, former: &[u8], latter: &[u8]) -> Choice
        ensures { TakesField field (Either former.now latter.now) self.old (Text (word_of former.now latter.now result)) self.new }
    {
        match self.scan.next_token() {
            None => {
                self.missing = true;
                Choice::Former
            }
            Some(token) if token.field.text == former => Choice::Former,
            Some(token) if token.field.text == latter => Choice::Latter,
            Some(_) => {
                self.refuse(field, Reason::BadWord);
                Choice::Former
            }
        }
    }

    /// Takes a number from `low` to `high`; `low` after a fault.
    #[inline(always)]
    fn range(&mut self, field: u32, low: i64, high: i64) -> i64
        requires { low ≤ℤ high }
        ensures takes { TakesField field (Number low high) self.old (Amount result) self.new }
        ensures within { IsWithin low high result }
    {
        let Some(token) = self.scan.next_token() else {
            self.missing = true;
            return low;
        };
        match amount(&token, low, high) {
            Ok(n) => n,
            Err(reason) => {
                self.refuse(field, reason);
                low
            }
        }
    }

    /// Keeps a fault if it is the first.
    fn refuse(&mut self, field: u32, reason: Reason)
        ensures fields { self.new.scan ≡ self.old.scan }
        ensures missing { self.new.missing ≡ self.old.missing }
        ensures fault { self.new.fault ≡ or_else self.old.fault (Some (fault_at field reason)) }
    {
        if self.fault.is_none() {
            self.fault = Some(LineFault { field, reason });
        }
    }
}

#[inline(always)]
fn amount(token: &Token<'_>, low: i64, high: i64) -> Result<i64, Reason>
    ensures { ReadsAmount low high token.now.field.text.now result }
{
    match token.number() {
        Ok(n) if n < low => Err(Reason::NumberRange),
        Ok(n) if high < n => Err(Reason::NumberRange),
        Ok(n) => Ok(n),
        Err(fault) => Err(number_reason(fault)),
    }
}

#[inline(always)]
fn wide_amount(token: &Token<'_>) -> Result<i128, Reason>
    ensures { ReadsAmount (neg_ℤ (pos (10 ^ 30))) (pos (10 ^ 30)) token.now.field.text.now result }
{
    match token.wide() {
        Ok(n) => Ok(n),
        Err(fault) => Err(number_reason(fault)),
    }
}

fn radius_amount(token: &Token<'_>) -> Result<i128, Reason>
    ensures { ReadsAmount (pos 0) (pos (10 ^ 30)) token.now.field.text.now result }
{
    match token.wide() {
        Ok(n) if n < 0 => Err(Reason::NumberRange),
        Ok(n) => Ok(n),
        Err(fault) => Err(number_reason(fault)),
    }
}

fn number_reason(fault: NumberFault) -> Reason
    ensures { result ≡ number_reason fault }
{
    match fault {
        NumberFault::BadNumber => Reason::BadNumber,
        NumberFault::NumberRange => Reason::NumberRange,
    }
}

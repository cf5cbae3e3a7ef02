//! The numbers of one CPU, as disjoint ranges in their order.
ghost use Rattle.std.specs.Prelude.{◌≡◌, ◌≢◌, ℕ, ◌-◌, ◌<◌, ◌≤◌, ◌↔◌, Some, None, IsSome, IsTrue, IfSome, IfNone, OnOk};
ghost use Rattle.std.specs.Prelude.{OnErr};
ghost use Rattle.std.specs.Ordering.{nat_cmp};
ghost use Rattle.std.specs.BTreeMap.{get};
ghost use Rattle.collector.specs.Ranges.{HasSpan, AreApart, MayLay, HasContent, ReportSame, IsMarked, IsEdge, IsFree};
ghost use Rattle.collector.specs.Ranges.{KeepsEdges, IsLaid, IsCopy};
ghost use Rattle.collector.specs.declared.ranges.Content.{Content};
ghost use Rattle.collector.specs.declared.ranges.Span.{Span};

use std::alloc::{AllocError, Global};
use std::collections::BTreeMap;
use std::ops::Bound;
use trace_model::NoMemory;

/// What is known of the numbers of a range.
#[derive(Clone, Copy, PartialEq, Eq)]
pub(crate) enum Content {
    /// Their records are those of the kept parcel at this index.
    Kept(usize),
    /// They are missing.
    Missing,
}

/// A range of numbers, given by where it ends: its first number is its key.
#[derive(Clone, Copy)]
struct Span {
    /// The number after the last one. A range that ends where it begins has no number, and marks a place.
    end: u64,
    content: Content,
}

/// What is known of a number, and the number up to which the same is known, itself not among them.
#[derive(Clone, Copy)]
pub(crate) struct Stretch {
    pub(crate) end: u64,
    pub(crate) content: Option<Content>,
}

/// The numbers of one CPU of which something is known.
#[derive(Drop)]
pub(crate) struct Ranges {
    spans: BTreeMap<u64, Span>,
}

/// The last range that begins at a number or before it.
fn last_up_to(spans: &BTreeMap<u64, Span>, number: u64) -> Option<(u64, Span)>
    ensures there { IfSome result (λ p. get nat_cmp spans.now p.0 ≡ Some p.1) }
    ensures up_to { IfSome result (λ p. p.0 ≤ number) }
    ensures last { IfSome result (λ p. (q : ℕ) → p.0 < q → q ≤ number → get nat_cmp spans.now q ≡ None) }
    ensures none { IfNone result ((q : ℕ) → q ≤ number → get nat_cmp spans.now q ≡ None) }
{
    let (first, span) = spans.range(..=number).next_back()?;
    Some((*first, *span))
}

/// The last range that begins before a place.
fn last_before(spans: &BTreeMap<u64, Span>, place: u64) -> Option<(u64, Span)>
    ensures there { IfSome result (λ p. get nat_cmp spans.now p.0 ≡ Some p.1) }
    ensures before { IfSome result (λ p. p.0 < place) }
    ensures last { IfSome result (λ p. (q : ℕ) → p.0 < q → q < place → get nat_cmp spans.now q ≡ None) }
    ensures none { IfNone result ((q : ℕ) → q < place → get nat_cmp spans.now q ≡ None) }
{
    let (first, span) = spans.range(..place).next_back()?;
    Some((*first, *span))
}

/// The last range.
fn last(spans: &BTreeMap<u64, Span>) -> Option<(u64, Span)>
    ensures there { IfSome result (λ p. get nat_cmp spans.now p.0 ≡ Some p.1) }
    ensures last { IfSome result (λ p. (q : ℕ) → p.0 < q → get nat_cmp spans.now q ≡ None) }
    ensures none { IfNone result ((q : ℕ) → get nat_cmp spans.now q ≡ None) }
{
    let (first, span) = spans.last_key_value()?;
    Some((*first, *span))
}

/// Where the first range after a number begins.
fn first_behind(spans: &BTreeMap<u64, Span>, number: u64) -> Option<u64>
    ensures there { IfSome result (λ first. IsSome (get nat_cmp spans.now first)) }
    ensures behind { IfSome result (λ first. number < first) }
    ensures first { IfSome result (λ first. (q : ℕ) → number < q → q < first → get nat_cmp spans.now q ≡ None) }
    ensures none { IfNone result ((q : ℕ) → number < q → get nat_cmp spans.now q ≡ None) }
{
    let (first, _) = spans
        .range((Bound::Excluded(number), Bound::Unbounded))
        .next()?;
    Some(*first)
}

/// Removes the ranges that begin after a number and before another one.
fn clear_between(spans: &mut BTreeMap<u64, Span>, front: u64, end: u64)
    ensures inside { (q : ℕ) → front < q → q < end → get nat_cmp spans.new q ≡ None }
    ensures up_to { (q : ℕ) → q ≤ front → get nat_cmp spans.new q ≡ get nat_cmp spans.old q }
    ensures from { (q : ℕ) → end ≤ q → get nat_cmp spans.new q ≡ get nat_cmp spans.old q }
{
    while let Some(first) = first_behind(spans, front) {
        if first >= end {
            return;
        }
        spans.remove(&first);
    }
}

/// A copy of the ranges.
impl Clone for Ranges {
    ghost is_clone = { λ ranges copy. IsCopy ranges copy };

    fn clone(&self) -> Result<Ranges, AllocError> {
        Ok(Ranges {
            spans: self.spans.clone()?,
        })
    }
}

impl Ranges {
    /// Nothing is known of any number.
    pub(crate) fn new(alloc: Global) -> Ranges
        ensures unreported { (number : ℕ) (content : Content) → HasContent result number content → ⊥ }
        ensures apart { AreApart result }
    {
        Ranges {
            spans: BTreeMap::new(alloc),
        }
    }

    /// Whether all ranges begin before a number and reach no further, as those of pages that come in order do. The last
    /// range says so, without a search.
    fn end_before(&self, number: u64) -> bool
        requires { AreApart self.now }
        ensures { IsTrue result → (end : ℕ) → IsFree self.now number end }
    {
        match last(&self.spans) {
            Some((first, span)) => first < number && span.end <= number,
            None => true,
        }
    }

    /// What is known of a number and of those after it.
    pub(crate) fn stretch(&self, number: u64) -> Stretch
        requires { AreApart self.now }
        ensures reported { IfSome result.content (λ content. (n : ℕ) → number ≤ n → n < result.end
            → HasContent self.now n content) }
        ensures unreported { IfNone result.content ((n : ℕ) (content : Content) → number ≤ n → n < result.end
            → HasContent self.now n content → ⊥) }
        ensures here { IfSome result.content (λ content. HasContent self.now number content) }
        ensures unreported_here { IfNone result.content ((content : Content) → HasContent self.now number content → ⊥) }
        ensures goes_on { number < u64.MAX → number < result.end }
    {
        if self.end_before(number) {
            return Stretch {
                end: u64::MAX,
                content: None,
            };
        }
        match last_up_to(&self.spans, number) {
            Some((_, span)) if number < span.end => Stretch {
                end: span.end,
                content: Some(span.content),
            },
            _ => Stretch {
                end: first_behind(&self.spans, number).unwrap_or(u64::MAX),
                content: None,
            },
        }
    }

    /// The number after the last one of which something is stated, or 0 if there is none.
    pub(crate) fn end(&self) -> u64
        requires { AreApart self.now }
        ensures behind { (n : ℕ) (content : Content) → result ≤ n → HasContent self.now n content → ⊥ }
        ensures last { 0 < result → (content : Content) × HasContent self.now (result - 1) content }
    {
        let mut range = last(&self.spans);
        while let Some((first, span)) = range {
            if first < span.end {
                return span.end;
            }
            range = last_before(&self.spans, first);
        }
        0
    }

    /// Cuts in two the range that reaches over a place, if one does. What is stated stays the same.
    fn cut(&mut self, place: u64) -> Result<(), NoMemory>
        requires { AreApart self.old }
        ensures apart { AreApart self.new }
        ensures same { ReportSame self.old self.new }
        ensures cut { OnOk result (IsEdge self.new place) }
        ensures edges { KeepsEdges self.old self.new }
    {
        let Some((first, span)) = last_up_to(&self.spans, place) else {
            return Ok(());
        };
        if first < place && place < span.end {
            self.spans.insert(place, span)?;
            let front = Span { end: place, ..span };
            self.spans.insert(first, front)?;
        }
        Ok(())
    }

    /// Has a range begin at a place. What is stated stays the same.
    fn mark(&mut self, place: u64) -> Result<(), NoMemory>
        requires { AreApart self.old }
        ensures apart { AreApart self.new }
        ensures same { ReportSame self.old self.new }
        ensures cut { OnOk result (IsEdge self.new place) }
        ensures marked { OnOk result (IsMarked self.new place) }
        ensures edges { KeepsEdges self.old self.new }
    {
        self.cut(place)?;
        if !self.spans.contains_key(&place) {
            let empty = Span {
                end: place,
                content: Content::Missing,
            };
            self.spans.insert(place, empty)?;
        }
        Ok(())
    }

    /// States this of the numbers from a marked place up to a cut, and changes nothing of the others.
    fn set(&mut self, first: u64, end: u64, content: Content)
        requires apart { AreApart self.old }
        requires forward { first ≤ end }
        requires marked { IsMarked self.old first }
        requires cut { IsEdge self.old end }
        ensures apart { AreApart self.new }
        ensures inside { (n : ℕ) → first ≤ n → n < end → HasContent self.new n content }
        ensures alone { (n : ℕ) (other : Content) → first ≤ n → n < end
            → HasContent self.new n other → other ≡ content }
        ensures in_front { (n : ℕ) (other : Content) → n < first
            → (HasContent self.old n other ↔ HasContent self.new n other) }
        ensures behind { (n : ℕ) (other : Content) → end ≤ n
            → (HasContent self.old n other ↔ HasContent self.new n other) }
        ensures marks { (place : ℕ) → end ≤ place → IsMarked self.old place → IsMarked self.new place }
        ensures cuts { (place : ℕ) → end ≤ place → IsEdge self.old place → IsEdge self.new place }
    {
        if first < end {
            clear_between(&mut self.spans, first, end);
            let _replaced = self.spans.insert(first, Span { end, content });
        }
    }

    /// Whether no range begins from one place up to another one, which is after it, or reaches over the first.
    fn is_free(&self, low: u64, end: u64) -> bool
        requires { AreApart self.now }
        ensures { IsTrue result → IsFree self.now low end }
    {
        if self.end_before(low) {
            return true;
        }
        if let Some((first, span)) = last_up_to(&self.spans, low) {
            if first == low || low < span.end {
                return false;
            }
        }
        match first_behind(&self.spans, low) {
            Some(behind) => end <= behind,
            None => true,
        }
    }

    /// States this of numbers that are free.
    fn put(&mut self, first: u64, end: u64, content: Content) -> Result<(), NoMemory>
        requires apart { AreApart self.old }
        requires free { IsFree self.old first end }
        ensures apart { AreApart self.new }
        ensures inside { OnOk result ((n : ℕ) → first ≤ n → n < end → HasContent self.new n content) }
        ensures alone { OnOk result ((n : ℕ) (other : Content) → first ≤ n → n < end
            → HasContent self.new n other → other ≡ content) }
        ensures in_front { (n : ℕ) (other : Content) → n < first
            → (HasContent self.old n other ↔ HasContent self.new n other) }
        ensures behind { (n : ℕ) (other : Content) → end ≤ n
            → (HasContent self.old n other ↔ HasContent self.new n other) }
        ensures others { (q : ℕ) → (first < end → q ≢ first)
            → get nat_cmp self.new.spans q ≡ get nat_cmp self.old.spans q }
        ensures ends { first < end → (span : Span) → HasSpan self.new first span → span.end ≤ end }
        ensures refused { OnErr result ((q : ℕ) → get nat_cmp self.new.spans q ≡ get nat_cmp self.old.spans q) }
        ensures nothing { OnErr result (first < end) }
    {
        if first < end {
            self.spans.insert(first, Span { end, content })?;
        }
        Ok(())
    }

    /// States of free numbers what `lay` does.
    fn lay_free(&mut self, low: u64, first: u64, end: u64, parcel: usize) -> Result<(), NoMemory>
        requires may { MayLay self.old low first end }
        requires free { IsFree self.old low end }
        ensures apart { AreApart self.new }
        ensures laid { OnOk result (IsLaid (HasContent self.old) (HasContent self.new) low first end parcel) }
        ensures refused { OnErr result (ReportSame self.old self.new) }
    {
        self.put(low, first, Content::Missing)?;
        match self.put(first, end, Content::Kept(parcel)) {
            Ok(()) => Ok(()),
            Err(refused) => {
                self.spans.remove(&low);
                Err(refused)
            }
        }
    }

    /// States that the numbers from `low` up to `first` are missing, and that those from there up to `end` are in the
    /// kept parcel at this index, whatever was stated of them before.
    pub(crate) fn lay(
        &mut self,
        low: u64,
        first: u64,
        end: u64,
        parcel: usize,
    ) -> Result<(), NoMemory>
        requires { MayLay self.old low first end }
        ensures apart { AreApart self.new }
        ensures laid { OnOk result (IsLaid (HasContent self.old) (HasContent self.new) low first end parcel) }
        ensures refused { OnErr result (ReportSame self.old self.new) }
    {
        if self.is_free(low, end) {
            return self.lay_free(low, first, end, parcel);
        }
        self.mark(low)?;
        self.mark(first)?;
        self.cut(end)?;
        self.set(low, first, Content::Missing);
        self.set(first, end, Content::Kept(parcel));
        Ok(())
    }
}

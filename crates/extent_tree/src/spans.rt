//! Spans of extents, and the gaps between them.
ghost use Rattle.std.specs.Prelude.{◌≡◌, ◌<◌, [], ◌∷◌, Option, Some, None};
ghost use Rattle.use_tree.specs.declared.classes.VictimClass.{VictimClass};
ghost use Rattle.extent_tree.specs.Residents.{ResidentFits, AreSpansOf, goes as goes_lem, joined as joined_lem, has_gap as has_gap_lem, span_at, extents_staying, span_of};

use crate::residents::Resident;
use use_tree::{VictimClass, VictimClasses};

/// Where extents begin and end, in bytes from the start of a window, and the widest gap from one to the next.
#[derive(Clone, Copy, Debug, PartialEq, Eq)]
pub struct Span {
    /// Where the first one begins.
    pub start: u64,
    /// Where the last one ends.
    pub end: u64,
    /// The widest gap between two that follow each other, or 0.
    pub widest: u64,
}

/// Whether extents of this span leave `need` bytes free somewhere among the first `quota`.
pub fn has_gap(span: Option<Span>, quota: u64, need: u64) -> bool
    ensures { result ≡ has_gap_lem quota need span }
{
    match span {
        None => need <= quota,
        Some(span) => {
            let fits_after = span.end <= quota && need <= quota - span.end;
            need <= span.start || need <= span.widest || fits_after
        }
    }
}

/// Whether a copy in these classes goes if all go of this class and those before it.
fn goes(class: VictimClass, classes: VictimClasses) -> bool
    ensures { result ≡ goes_lem class classes }
{
    match class {
        VictimClass::Evictable => classes.evictable,
        VictimClass::Draining => classes.evictable || classes.draining,
        VictimClass::Spillable => classes.evictable || classes.draining || classes.spillable,
    }
}

/// The span of one extent, if its copy stays.
pub(crate) fn span_of_one(class: VictimClass, resident: Resident) -> Option<Span>
    requires { ResidentFits resident }
    ensures { result ≡ span_of (extents_staying class (resident ∷ [])) }
{
    if goes(class, resident.classes) {
        return None;
    }
    Some(Span {
        start: resident.extent.offset,
        end: resident.extent.offset + resident.extent.length,
        widest: 0,
    })
}

/// One span after another.
pub(crate) fn joined(first: Option<Span>, second: Option<Span>) -> Option<Span>
    ensures { result ≡ joined_lem first second }
{
    match (first, second) {
        (None, only) => only,
        (only, None) => only,
        (Some(first), Some(second)) => Some(Span {
            start: first.start,
            end: second.end,
            widest: first
                .widest
                .max(second.widest)
                .max(second.start.saturating_sub(first.end)),
        }),
    }
}

/// For each class, the span of the extents that stay if all copies go of it and those before it.
#[derive(Clone, Copy)]
pub(crate) struct Spans {
    evictable: Option<Span>,
    draining: Option<Span>,
    spillable: Option<Span>,
}

impl Spans {
    /// Of no extent.
    pub(crate) fn none() -> Spans
        ensures { AreSpansOf result [] }
    {
        Spans {
            evictable: None,
            draining: None,
            spillable: None,
        }
    }

    /// Of one extent.
    pub(crate) fn of(resident: Resident) -> Spans
        requires { ResidentFits resident }
        ensures { AreSpansOf result (resident ∷ []) }
    {
        Spans {
            evictable: span_of_one(VictimClass::Evictable, resident),
            draining: span_of_one(VictimClass::Draining, resident),
            spillable: span_of_one(VictimClass::Spillable, resident),
        }
    }

    /// The span for this walk.
    pub(crate) fn at(self, class: VictimClass) -> Option<Span>
        ensures { result ≡ span_at class self }
    {
        match class {
            VictimClass::Evictable => self.evictable,
            VictimClass::Draining => self.draining,
            VictimClass::Spillable => self.spillable,
        }
    }

    /// Of these extents and, after them, the others.
    pub(crate) fn joined(self, other: Spans) -> Spans
        ensures { (class : VictimClass) → span_at class result ≡ joined_lem (span_at class self) (span_at class other) }
    {
        Spans {
            evictable: joined(self.evictable, other.evictable),
            draining: joined(self.draining, other.draining),
            spillable: joined(self.spillable, other.spillable),
        }
    }
}

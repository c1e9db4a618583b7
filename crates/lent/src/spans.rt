//! The parts of a range, with the bytes that are present.
ghost use Rattle.std.specs.Prelude.{◌≡◌, ◌≤◌, ◌<◌};
ghost use Rattle.sealed.specs.Layout.{stripe_count};
ghost use Rattle.lent.specs.Granted.{cut_of};
ghost use Rattle.lent.specs.Spans.{seen, span_of, spans_of};

use crate::cut::part_at;
use crate::{Grant, Part, Span};
use sealed::Sealed;
use std::marker::Model;

/// An iterator over the spans of a granted range. Contracts see the list of those that are still
/// ahead, each as its part with its bytes.
#[derive(Drop)]
pub struct Spans<'a> {
    grant: &'a Grant,
    at: u64,
    end: u64,
}

impl<'a> Model for Spans<'a> {
    ghost use Rattle.std.specs.Prelude.{◌≡◌, ◌+◌, ◌-◌, ◌/◌, ◌≤◌, ℕ, List, Option, map};
    ghost use Rattle.std.specs.List.{range_with_len};
    ghost use Rattle.lent.specs.declared.part.Part.{Part as CutPart};
    ghost use Rattle.sealed.specs.Range.{cut_end};
    ghost use Rattle.lent.specs.Cut.{cut_part};
    ghost use Rattle.lent.specs.Spans.{spans_of};

    ghost Value = { List (CutPart × Option (List ℕ)) };

    ghost view = { λ s. spans_of s.grant.now.sealed.value
        (map (cut_part s.grant.now.sealed.value.code s.grant.now.sealed.value.width
        s.grant.now.start (s.grant.now.start + s.grant.now.len))
        (range_with_len s.at (s.end - s.at))) };

    ghost invariant = { λ s. (s.grant.now.start / s.grant.now.sealed.value.width ≤ s.at)
        × (s.at ≤ s.end) × (s.end ≡ cut_end s.grant.now.sealed.value.width s.grant.now.start
        s.grant.now.len) };
}

impl Grant {
    /// The range in order, cut where fragments end. An empty range has no span. Does not allocate.
    pub fn spans(&self) -> Spans<'_>
        ensures { result ≡ spans_of self.now.sealed.value (cut_of self.now) }
    {
        let (at, end) = (self.met.start, self.met.end);
        Spans {
            grant: self,
            at,
            end,
        }
    }
}

impl<'a> Iterator for Spans<'a> {
    ghost use Rattle.std.specs.Iterator.{YieldsFirstBy, item_count};

    type Item = Span<'a>;

    ghost next_gives = { YieldsFirstBy seen (λ rest. rest) };

    ghost remaining = { item_count (λ rest. rest) };

    fn next(&mut self) -> Option<Span<'a>> {
        if self.at == self.end {
            return None;
        }
        let grant: &'a Grant = self.grant;
        let part = part_at(grant, self.at);
        self.at += 1;
        Some(span_at(&grant.sealed, part))
    }
}

/// The span of a part.
fn span_at(sealed: &Sealed, part: Part) -> Span<'_>
    requires stripe { part.stripe < stripe_count sealed.now.code sealed.now.width sealed.now.len }
    requires fragment { part.fragment < 16 }
    requires range { (part.from ≤ part.to) × (part.to ≤ sealed.now.width) }
    ensures { seen result ≡ span_of sealed.now part }
{
    let bytes = match sealed.fragment(part.stripe, part.fragment) {
        Some(bytes) => Some(&bytes[part.from..part.to]),
        None => None,
    };
    Span {
        stripe: part.stripe,
        fragment: part.fragment,
        from: part.from,
        to: part.to,
        bytes,
    }
}

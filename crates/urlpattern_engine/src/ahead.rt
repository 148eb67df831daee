//! Lookahead: what the next byte decides about a state.

ghost use Rattle.std.specs.Prelude.{◌≡◌, ◌<◌, ◌≤◌, ◌↔◌, ℕ, Some, None, length, slice_range, IfSome, IsTrue};
ghost use Rattle.regex_hir.specs.Looks as looks;
ghost use Rattle.regex_nfa.specs.States.{IsSparseRange, target_in};
ghost use Rattle.urlpattern_engine.specs.BoundedSearches.{GoesRound, HasByte, IsInSpan, IsReadableIn, IsState, NeedsByte, next_in, run_in};

use crate::bounded_search::BoundedSearch;
use regex_hir::Look;
use regex_nfa::{State, StateId, holds};

/// The greatest number of states that save a position, one after the other, that lookahead passes
/// over.
const SAVE_COUNT: usize = 4;

/// A span of bytes, from `low` to `high`, which is empty if `low` is greater than `high`.
#[derive(Clone, Copy)]
pub(crate) struct ByteBounds {
    low: u8,
    high: u8,
}

impl BoundedSearch<'_> {
    /// Whether a state consumes a byte.
    #[inline(always)]
    pub(crate) fn reads(&self, id: StateId) -> bool
        requires { IsState self.now id }
    {
        matches!(
            self.nfa.state(id),
            State::ByteRange(_) | State::Sparse { .. }
        )
    }

    /// Whether there is a byte at position `at`, and the span contains it.
    #[inline(always)]
    pub(crate) fn is_byte_of(&self, span: ByteBounds, at: usize) -> bool
        ensures { IsTrue result → IsInSpan self.now span at }
    {
        if at < self.bytes.len() {
            span.contains(self.bytes[at])
        } else {
            false
        }
    }

    /// Whether a state consumes a byte, but has no transition on the byte at `at`, or no byte is
    /// there.
    #[inline(always)]
    pub(crate) fn reads_not(&self, id: StateId, at: usize) -> bool
        requires { IsState self.now id }
        ensures { IsTrue result → run_in self.now id at ≡ None }
    {
        let state = self.nfa.state(id);
        match state {
            State::ByteRange(_) => self.next(state, at).is_none(),
            State::Sparse { .. } => self.next(state, at).is_none(),
            _ => false,
        }
    }

    /// Returns a span of bytes on which state `id` has a transition to state `other`. The span
    /// contains the byte at `at`, if the state goes to `other` on that byte. `None`: `at` is after
    /// all bytes, or no span was found.
    #[inline(always)]
    pub(crate) fn loop_bytes(&self, id: StateId, at: usize, other: StateId) -> Option<ByteBounds>
        requires { IsState self.now id }
        ensures goes { IfSome result (GoesRound self.now id other) }
        ensures ends { IfSome result (λ _. run_in self.now id (length self.now.bytes.now) ≡ None) }
    {
        if at >= self.bytes.len() {
            return None;
        }
        match self.nfa.state(id) {
            State::ByteRange(t) => {
                if t.next == other {
                    Some(ByteBounds {
                        low: t.start,
                        high: t.end,
                    })
                } else {
                    None
                }
            }
            State::Sparse { from, to } => {
                self.sparse_bytes(from as usize, to as usize, self.bytes[at], other)
            }
            _ => None,
        }
    }

    /// Returns the span of the first transition, with an index from `from` up to but excluding
    /// `to`, that does not end before `byte`. `None`: the transition does not lead to state
    /// `other`, or there is none.
    #[inline(always)]
    fn sparse_bytes(&self, from: usize, to: usize, byte: u8, other: StateId) -> Option<ByteBounds>
        requires { IsSparseRange self.now.nfa.now.transitions.items from to }
        ensures { IfSome result (λ span.
            (b : ℕ) → span.low ≤ b
            → b ≤ span.high
            → target_in (slice_range self.now.nfa.now.transitions.items from to) b ≡ Some other) }
    {
        'transitions: for k in from..to {
            let t = self.nfa.transitions[k];
            if byte <= t.end {
                if t.next != other {
                    return None;
                }
                return Some(ByteBounds {
                    low: t.start,
                    high: t.end,
                });
            }
        }
        None
    }

    /// Returns a span that contains each byte with which a match from a state can begin, looking
    /// into one choice. `None`: unknown.
    #[inline(always)]
    pub(crate) fn first_bytes(&self, id: StateId) -> Option<ByteBounds>
        requires { IsState self.now id }
        ensures { IfSome result (NeedsByte self.now id) }
    {
        let seen = self.after_writes(id);
        match self.nfa.state(seen) {
            State::Split { first, second } => {
                let one = self.own_bytes(self.after_writes(first))?;
                let other = self.own_bytes(self.after_writes(second))?;
                Some(span_of_both(one, other))
            }
            _ => self.own_bytes(seen),
        }
    }

    /// Returns a span that contains each byte with which a match from a state can begin, by that
    /// state alone. `None`: unknown, as of a choice or of a state that saves a position.
    #[inline(always)]
    fn own_bytes(&self, id: StateId) -> Option<ByteBounds>
        requires { IsState self.now id }
        ensures { IfSome result (NeedsByte self.now id) }
    {
        match self.nfa.state(id) {
            State::ByteRange(t) => Some(ByteBounds {
                low: t.start,
                high: t.end,
            }),
            State::Look {
                look: Look::End,
                ..
            } => Some(ByteBounds { low: 1, high: 0 }),
            _ => None,
        }
    }

    /// Whether the byte at `at`, its absence, or an assertion at `at` rules out a match from a
    /// state, looking into one choice. `false` decides nothing.
    #[inline(never)]
    pub(crate) fn fails(&self, id: StateId, at: usize) -> bool
        requires { IsState self.now id }
        ensures { IsTrue result → run_in self.now id at ≡ None }
    {
        let seen = self.after_writes(id);
        match self.nfa.state(seen) {
            State::Split { first, second } => {
                if !self.stops(self.after_writes(first), at) {
                    return false;
                }
                self.stops(self.after_writes(second), at)
            }
            _ => self.stops(seen, at),
        }
    }

    /// Whether the byte at `at`, its absence, or an assertion at `at` rules out a match from a
    /// state, by that state alone. `false` decides nothing.
    #[inline(always)]
    fn stops(&self, id: StateId, at: usize) -> bool
        requires { IsState self.now id }
        ensures { IsTrue result → run_in self.now id at ≡ None }
    {
        let state = self.nfa.state(id);
        match state {
            State::Look { look, .. } => !self.holds(look, at),
            State::Split { .. } => false,
            State::Save { .. } => false,
            State::Match => false,
            _ => self.next(state, at).is_none(),
        }
    }

    /// Passes over up to `SAVE_COUNT` states that save a position, from state `id` on, and returns
    /// the state after them.
    #[inline(always)]
    pub(crate) fn after_writes(&self, id: StateId) -> StateId
        requires { IsState self.now id }
        ensures within { IsState self.now result }
        ensures none { (at : ℕ) → run_in self.now result at ≡ None → run_in self.now id at ≡ None }
    {
        let mut seen = id;
        'writes: for _ in 0..SAVE_COUNT {
            match self.nfa.state(seen) {
                State::Save { next, .. } => seen = next,
                _ => return seen,
            }
        }
        seen
    }

    /// Whether an assertion holds at position `at`.
    #[inline(always)]
    pub(crate) fn holds(&self, look: Look, at: usize) -> bool
        ensures { result ≡ looks.holds look self.now.bytes.now at }
    {
        match look {
            Look::End => self.bytes.get(at).is_none(),
            Look::Start if at == 0 => true,
            _ => holds(look, self.bytes, at),
        }
    }

    /// Returns the state to which `state` goes on the byte at `at`. `None`: no byte is there, or
    /// there is no transition on it.
    #[inline(always)]
    pub(crate) fn next(&self, state: State, at: usize) -> Option<StateId>
        requires { IsReadableIn self.now state }
        ensures is { result ≡ next_in self.now state at }
        ensures within { IfSome result (λ q.
            IsState self.now q × (at < length self.now.bytes.now)) }
    {
        if at < self.bytes.len() {
            self.nfa.next_on(state, self.bytes[at])
        } else {
            None
        }
    }
}

/// The least span that contains both spans.
#[inline(always)]
fn span_of_both(one: ByteBounds, other: ByteBounds) -> ByteBounds
    ensures one { (b : ℕ) → HasByte one b → HasByte result b }
    ensures other { (b : ℕ) → HasByte other b → HasByte result b }
{
    if other.high < other.low {
        return one;
    }
    if one.high < one.low {
        return other;
    }
    ByteBounds {
        low: one.low.min(other.low),
        high: one.high.max(other.high),
    }
}

impl ByteBounds {
    /// Whether the span contains a byte.
    #[inline(always)]
    pub(crate) fn contains(self, byte: u8) -> bool
        ensures { IsTrue result ↔ HasByte self byte }
    {
        self.low <= byte && byte <= self.high
    }
}

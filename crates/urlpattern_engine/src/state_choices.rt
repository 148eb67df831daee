//! Decides between the two states of a choice by the bytes that follow.

ghost use Rattle.std.specs.Prelude.{◌≡◌, ◌⊎◌, ℕ, None, List, IsTrue, false};
ghost use Rattle.regex_nfa.specs.declared.state.State.TheVariants as states;
ghost use Rattle.urlpattern_engine.specs.BoundedSearches.{FollowsMove, GoesRound, IsTextPlace, IsState, NeedsByte, found_from, run_in, state_in};

use crate::ahead::ByteBounds;
use crate::bounded_search::{BoundedSearch, StateMove};
use regex_nfa::{State, StateId};

/// How far a match runs through a loop before it has to choose between the loop and its exit.
#[derive(Clone, Copy)]
struct LoopRun {
    /// The position up to which the match runs.
    place: usize,
    /// Whether a match may continue from either state at the position.
    is_open: bool,
    /// Whether all remaining bytes, once read, rule out a match from the first state at the
    /// position.
    first_fails: bool,
}

impl BoundedSearch<'_> {
    /// Returns the next move of a search from state `id` at position `at`, a choice of two states
    /// of which `first` is preferred. Bytes decide the choice where they can.
    #[inline(always)]
    pub(crate) fn choice(
        &self,
        id: StateId,
        first: StateId,
        second: StateId,
        at: usize,
    ) -> StateMove
        requires choice { state_in self.now id ≡ states.Split first second }
        requires states { IsState self.now first × IsState self.now second }
        requires place { IsTextPlace self.now at }
        ensures { (cells : List ℕ)
            → FollowsMove self.now (found_from self.now cells id at) cells result }
    {
        let LoopRun {
            place,
            is_open,
            first_fails,
        } = self.run_loop(id, first, second, at);
        if first_fails {
            return StateMove::ContinueByRest(second, place);
        }
        if is_open {
            return StateMove::Choice(first, second, place);
        }
        if self.reads_not(first, place) {
            return StateMove::Continue(second, place);
        }
        if self.reads_not(second, place) {
            return StateMove::Continue(first, place);
        }
        if self.fails(second, place) {
            return StateMove::Continue(first, place);
        }
        if self.fails(first, place) {
            return StateMove::Continue(second, place);
        }
        StateMove::Choice(first, second, place)
    }

    /// Returns how far a match from the choice `id` runs, if one of its two states is the body of a
    /// loop back to `id`, and the other one the exit: over the bytes that the body consumes and
    /// with which the exit cannot begin. Without a loop, no further than `at`.
    #[inline(always)]
    fn run_loop(&self, id: StateId, first: StateId, second: StateId, at: usize) -> LoopRun
        requires choice { state_in self.now id ≡ states.Split first second }
        requires states { IsState self.now first × IsState self.now second }
        requires place { IsTextPlace self.now at }
        ensures same { run_in self.now id at ≡ run_in self.now id result.place }
        ensures within { IsTextPlace self.now result.place }
        ensures fails { IsTrue result.first_fails → run_in self.now first result.place ≡ None }
    {
        if self.reads(first) {
            self.run_greedy_loop(id, first, second, at)
        } else {
            self.run_lazy_loop(id, first, second, at)
        }
    }

    /// Returns how far a match from the choice `id` runs, if `body`, its first state, is the body
    /// of a greedy loop. If all remaining bytes show that the loop can be left only where the run
    /// ends, `first_fails` says so.
    #[inline(always)]
    fn run_greedy_loop(&self, id: StateId, body: StateId, exit: StateId, at: usize) -> LoopRun
        requires choice { state_in self.now id ≡ states.Split body exit }
        requires states { IsState self.now body × IsState self.now exit }
        requires place { IsTextPlace self.now at }
        ensures same { run_in self.now id at ≡ run_in self.now id result.place }
        ensures within { IsTextPlace self.now result.place }
        ensures fails { IsTrue result.first_fails → run_in self.now body result.place ≡ None }
    {
        let Some(inside) = self.loop_bytes(body, at, id) else {
            return closed(at);
        };
        let Some(leaving) = self.first_bytes(exit) else {
            return closed(self.loop_end_by_state(id, body, exit, inside, at));
        };
        let place = self.loop_end(id, body, exit, inside, leaving, at);
        if !self.is_byte_of(inside, place) {
            return closed(place);
        }
        let last = self.loop_end(id, body, exit, inside, leaving, place + 1);
        if last < self.bytes.len() {
            return open(place);
        }
        LoopRun {
            place,
            is_open: true,
            first_fails: self.fails(exit, last),
        }
    }

    /// Returns how far a match from the choice `id` runs, if `body`, its second state, is the body
    /// of a lazy loop, which `exit` leaves.
    #[inline(always)]
    fn run_lazy_loop(&self, id: StateId, exit: StateId, body: StateId, at: usize) -> LoopRun
        requires choice { state_in self.now id ≡ states.Split exit body }
        requires states { IsState self.now exit × IsState self.now body }
        requires place { IsTextPlace self.now at }
        ensures same { run_in self.now id at ≡ run_in self.now id result.place }
        ensures within { IsTextPlace self.now result.place }
        ensures fails { IsTrue result.first_fails → run_in self.now exit result.place ≡ None }
    {
        let Some(inside) = self.loop_bytes(body, at, id) else {
            return closed(at);
        };
        let Some(leaving) = self.first_bytes(exit) else {
            return closed(self.loop_end_by_state(id, body, exit, inside, at));
        };
        let place = self.loop_end(id, body, exit, inside, leaving, at);
        if self.is_byte_of(inside, place) {
            open(place)
        } else {
            closed(place)
        }
    }

    /// Returns the first position from `at` on whose byte the body of a loop does not consume
    /// (outside of `inside`), or its exit may begin with (in `leaving`). Without one, the end of
    /// the bytes.
    ///
    /// `id` is the choice between `body` and `exit`, in either order.
    #[inline(always)]
    fn loop_end(
        &self,
        id: StateId,
        body: StateId,
        exit: StateId,
        inside: ByteBounds,
        leaving: ByteBounds,
        at: usize,
    ) -> usize
        requires choice { (state_in self.now id ≡ states.Split body exit)
            ⊎ (state_in self.now id ≡ states.Split exit body) }
        requires goes { GoesRound self.now body id inside }
        requires leaves { NeedsByte self.now exit leaving }
        requires place { IsTextPlace self.now at }
        ensures same { run_in self.now id at ≡ run_in self.now id result }
        ensures within { IsTextPlace self.now result }
    {
        let mut place = at;
        'bytes: while place < self.bytes.len() {
            let byte = self.bytes[place];
            if !inside.contains(byte) {
                return place;
            }
            if leaving.contains(byte) {
                return place;
            }
            place += 1;
        }
        place
    }

    /// Returns the first position from `at` on whose byte the body of a loop does not consume, or
    /// its exit may begin with, as `loop_end` does, where the exit begins with a byte of several
    /// spans, such as a letter in both cases. `at`: the exit may begin otherwise.
    ///
    /// Not inlined, since most exits begin with bytes of one span.
    #[inline(never)]
    fn loop_end_by_state(
        &self,
        id: StateId,
        body: StateId,
        exit: StateId,
        inside: ByteBounds,
        at: usize,
    ) -> usize
        requires choice { (state_in self.now id ≡ states.Split body exit)
            ⊎ (state_in self.now id ≡ states.Split exit body) }
        requires state { IsState self.now exit }
        requires goes { GoesRound self.now body id inside }
        requires place { IsTextPlace self.now at }
        ensures same { run_in self.now id at ≡ run_in self.now id result }
        ensures within { IsTextPlace self.now result }
    {
        let state = self.nfa.state(self.after_writes(exit));
        let State::Sparse { .. } = state else {
            return at;
        };
        let mut place = at;
        'bytes: while self.is_byte_of(inside, place) && self.next(state, place).is_none() {
            place += 1;
        }
        place
    }
}

/// A place where a match may continue from either state of a choice.
#[inline(always)]
fn open(place: usize) -> LoopRun
    ensures place { result.place ≡ place }
    ensures open { result.first_fails ≡ false }
{
    LoopRun {
        place,
        is_open: true,
        first_fails: false,
    }
}

/// A place where the next byte, or its absence, may decide a choice.
#[inline(always)]
fn closed(place: usize) -> LoopRun
    ensures place { result.place ≡ place }
    ensures open { result.first_fails ≡ false }
{
    LoopRun {
        place,
        is_open: false,
        first_fails: false,
    }
}

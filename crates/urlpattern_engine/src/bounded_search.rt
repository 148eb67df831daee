//! Matches bytes by an automaton, by backtracking without a visited set.

ghost use Rattle.std.specs.Prelude.{◌≡◌, ◌^◌, ◌<◌, ◌≤◌, option_map, IfNone, IfOk};
ghost use Rattle.regex_vm.specs.Found.{group_cells, put};
ghost use Rattle.urlpattern_engine.specs.Automatons.{match_at_start};
ghost use Rattle.urlpattern_engine.specs.BoundedSearches.{FollowsMove, IsFoundEnd, IsTextPlace, IsState, found_from};

use regex_nfa::{Nfa, State, StateId};

/// The number of states that a search may visit, apart from those for each byte. A choice that is
/// left open, or that all remaining bytes decide, counts as one more state for each remaining byte.
const STATES: usize = 128;

/// The number of further states that a search may visit for each byte of the text.
const STATES_PER_BYTE: usize = 16;

/// The greatest number of choices that are open at once.
const DEPTH: usize = 64;

/// The number of cells of a search, two for each of four groups: its start and its end.
pub(crate) const CELL_COUNT: usize = 8;

/// The error of a search that would visit too many states, or leave too many choices open.
#[derive(Clone, Copy)]
pub(crate) struct BudgetExceeded;

/// The next move of a search from a state at a position.
#[derive(Clone, Copy)]
pub(crate) enum StateMove {
    /// Continue with the state at the position.
    Continue(StateId, usize),
    /// Continue with the state at the position; all remaining bytes were read to decide so.
    ContinueByRest(StateId, usize),
    /// Try the first state at the position, and backtrack to the second if the first has no match.
    Choice(StateId, StateId, usize),
    /// A match ends at the position.
    Ends(usize),
    /// No match.
    Fails,
}

/// An automaton and bytes, to be matched from their start.
///
/// A choice stays open only if no byte was found to decide it. Visited states are not marked, so a
/// search may be slow, and is then given up.
#[derive(Clone, Copy)]
pub(crate) struct BoundedSearch<'a> {
    pub(crate) nfa: &'a Nfa,
    pub(crate) bytes: &'a [u8],
}

impl BoundedSearch<'_> {
    /// Returns the cells of the first four groups, if the automaton matches at the start of the
    /// bytes: start and end of a group, plus one, or 0 if it did not participate. `None`: no match.
    ///
    /// The error is that the search was given up.
    pub(crate) fn find(&self) -> Result<Option<[usize; CELL_COUNT]>, BudgetExceeded>
        ensures { IfOk result (λ cells.
            cells
            ≡ option_map (λ found. group_cells found 8)
            (match_at_start self.now.nfa.now self.now.bytes.now)) }
    {
        let mut cells = [0usize; CELL_COUNT];
        let mut budget = self
            .bytes
            .len()
            .saturating_mul(STATES_PER_BYTE)
            .saturating_add(STATES);
        match self.end(self.nfa.start, 0, DEPTH, &mut budget, &mut cells)? {
            Some(_) => Ok(Some(cells)),
            None => Ok(None),
        }
    }

    /// Returns the end of the preferred match from `state` at position `at`, and writes the cells
    /// of its groups. `None`: no match, and the cells may have changed.
    ///
    /// `depth` is the number of choices that may still be left open, `budget` the number of states
    /// that may still be visited. The error is that the search was given up.
    #[inline(never)]
    #[cycle(search)]
    fn end(
        &self,
        state: StateId,
        at: usize,
        depth: usize,
        budget: &mut usize,
        cells: &mut [usize; CELL_COUNT],
    ) -> Result<Option<usize>, BudgetExceeded>
        requires state { IsState self.now state }
        requires place { IsTextPlace self.now at }
        ensures found { IfOk result
            (IsFoundEnd (found_from self.now cells.old state at) cells.new) }
        ensures fewer { budget.new ≤ budget.old }
    {
        let mut id = state;
        let mut place = at;
        'states: while *budget > 0 {
            *budget -= 1;
            match self.step(id, place, cells) {
                StateMove::Continue(next, after) => {
                    id = next;
                    place = after;
                }
                StateMove::ContinueByRest(next, after) => {
                    *budget = budget.saturating_sub(self.bytes.len() - after);
                    id = next;
                    place = after;
                }
                StateMove::Choice(first, second, after) => {
                    *budget = budget.saturating_sub(self.bytes.len() - after);
                    match self.try_branch(first, after, depth, budget, cells)? {
                        Some(end) => return Ok(Some(end)),
                        None => {
                            id = second;
                            place = after;
                        }
                    }
                }
                StateMove::Ends(end) => return Ok(Some(end)),
                StateMove::Fails => return Ok(None),
            }
        }
        Err(BudgetExceeded)
    }

    /// Returns the end of the preferred match from `state` at position `at`, with one more choice
    /// left open, and writes the cells of its groups. `None`: no match, and the cells are
    /// unchanged.
    ///
    /// `depth` is the number of choices that may still be left open, `budget` the number of states
    /// that may still be visited. The error is that the search was given up.
    #[inline(never)]
    #[cycle(search)]
    fn try_branch(
        &self,
        state: StateId,
        at: usize,
        depth: usize,
        budget: &mut usize,
        cells: &mut [usize; CELL_COUNT],
    ) -> Result<Option<usize>, BudgetExceeded>
        requires state { IsState self.now state }
        requires place { IsTextPlace self.now at }
        ensures found { IfOk result
            (IsFoundEnd (found_from self.now cells.old state at) cells.new) }
        ensures kept { IfOk result (λ end. IfNone end (cells.new ≡ cells.old)) }
        ensures fewer { budget.new ≤ budget.old }
    {
        if depth == 0 {
            return Err(BudgetExceeded);
        }
        let mut copy = *cells;
        match self.end(state, at, depth - 1, budget, &mut copy)? {
            Some(end) => {
                *cells = copy;
                Ok(Some(end))
            }
            None => Ok(None),
        }
    }

    /// Returns the next move of a search from state `id` at position `at`. A state that saves a
    /// position writes its cell.
    #[inline(always)]
    fn step(&self, id: StateId, at: usize, cells: &mut [usize; CELL_COUNT]) -> StateMove
        requires state { IsState self.now id }
        requires place { IsTextPlace self.now at }
        ensures { FollowsMove self.now (found_from self.now cells.old id at) cells.new result }
    {
        let state = self.nfa.state(id);
        match state {
            State::Split { first, second } => self.choice(id, first, second, at),
            State::Save { slot, next } => {
                write(slot, at, cells);
                StateMove::Continue(next, at)
            }
            State::Look { look, next } => {
                if self.holds(look, at) {
                    StateMove::Continue(next, at)
                } else {
                    StateMove::Fails
                }
            }
            State::Match => StateMove::Ends(at),
            _ => match self.next(state, at) {
                Some(next) => StateMove::Continue(next, at + 1),
                None => StateMove::Fails,
            },
        }
    }
}

/// Writes a position, plus one, to the cell of a slot. A slot of the whole match or of a group
/// after the fourth has no cell.
#[inline(always)]
fn write(slot: u32, at: usize, cells: &mut [usize; CELL_COUNT])
    requires { at < 2 ^ 63 }
    ensures { cells.new ≡ put cells.old slot at }
{
    let slot = slot as usize;
    if slot < 2 {
        return;
    }
    let index = slot - 2;
    if index < CELL_COUNT {
        cells[index] = at + 1;
    }
}

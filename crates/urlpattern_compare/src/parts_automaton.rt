//! Automata that read texts character by character: made of parts, from the last part to the first.

ghost use Rattle.std.specs.Prelude.{◌≡◌, ◌≢◌, ◌⊎◌, ◌≤◌, ◌<◌, ◌+◌, ◌++◌, [], IfNone, IfOk, IsTrue, None, OnOk, false, length};
ghost use Rattle.urlpattern_compare.specs.{Answers.AcceptsMeaning, Answers.IfMade, Answers.IsByCase};
ghost use Rattle.urlpattern_compare.specs.Automata.{IsWithin, passes};
ghost use Rattle.urlpattern_compare.specs.Making.{MayHaveManyStates, IsMadeOf, IsPartAdded, IsPartLarge, edges_to, made_view, may_miss, new_starts, repeats, with_cell, with_cells, with_copies, with_part, with_repeat_starts, with_shape};
ghost use Rattle.urlpattern_compare.specs.MeantTexts.{folded_options, folded_part};
ghost use Rattle.urlpattern_expressions.specs.Shapes.{IsShapeOfPart, Shape, shape};
ghost use Rattle.urlpattern_syntax.specs.{Options.options_view, Parts.part_view, Parts.parts_view};
ghost use Rattle.urlpattern_syntax.specs.declared.parser.PartType.{PartType};

use crate::cells::{Cell, cells_of, has_one};
use crate::edge_counts::edges_of;
use crate::shapes::{add_tree, begins, size_of};
use std::alloc::{AllocError, Global};
use urlpattern_expressions::{Tree, is_custom, part_tree};
use urlpattern_syntax::error::OutOfMemory;
use urlpattern_syntax::parser::{Options, Part, PartModifier};

/// The number of states beyond which no further part is added to an automaton. An automaton has a
/// state for each character and each full wildcard, two for each segment wildcard, one for each
/// character or class of a custom expression, whose repetitions are written out, and one more.
/// The part that exceeds the number is still added if it alone has no more states, so an automaton
/// may have up to twice as many.
pub const MOST_STATES: usize = 10_000;

/// The number of edges beyond which no custom expression is added to an automaton: those of the
/// automaton, and those that the expression would add. An edge takes 32 bytes, so such an automaton
/// takes some five megabytes at most before a part is added that is not custom.
///
/// An expression has an edge from each of its characters or classes to each that may follow, for
/// each range of the class: `\d` has one range, `[a-z0-9-]` three, and `\w` more than 700, so that
/// `\w{1,64}` is compared, and `\w{1,100}` is not.
pub const MOST_EDGES: usize = 150_000;

/// A test of one character.
#[derive(Clone, Copy, Debug, PartialEq, Eq)]
pub enum Test {
    /// Only this character passes.
    Only(char),
    /// Every character but this passes.
    AnyBut(char),
    /// Every character passes whose code is in this range, with both its ends.
    Within(u32, u32),
}

impl Test {
    /// Whether the character passes.
    pub fn passes(self, c: char) -> bool
        ensures { result ≡ passes self c }
    {
        match self {
            Self::Only(only) => c == only,
            Self::AnyBut(but) => c != but,
            Self::Within(first, last) => first <= u32::from(c) && u32::from(c) <= last,
        }
    }
}

/// An edge: from one state to another, by a character that passes the test.
#[derive(Clone, Copy, Debug)]
pub struct Edge {
    /// The state before the character.
    pub from: usize,
    /// The test of the character.
    pub test: Test,
    /// The state after the character.
    pub to: usize,
}

/// An automaton, which accepts a text if the text leads from a start state to state 0.
///
/// If it ignores case, its tests name characters in lower case, and texts are read in lower case.
#[derive(Debug, Drop)]
pub struct PartsAutomaton {
    /// The edges.
    pub edges: Vec<Edge>,
    /// The start states.
    pub starts: Vec<usize>,
    /// The number of states.
    pub states: usize,
    /// Whether the case of ASCII letters is ignored.
    pub ignore_case: bool,
}

impl PartsAutomaton {
    /// Makes the automaton of `parts`. `None`: the automaton would have more than [`MOST_STATES`]
    /// states, or a custom expression has no tree or more than [`MOST_EDGES`] edges. Automata with
    /// up to twice as many states may be made.
    ///
    /// The automaton accepts the texts that the parts match, if case is kept or no part is a custom
    /// regular expression.
    pub fn of_parts(
        alloc: Global,
        options: &Options,
        parts: &[Part],
    ) -> Result<Option<Self>, AllocError>
        ensures within { IfMade result IsWithin }
        ensures many { IfOk result (λ found.
            IfNone found (MayHaveManyStates (options_view options.now) (parts_view parts.now))) }
        ensures accepts { IsByCase (options_view options.now) (parts_view parts.now)
            → IfMade result (AcceptsMeaning (options_view options.now) (parts_view parts.now)) }
    {
        make(alloc, options, parts)
    }

    /// Prepends a part. `false`: a custom part has no tree, or there are too many cells, states or
    /// edges.
    fn add_part(
        &mut self,
        alloc: Global,
        options: &Options,
        part: &Part,
    ) -> Result<bool, AllocError>
        ensures added { IfOk result (λ added. IsTrue added
            → IsPartAdded (options_view options.now) (part_view part.now) (made_view self.old)
            (made_view self.new)) }
        ensures many { IfOk result (λ added. added ≡ false
            → (part.now.kind ≡ PartType.Regexp)
            ⊎ IsPartLarge (folded_options (options_view options.now))
            (folded_part options.now.ignore_case (part_view part.now)) (made_view self.old)) }
    {
        if is_custom(part) {
            self.add_custom(alloc, part)
        } else {
            self.add_plain(alloc, options, part)
        }
    }

    /// Prepends a part that is not custom. `false`: there are too many cells or states.
    fn add_plain(
        &mut self,
        alloc: Global,
        options: &Options,
        part: &Part,
    ) -> Result<bool, AllocError>
        requires { part.now.kind ≢ PartType.Regexp }
        ensures added { IfOk result (λ added. IsTrue added
            → made_view self.new ≡ with_part (folded_options (options_view options.now))
            (made_view self.old) (folded_part options.now.ignore_case (part_view part.now)) None) }
        ensures many { IfOk result (λ added. added ≡ false
            → IsPartLarge (folded_options (options_view options.now))
            (folded_part options.now.ignore_case (part_view part.now)) (made_view self.old)) }
    {
        let cells = cells_of(alloc, options, part)?;
        if cells.len() > MOST_STATES || self.states > MOST_STATES {
            return Ok(false);
        }
        self.add_copies(alloc, part.modifier, &cells)?;
        Ok(true)
    }

    /// Prepends a custom part. `false`: the part has no tree, or there are too many states or
    /// edges.
    fn add_custom(&mut self, alloc: Global, part: &Part) -> Result<bool, AllocError>
        requires { part.now.kind ≡ PartType.Regexp }
        ensures { IfOk result (λ added. IsTrue added
            → (shape : Shape) × IsShapeOfPart (part_view part.now) shape
            × (made_view self.new ≡ with_shape (made_view self.old) shape)) }
    {
        match part_tree(alloc, part) {
            Err(OutOfMemory) => Err(AllocError),
            Ok(None) => Ok(false),
            Ok(Some(tree)) => self.add_shape(alloc, &tree),
        }
    }

    /// Prepends a tree. `false`: there are too many states or edges.
    fn add_shape(&mut self, alloc: Global, tree: &Tree) -> Result<bool, AllocError>
        ensures { IfOk result (λ added. IsTrue added
            → made_view self.new ≡ with_shape (made_view self.old) (shape tree.now)) }
    {
        let size = size_of(tree);
        if size > MOST_STATES || self.states > MOST_STATES {
            return Ok(false);
        }
        let edges = edges_of(tree).with(self.starts.len());
        if self.edges.len().saturating_add(edges) > MOST_EDGES {
            return Ok(false);
        }
        add_tree(alloc, &mut self.edges, tree, self.states, &self.starts)?;
        let starts = begins(alloc, tree, self.states, &self.starts)?;
        self.starts = starts;
        self.states += size;
        Ok(true)
    }

    /// Prepends `cells`, which are in reverse order, so that they are read as many times as
    /// `modifier` permits.
    fn add_copies(
        &mut self,
        alloc: Global,
        modifier: PartModifier,
        cells: &[Cell],
    ) -> Result<(), AllocError>
        requires { self.old.states + length cells.now ≤ usize.MAX }
        ensures { OnOk result
            (made_view self.new ≡ with_copies (made_view self.old) modifier cells.now) }
    {
        let missing = if may_miss(modifier) && has_one(cells) {
            Vec::from_slice(alloc, &self.starts)?
        } else {
            Vec::new(alloc)
        };
        self.add_repeat_starts(alloc, repeats(modifier), cells)?;
        self.add_cells(cells)?;
        self.starts.extend_from_slice(&missing)
    }

    /// If `again` is set, since the part of `cells` may repeat, adds the start states that `cells`,
    /// which are prepended next, will have, so that the cells may be read again. Nothing is added
    /// if no cell reads exactly one character.
    fn add_repeat_starts(
        &mut self,
        alloc: Global,
        again: bool,
        cells: &[Cell],
    ) -> Result<(), AllocError>
        requires { self.old.states + length cells.now ≤ usize.MAX }
        ensures { OnOk result
            (made_view self.new ≡ with_repeat_starts (made_view self.old) again cells.now) }
    {
        if again && has_one(cells) {
            let new_starts = new_starts(alloc, self.states, cells)?;
            self.starts.extend_from_slice(&new_starts)?;
        }
        Ok(())
    }

    /// Prepends `cells`, which are in reverse order.
    fn add_cells(&mut self, cells: &[Cell]) -> Result<(), AllocError>
        requires { self.old.states + length cells.now ≤ usize.MAX }
        ensures { OnOk result (made_view self.new ≡ with_cells (made_view self.old) cells.now) }
    {
        for cell in cells {
            match *cell {
                Cell::One(test) => self.add_one(test)?,
                Cell::Many(test) => self.add_many(test)?,
            }
        }
        Ok(())
    }

    /// Prepends a cell of one character that passes `test`: a new state becomes the only start.
    fn add_one(&mut self, test: Test) -> Result<(), AllocError>
        requires { self.old.states < usize.MAX }
        ensures { OnOk result
            (made_view self.new ≡ with_cell (made_view self.old) (Cell.One test)) }
    {
        self.add_edges(test)?;
        self.starts.clear();
        self.starts.push(self.states)?;
        self.states += 1;
        Ok(())
    }

    /// Prepends a cell of any number of characters that pass `test`: a new state, with an edge to
    /// itself, becomes a further start.
    fn add_many(&mut self, test: Test) -> Result<(), AllocError>
        requires { self.old.states < usize.MAX }
        ensures { OnOk result
            (made_view self.new ≡ with_cell (made_view self.old) (Cell.Many test)) }
    {
        self.starts.push(self.states)?;
        self.add_edges(test)?;
        self.states += 1;
        Ok(())
    }

    /// Adds an edge from the next state that will be made to each start, by characters that pass
    /// `test`.
    fn add_edges(&mut self, test: Test) -> Result<(), AllocError>
        ensures edges { OnOk result (self.new.edges.items
            ≡ self.old.edges.items ++ edges_to self.old.states test self.old.starts.items) }
        ensures starts { OnOk result (self.new.starts.items ≡ self.old.starts.items) }
        ensures states { OnOk result (self.new.states ≡ self.old.states) }
    {
        add_edges(&mut self.edges, self.states, test, &self.starts)
    }
}

/// Makes the automaton of `parts`, from the last part to the first. `None`: the automaton would
/// have more than [`MOST_STATES`] states, or a custom expression has no tree or more than
/// [`MOST_EDGES`] edges.
pub(crate) fn make(
    alloc: Global,
    options: &Options,
    parts: &[Part],
) -> Result<Option<PartsAutomaton>, AllocError>
    ensures made { IfMade result
        (IsMadeOf (options_view options.now) (parts_view parts.now)) }
    ensures many { IfOk result (λ found.
        IfNone found (MayHaveManyStates (options_view options.now) (parts_view parts.now))) }
{
    let mut automaton = PartsAutomaton {
        edges: Vec::new(alloc),
        starts: vec![in alloc; 0]?,
        states: 1,
        ignore_case: false,
    };
    let mut left = parts;
    while let Some((part, before)) = left.split_last() {
        if !automaton.add_part(alloc, options, part)? {
            return Ok(None);
        }
        left = before;
    }
    automaton.ignore_case = options.ignore_case;
    Ok(Some(automaton))
}

/// Adds an edge from `from` to each of `others`, by characters that pass `test`.
pub(crate) fn add_edges(
    edges: &mut Vec<Edge>,
    from: usize,
    test: Test,
    others: &[usize],
) -> Result<(), AllocError>
    ensures { OnOk result (edges.new.items ≡ edges.old.items ++ edges_to from test others.now) }
{
    for to in others {
        edges.push(Edge {
            from,
            test,
            to: *to,
        })?;
    }
    Ok(())
}

/// Returns the new start states that `cells`, which are in reverse order, have once they are
/// prepended to an automaton of `states` states.
fn new_starts(alloc: Global, states: usize, cells: &[Cell]) -> Result<Vec<usize>, AllocError>
    requires { states + length cells.now ≤ usize.MAX }
    ensures { IfOk result (λ starts. starts.items ≡ new_starts [] states cells.now) }
{
    let mut starts = Vec::new(alloc);
    let mut count = states;
    for cell in cells {
        if let Cell::One(_) = cell {
            starts.clear();
        }
        starts.push(count)?;
        count += 1;
    }
    Ok(starts)
}

/// Whether a part with this modifier may repeat.
fn repeats(modifier: PartModifier) -> bool
    ensures { result ≡ repeats modifier }
{
    matches!(modifier, PartModifier::ZeroOrMore | PartModifier::OneOrMore)
}

/// Whether a part with this modifier may be left out.
pub(crate) fn may_miss(modifier: PartModifier) -> bool
    ensures { result ≡ may_miss modifier }
{
    matches!(modifier, PartModifier::Optional | PartModifier::ZeroOrMore)
}

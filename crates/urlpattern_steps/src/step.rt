//! The steps of an expression.

/// A step of an expression, which matches a prefix of the remaining text.
#[derive(Clone, Copy)]
pub enum Step {
    /// A literal character.
    Literal(char),
    /// A captured lazy run: one or more characters other than the given one, which ends the run, as
    /// few as possible.
    LazyRun(char),
    /// A captured greedy run: any number of characters other than a line feed, as many as possible.
    DotStar,
    /// An optional group, greedy. The steps of the group are the next ones in the list.
    OptionalGroup(Group),
    /// A captured greedy run: characters other than the `end` of the run, as many as possible.
    GreedyRun(Run),
    /// A greedy repeat of a literal: as many copies as possible.
    RepeatedLiteral(RepeatedLiteral),
    /// Runs of characters joined by a separator, captured as a whole, as many as possible.
    Segments(Segments),
}

/// The size of an optional group.
#[derive(Clone, Copy)]
pub struct Group {
    /// The number of steps in the group.
    pub steps: usize,
    /// The number of steps in the group that capture.
    pub captures: usize,
}

/// A literal of one or more characters: the first, and those of the literal steps that follow the
/// step with this `LiteralString`.
#[derive(Clone, Copy)]
pub struct LiteralString {
    /// The first character.
    pub first: char,
    /// The number of literal steps with the characters after the first, one for each.
    pub others: usize,
}

/// A literal and how many copies of it match.
#[derive(Clone, Copy)]
pub struct RepeatedLiteral {
    /// The literal.
    pub text: LiteralString,
    /// Whether zero copies match: `*` rather than `+`.
    pub allows_zero: bool,
}

/// A *run*: consecutive characters other than `end`.
#[derive(Clone, Copy)]
pub struct Run {
    /// The character that ends the run.
    pub end: char,
    /// Whether the run may be empty.
    pub may_be_empty: bool,
}

/// Runs of characters joined by a separator.
#[derive(Clone, Copy)]
pub struct Segments {
    /// The separator.
    pub separator: LiteralString,
    /// The character that ends a run.
    pub end: char,
    /// Whether a run is greedy and may be empty; otherwise it is lazy and not empty.
    pub is_greedy: bool,
}

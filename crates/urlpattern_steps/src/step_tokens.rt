//! Reads the tokens of a regular expression that is parsed into steps.

ghost use Rattle.std.specs.Prelude.{◌≡◌, ◌≢◌, ◌∷◌, ◌++◌, ℕ, ◌<◌, ◌≤◌, Bool, List, length, codes, IfNone, IfSome, IsTrue};
ghost use Rattle.std.specs.Str.{chars};
ghost use Rattle.urlpattern_steps.specs.ReadSteps.{BeginsWithCaptured, BeginsWithCharacter, BeginsWithRegexpToken, IsRead, IsRepeatOf, IsRunOf, IsStepOf, IsUnquantified, AllowsEmptyRun, FindsRun, ReadsCaptured, ReadsFirstSegments, ReadsRuns, ReadsRegexpTokens, RepeatsRuns, quantifier_of, group_quantifier_text};
ghost use Rattle.urlpattern_meaning.specs.Dialect.{Captured, IsCharacter, IsClassCharacter, Items};
ghost use Rattle.urlpattern_syntax.specs.RegexpText.{regexp_marks};
ghost use Rattle.urlpattern_syntax.specs.Text.{is_among};

use crate::step::{Run, Step};
use crate::text_cuts::after;
use urlpattern_syntax::text::split_first;

/// A token of an expression: a piece of its text that makes a step, or an optional group of one
/// step, that opens or closes a group, or that begins separated runs.
#[derive(Clone, Copy)]
pub enum StepToken {
    /// `(?:`
    Open,
    /// `)` and the quantifier of the group.
    Close(GroupQuantifier),
    /// A literal character or a capturing group.
    Step(Step),
    /// A capturing group and `?`.
    OptionalStep(Step),
    /// `((?:`, a run and `)(?:`, which begin separated runs: the character that ends the run, and
    /// whether the run is greedy.
    FirstSegment(char, bool),
}

/// The quantifier after a group.
#[derive(Clone, Copy)]
pub enum GroupQuantifier {
    /// No quantifier.
    Once,
    /// `?`
    Optional,
    /// `*`
    ZeroOrMore,
    /// `+`
    OneOrMore,
}

/// Returns the token that the text begins with, and the rest. `None`: the text begins with no
/// token.
pub fn read_token(text: &str) -> Option<(StepToken, &str)>
    ensures token { IfSome result (λ read.
        BeginsWithRegexpToken (chars text.now) read.0 (chars read.1.now)) }
    ensures reads { ReadsRegexpTokens (chars text.now) result }
    ensures len { IfSome result (λ read. length read.1.now < length text.now) }
{
    if let Some(rest) = after(text, ')') {
        let (times, remaining) = read_group_quantifier(rest);
        return Some((StepToken::Close(times), remaining));
    }
    if let Some(inner) = after(text, '(') {
        return read_bracket(inner);
    }
    let (c, rest) = read_literal(text)?;
    Some((StepToken::Step(Step::Literal(c)), rest))
}

/// Returns the quantifier of a group, `Once` if there is none, and the rest. `text` is what follows
/// the closing parenthesis.
fn read_group_quantifier(text: &str) -> (GroupQuantifier, &str)
    ensures times { chars text.now ≡ group_quantifier_text result.0 ++ chars result.1.now }
    ensures longest { result.0 ≡ GroupQuantifier.Once → IsUnquantified (chars result.1.now) }
    ensures len { length result.1.now ≤ length text.now }
{
    match split_first(text) {
        Some(('?', rest)) => (GroupQuantifier::Optional, rest),
        Some(('*', rest)) => (GroupQuantifier::ZeroOrMore, rest),
        Some(('+', rest)) => (GroupQuantifier::OneOrMore, rest),
        _ => (GroupQuantifier::Once, text),
    }
}

/// Returns the token that begins with `(`, and the rest. `text` is what follows the `(`. `None`:
/// the text from the `(` on begins with no token.
fn read_bracket(text: &str) -> Option<(StepToken, &str)>
    ensures token { IfSome result (λ read.
        BeginsWithRegexpToken (codes "(" ++ chars text.now) read.0 (chars read.1.now)) }
    ensures reads { ReadsRegexpTokens (codes "(" ++ chars text.now) result }
    ensures len { IfSome result (λ read. length read.1.now < length text.now) }
{
    if let Some(rest) = after(text, '?') {
        return Some((StepToken::Open, after(rest, ':')?));
    }
    if let Some((token, remaining)) = read_first_segment(text) {
        return Some((token, remaining));
    }
    let (step, rest) = read_captured(text)?;
    let rest = after(rest, ')')?;
    if let Some(remaining) = after(rest, '?') {
        return Some((StepToken::OptionalStep(step), remaining));
    }
    Some((StepToken::Step(step), rest))
}

/// Returns the token `FirstSegment`, which begins separated runs, and the rest. `text` is what
/// follows the first `(`. `None`: `text` does not continue the token.
fn read_first_segment(text: &str) -> Option<(StepToken, &str)>
    ensures token { IfSome result (λ read.
        BeginsWithRegexpToken (codes "(" ++ chars text.now) read.0 (chars read.1.now)) }
    ensures reads { ReadsFirstSegments (codes "(" ++ chars text.now) result }
    ensures other { (step : Step) (rest : List ℕ) → BeginsWithCaptured (chars text.now) step rest
        → result ≡ None }
    ensures len { IfSome result (λ read. length read.1.now < length text.now) }
{
    let (single, rest) = read_run(after_open(text)?)?;
    let rest = after_open(after(rest, ')')?)?;
    let (end, is_greedy) = run_of(single)?;
    Some((StepToken::FirstSegment(end, is_greedy), rest))
}

/// Returns the rest of the text after `(?:`. `None`: the text does not begin with `(?:`.
pub fn after_open(text: &str) -> Option<&str>
    ensures cut { IfSome result (λ rest. chars text.now ≡ codes "(?:" ++ chars rest.now) }
    ensures other { IfNone result ((rest : List ℕ) → chars text.now ≢ codes "(?:" ++ rest) }
    ensures len { IfSome result (λ rest. length rest.now < length text.now) }
{
    after(after(after(text, '(')?, '?')?, ':')
}

/// Returns the rest of the text after `))*)`. `None`: the text does not begin with `))*)`.
pub fn after_segments(text: &str) -> Option<&str>
    ensures cut { IfSome result (λ rest. chars text.now ≡ codes "))*)" ++ chars rest.now) }
    ensures other { IfNone result ((rest : List ℕ) → chars text.now ≢ codes "))*)" ++ rest) }
    ensures len { IfSome result (λ rest. length rest.now < length text.now) }
{
    after(after(after(after(text, ')')?, ')')?, '*')?, ')')
}

/// Returns the step that captures the run or the repeated run with which `text` begins, and the
/// rest. `text` is what follows the `(` of a capturing group. `None`: `text` begins with neither.
fn read_captured(text: &str) -> Option<(Step, &str)>
    ensures step { IfSome result (λ read.
        BeginsWithCaptured (chars text.now) read.0 (chars read.1.now)) }
    ensures reads { ReadsCaptured (chars text.now) result }
    ensures len { IfSome result (λ read. length read.1.now < length text.now) }
{
    match after(text, '(') {
        Some(rest) => read_repeated_run(rest),
        None => read_run(text),
    }
}

/// Returns the step that captures `(?:`, a run, `)` and `*` or `+`, and the rest. `text` is what
/// follows the `(` of `(?:`. `None`: `text` does not continue a repeated run.
fn read_repeated_run(text: &str) -> Option<(Step, &str)>
    ensures step { IfSome result (λ read.
        BeginsWithCaptured (codes "(" ++ chars text.now) read.0 (chars read.1.now)) }
    ensures reads { ReadsCaptured (codes "(" ++ chars text.now) result }
    ensures len { IfSome result (λ read. length read.1.now < length text.now) }
{
    let (single, rest) = read_run(after(after(text, '?')?, ':')?)?;
    let (times, remaining) = read_group_quantifier(after(rest, ')')?);
    Some((repeated_run(single, times)?, remaining))
}

/// Returns a `GreedyRun`, the step that captures a repeat of `run` under the quantifier `times`.
/// `None`: `run` is neither `LazyRun` nor `DotStar`, or `times` is neither `*` nor `+`.
fn repeated_run(run: Step, times: GroupQuantifier) -> Option<Step>
    ensures step { IfSome result (λ step. IsRepeatOf run (quantifier_of times) step) }
    ensures reads { RepeatsRuns run (quantifier_of times) result }
{
    let (end, is_greedy) = run_of(run)?;
    let may_be_empty = may_be_empty(is_greedy, times)?;
    Some(Step::GreedyRun(Run { end, may_be_empty }))
}

/// The character that ends the run of a step, and whether the run is greedy. `None`: the step is
/// neither `LazyRun` nor `DotStar`.
pub fn run_of(step: Step) -> Option<(char, bool)>
    ensures run { IfSome result (λ run.
        (items : Items) → IsStepOf step (Captured items) → IsRunOf run.0 run.1 items) }
    ensures reads { FindsRun step result }
{
    match step {
        Step::LazyRun(end) => Some((end, false)),
        Step::DotStar => Some(('\n', true)),
        _ => None,
    }
}

/// Whether a repeat of a run may be empty: under `*`, and under `+` if the run is greedy and so may
/// be empty itself. `None`: `times` is neither `*` nor `+`.
fn may_be_empty(is_greedy: bool, times: GroupQuantifier) -> Option<bool>
    ensures may { IfSome result (λ may_be_empty.
        AllowsEmptyRun is_greedy (quantifier_of times) may_be_empty) }
    ensures reads { (may_be_empty : Bool)
        → AllowsEmptyRun is_greedy (quantifier_of times) may_be_empty
        → result ≡ Some may_be_empty }
{
    match times {
        GroupQuantifier::ZeroOrMore => Some(true),
        GroupQuantifier::OneOrMore => Some(is_greedy),
        GroupQuantifier::Once | GroupQuantifier::Optional => None,
    }
}

/// Returns the step that captures a run, `.*`, `.+?` or `[^c]+?` with any character `c`, and the
/// rest. `None`: the text does not begin with a run.
pub fn read_run(text: &str) -> Option<(Step, &str)>
    ensures step { IfSome result (λ read.
        BeginsWithCaptured (chars text.now) read.0 (chars read.1.now)) }
    ensures reads { ReadsRuns (chars text.now) result }
    ensures len { IfSome result (λ read. length read.1.now < length text.now) }
{
    match after(text, '.') {
        Some(rest) => read_repeated_dot(rest),
        None => read_repeated_class(after(after(text, '[')?, '^')?),
    }
}

/// Returns the step that captures `.*` or `.+?`, and the rest. `text` is what follows the dot.
/// `None`: `text` begins with neither `*` nor `+?`.
fn read_repeated_dot(text: &str) -> Option<(Step, &str)>
    ensures step { IfSome result (λ read.
        BeginsWithCaptured (codes "." ++ chars text.now) read.0 (chars read.1.now)) }
    ensures reads { ReadsRuns (codes "." ++ chars text.now) result }
    ensures len { IfSome result (λ read. length read.1.now < length text.now) }
{
    match after(text, '*') {
        Some(rest) => Some((Step::DotStar, rest)),
        None => Some((Step::LazyRun('\n'), after_lazy_plus(text)?)),
    }
}

/// Returns the step that captures `[^c]+?` with any character `c`, and the rest. `text` is what
/// follows `[^`. `None`: `text` does not continue the class and its quantifier.
fn read_repeated_class(text: &str) -> Option<(Step, &str)>
    ensures step { IfSome result (λ read.
        BeginsWithCaptured (codes "[^" ++ chars text.now) read.0 (chars read.1.now)) }
    ensures reads { ReadsRuns (codes "[^" ++ chars text.now) result }
    ensures len { IfSome result (λ read. length read.1.now < length text.now) }
{
    let (c, rest) = read_class_character(text)?;
    Some((Step::LazyRun(c), after_lazy_plus(after(rest, ']')?)?))
}

/// Returns the rest of the text after `+?`. `None`: the text does not begin with `+?`.
fn after_lazy_plus(text: &str) -> Option<&str>
    ensures cut { IfSome result (λ rest. chars text.now ≡ codes "+?" ++ chars rest.now) }
    ensures other { IfNone result ((rest : List ℕ) → chars text.now ≢ codes "+?" ++ rest) }
    ensures len { IfSome result (λ rest. length rest.now < length text.now) }
{
    after(after(text, '+')?, '?')
}

/// Returns the literal character that the text begins with, unescaped, and the rest. `None`: the
/// text does not begin with a literal.
pub fn read_literal(text: &str) -> Option<(char, &str)>
    ensures character { IfSome result (λ read.
        BeginsWithCharacter IsCharacter (chars text.now) read.0 (chars read.1.now)) }
    ensures reads { (c : ℕ) (rest : List ℕ)
        → BeginsWithCharacter IsCharacter (chars text.now) c rest
        → IsRead result c rest }
    ensures len { IfSome result (λ read. length read.1.now < length text.now) }
{
    let (c, rest) = split_first(text)?;
    if c == '\\' {
        return read_escaped(rest);
    }
    if is_mark(c) { None } else { Some((c, rest)) }
}

/// Returns the first character of a negated class, unescaped, and the rest. `text` is what follows
/// `[^`. `None`: the text is empty, or begins with `[`, or with a backslash after which neither a
/// metacharacter nor `/` comes.
fn read_class_character(text: &str) -> Option<(char, &str)>
    ensures character { IfSome result (λ read.
        BeginsWithCharacter IsClassCharacter (chars text.now) read.0 (chars read.1.now)) }
    ensures reads { (c : ℕ) (rest : List ℕ)
        → BeginsWithCharacter IsClassCharacter (chars text.now) c rest
        → IsRead result c rest }
    ensures len { IfSome result (λ read. length read.1.now < length text.now) }
{
    let (c, rest) = split_first(text)?;
    match c {
        '\\' => read_escaped(rest),
        '[' => None,
        _ => Some((c, rest)),
    }
}

/// Returns the metacharacter or the `/` that is escaped, and the rest. `text` is what follows the
/// backslash. `None`: `text` begins with neither.
fn read_escaped(text: &str) -> Option<(char, &str)>
    ensures mark { IfSome result (λ read. IsTrue (is_among (regexp_marks ++ codes "/") read.0)) }
    ensures cut { IfSome result (λ read. chars text.now ≡ read.0 ∷ chars read.1.now) }
    ensures other { IfNone result ((c : ℕ) (rest : List ℕ)
        → IsTrue (is_among (regexp_marks ++ codes "/") c)
        → chars text.now ≢ c ∷ rest) }
    ensures len { IfSome result (λ read. length read.1.now < length text.now) }
{
    let (c, rest) = split_first(text)?;
    if is_mark(c) || c == '/' {
        Some((c, rest))
    } else {
        None
    }
}

/// Whether the character is a metacharacter of regular expressions.
fn is_mark(c: char) -> bool
    ensures { result ≡ is_among regexp_marks c }
{
    matches!(
        c,
        '.' | '+' | '*' | '?' | '^' | '$' | '{' | '}' | '(' | ')' | '[' | ']' | '|' | '\\'
    )
}

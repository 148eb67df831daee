//! The sections of a constructor string, and where each ends.
ghost use Rattle.std.specs.Prelude.{◌≡◌, ◌+◌, ◌*◌, ◌^◌, ◌<◌, ◌≤◌, ◌∷◌, ◌&&◌, ◌==◌, not, if◌then◌else◌, [], length};
ghost use Rattle.urlpattern_constructor.specs.Split.{EndsAt, passes_at, depth_before, depth_after, is_end, is_ending, is_open, is_non_special_pattern_char};
ghost use Rattle.urlpattern_constructor.specs.Splitting.{IsSource, is_hostname, tokens_of};

use crate::tokens::Source;
use urlpattern_syntax::tokenizer::TokenType;

/// A section of a constructor string, which ends at one of its own signs, such as a slash, or at
/// the end of the string: a component, or the authority, up to the first sign that tells whether it
/// has a username.
///
/// <https://urlpattern.spec.whatwg.org/#constructor-string-parser-state>
#[derive(Clone, Copy, PartialEq, Eq)]
pub enum Section {
    Protocol,
    Authority,
    Username,
    Password,
    Hostname,
    Port,
    Pathname,
    Search,
    Hash,
}

/// A place among the tokens of a constructor string, with the open groups and the work so far.
#[derive(Clone, Copy)]
pub struct Position {
    /// The index of the token to be read next.
    pub index: usize,
    /// The number of groups in braces that are open before the token at `index`.
    pub depth: usize,
    /// The number of times that a token was examined so far.
    pub turns: usize,
}

impl Position {
    /// Returns the position `count` tokens after this one, with a depth of 0.
    pub fn after(self, count: usize) -> Position
        requires { self.index + count < 2 ^ 64 }
        ensures index { result.index ≡ self.index + count }
        ensures depth { result.depth ≡ 0 }
        ensures turns { result.turns ≡ self.turns }
    {
        Position {
            index: self.index + count,
            depth: 0,
            turns: self.turns,
        }
    }
}

impl<'t, 'a> Source<'t, 'a> {
    /// Returns the position of the token before which a section that begins at `from` ends: the
    /// first of the section's signs outside of all groups, or else the last token, `End`. Each
    /// token from `from` up to that position, inclusive, is examined once.
    pub fn end_of(&self, section: Section, from: Position) -> Position
        requires source { IsSource self.now }
        requires within { from.index < length self.now.tokens.now }
        requires shallow { from.depth ≤ length self.now.tokens.now }
        requires turns { from.turns ≤ 2 * length self.now.tokens.now }
        ensures ends { EndsAt section (tokens_of self.now) from.index from.depth result.index }
        ensures depth { result.depth
            ≡ depth_before (tokens_of self.now) from.index from.depth result.index }
        ensures shallow { result.depth + from.index ≤ from.depth + result.index }
        ensures turns { result.turns + from.index ≡ from.turns + result.index + 1 }
    {
        let mut position = from;
        let mut opened = 0;
        let mut closed = 0;
        loop {
            let kind = self.tokens[position.index].kind;
            position.turns += 1;
            if is_end(kind) {
                return position;
            }
            let is_seen = is_seen(kind, position.depth);
            if is_seen && self.is_ending(section, opened == closed, position.index) {
                return position;
            }
            opened = self.count_bracket(section, is_seen, position.index, b'[', opened);
            closed = self.count_bracket(section, is_seen, position.index, b']', closed);
            position.depth = depth_after(kind, position.depth);
            position.index += 1;
        }
    }

    /// Whether the token at `index` is a sign that ends `section`. A colon ends a hostname only
    /// where `balanced` says that it is outside of square brackets.
    fn is_ending(&self, section: Section, balanced: bool, index: usize) -> bool
        ensures { result ≡ is_ending section balanced (tokens_of self.now) index }
    {
        match section {
            Section::Protocol => self.is_non_special_pattern_char(index, b':'),
            Section::Authority => {
                self.is_non_special_pattern_char(index, b'@')
                    || self.is_non_special_pattern_char(index, b'/')
                    || self.is_search_prefix(index)
                    || self.is_non_special_pattern_char(index, b'#')
            }
            Section::Username => self.is_non_special_pattern_char(index, b':')
                || self.is_non_special_pattern_char(index, b'@'),
            Section::Password => self.is_non_special_pattern_char(index, b'@'),
            Section::Hostname => {
                (balanced && self.is_non_special_pattern_char(index, b':'))
                    || self.is_non_special_pattern_char(index, b'/')
                    || self.is_search_prefix(index)
                    || self.is_non_special_pattern_char(index, b'#')
            }
            Section::Port => {
                self.is_non_special_pattern_char(index, b'/')
                    || self.is_search_prefix(index)
                    || self.is_non_special_pattern_char(index, b'#')
            }
            Section::Pathname => self.is_search_prefix(index)
                || self.is_non_special_pattern_char(index, b'#'),
            Section::Search => self.is_non_special_pattern_char(index, b'#'),
            Section::Hash => false,
        }
    }

    /// Returns `count`, and one more if the token at `index` is the square bracket `mark`, is
    /// outside of all groups (`is_seen`), and the section is a hostname.
    fn count_bracket(
        &self,
        section: Section,
        is_seen: bool,
        index: usize,
        mark: u8,
        count: usize,
    ) -> usize
        requires ascii { mark < 128 }
        requires room { count + 1 < 2 ^ 64 }
        ensures { result
            ≡ count
            + (if is_hostname section && is_seen
            && passes_at (is_non_special_pattern_char (mark ∷ [])) (tokens_of self.now) index
            then 1 else 0) }
    {
        if matches!(section, Section::Hostname)
            && is_seen
            && self.is_non_special_pattern_char(index, mark)
        {
            count + 1
        } else {
            count
        }
    }
}

/// Whether the kind is `End`, which only the last token has.
fn is_end(kind: TokenType) -> bool
    ensures { result ≡ is_end kind }
{
    matches!(kind, TokenType::End)
}

/// Whether a token of the kind, other than `End`, is outside of all groups and opens none, where
/// `depth` groups are open before the token.
fn is_seen(kind: TokenType, depth: usize) -> bool
    ensures { result ≡ (not (is_open kind) && depth == 0) }
{
    !matches!(kind, TokenType::Open) && depth == 0
}

/// Returns the number of open groups after a token of the kind, where `depth` are open before it. A
/// closing brace without a group is ignored.
fn depth_after(kind: TokenType, depth: usize) -> usize
    requires { depth + 1 < 2 ^ 64 }
    ensures { result ≡ depth_after kind depth }
{
    match kind {
        TokenType::Open => depth + 1,
        TokenType::Close => depth.saturating_sub(1),
        _ => depth,
    }
}

//! Splits a constructor string into its components.
//!
//! A function named `.._from` begins at the first token of a component, and one named `.._at` at
//! the token before which the last component ended. Each returns the components from there on, and
//! `None` for those before them.
ghost use Rattle.std.specs.Prelude.{◌≡◌, Some, ◌+◌, ◌*◌, ◌<◌, ◌≤◌, length, IsTrue, None};
ghost use Rattle.std.specs.Str.{chars};
ghost use Rattle.urlpattern_constructor.specs.declared.sections.Section.TheVariants.{Hostname, Pathname, Port, Search};
ghost use Rattle.urlpattern_constructor.specs.Split.{AuthorityFrom, EndsAt, HashAt, HashFrom, HostnameFrom, IsAbsoluteSplit, IsRelativeSplit, IsSplitTextBetween, NoAuthority, PathnameAt, PathnameFrom, PortAt, SearchAt, SearchFrom, UserinfoFrom, depth_before, ends_at, implied_pathname, is_at_sign, is_colon_sign, is_slash_sign};
ghost use Rattle.urlpattern_constructor.specs.Splitting.{CanRead, HasRead, HasTurnForSlash, HasTurns, IsSource, NoPathname, NoSearch, may_end_before, split_text_view, split_texts, starts_of_split, text_of_source, tokens_of, values_of_split};
ghost use Rattle.urlpattern_components.specs.Eight.{at};
ghost use Rattle.urlpattern_syntax.specs.Text.{option_text};

use crate::sections::{Position, Section};
use crate::tokens::{Source, SplitText};
use urlpattern_components::{ComponentName, Eight};

/// The components of a constructor string, and the number of times that a token was examined.
#[derive(Drop)]
pub struct Split<'a> {
    /// The text of each component, or `None` for a component that is not present.
    pub values: Eight<Option<SplitText<'a>>>,
    /// The number of times that a token was examined.
    pub turns: usize,
}

impl<'a> Split<'a> {
    /// Returns a split in which every component is `None`.
    fn nothing(turns: usize) -> Split<'a>
        ensures nothing { NoSearch (split_texts result) }
        ensures hash { (split_texts result).hash ≡ None }
        ensures turns { result.turns ≡ turns }
    {
        let none = |_name: ComponentName| -> Option<SplitText<'_>>
            ensures { result ≡ None }
        { None };
        Split {
            values: Eight::from_fn(none),
            turns,
        }
    }
}

impl<'a> Split<'a> {
    /// Returns the text of a component. `None`: the component is not present.
    pub fn text(&self, name: ComponentName) -> Option<&'a str>
        ensures { option_text result ≡ at (values_of_split (split_texts self.now)) name }
    {
        match *self.values.get(name) {
            Some(found) => Some(found.text),
            None => None,
        }
    }

    /// Returns the byte at which the constructor string has each component. `None`: the component
    /// is not present, or its text is implied.
    pub fn starts(&self) -> Eight<Option<usize>>
        ensures { result ≡ starts_of_split (split_texts self.now) }
    {
        let start = |name: ComponentName| -> Option<usize>
            ensures { result ≡ at (starts_of_split (split_texts self.entry.now)) name }
        { self.start(name) };
        Eight::from_fn(start)
    }

    /// Returns the byte at which the constructor string has a component. `None`: the component is
    /// not present, or its text is implied.
    fn start(&self, name: ComponentName) -> Option<usize>
        ensures { result ≡ at (starts_of_split (split_texts self.now)) name }
    {
        match *self.values.get(name) {
            Some(found) => found.start,
            None => None,
        }
    }
}

impl<'t, 'a> Source<'t, 'a> {
    /// Splits a string that begins with `protocol` and then the token `colon`. `special` says
    /// whether the protocol matches a special scheme.
    pub fn absolute(&self, colon: Position, protocol: SplitText<'a>, special: bool) -> Split<'a>
        requires source { IsSource self.now }
        requires protocol { IsSplitTextBetween (text_of_source self.now) (tokens_of self.now) 0
            colon.index (split_text_view protocol) }
        requires ends { EndsAt Section.Protocol (tokens_of self.now) 0 0 colon.index }
        requires sign { IsTrue (is_colon_sign (tokens_of self.now) colon.index) }
        requires turns { colon.turns ≤ 2 * (colon.index + 1) }
        ensures split { IsAbsoluteSplit (text_of_source self.now) (tokens_of self.now) special
            colon.index (split_texts result) }
        ensures protocol { (split_texts result).protocol ≡ Some (split_text_view protocol.entry) }
        ensures turns { result.turns ≤ 2 * length self.now.tokens.now }
    {
        if self.has_slashes(colon.index) {
            let Split { mut values, turns } = self.authority_from(colon.after(3), special);
            values.protocol = Some(protocol);
            return Split { values, turns };
        }
        if special {
            let Split { mut values, turns } = self.authority_from(colon.after(1), special);
            values.protocol = Some(protocol);
            return Split { values, turns };
        }
        let Split { mut values, turns } = self.pathname_from(colon.after(1));
        values.protocol = Some(protocol);
        values.hostname = Some(SplitText::implied(""));
        values.port = Some(SplitText::implied(""));
        Split { values, turns }
    }

    /// Splits a string without a protocol, in which the search for a colon ended at `end`, the last
    /// token. Reading begins again at the first token, but with the depth of `end`.
    pub fn relative(&self, end: Position) -> Split<'a>
        requires source { IsSource self.now }
        requires ends { EndsAt Section.Protocol (tokens_of self.now) 0 0 end.index }
        requires end { IsTrue (ends_at (tokens_of self.now) end.index) }
        requires depth { end.depth ≡ depth_before (tokens_of self.now) 0 0 end.index }
        requires shallow { end.depth ≤ end.index }
        requires turns { end.turns ≤ length self.now.tokens.now }
        ensures split { IsRelativeSplit (text_of_source self.now) (tokens_of self.now)
            (split_texts result) }
        ensures turns { result.turns ≤ 2 * length self.now.tokens.now }
    {
        if self.is_non_special_pattern_char(0, b'#') {
            return self.hash_from(Position { index: 1, ..end });
        }
        if self.is_search_prefix(0) {
            return self.search_from(Position { index: 1, ..end });
        }
        self.pathname_from(Position { index: 0, ..end })
    }

    /// Reads the authority, which begins at `from`, and the components after it. An authority that
    /// ends at `@` is a username and a password; any other is read again from `from` on, as a
    /// hostname, with the depth at its end. `special` says whether the protocol matches a special
    /// scheme.
    fn authority_from(&self, from: Position, special: bool) -> Split<'a>
        requires source { IsSource self.now }
        requires within { from.index < length self.now.tokens.now }
        requires level { from.depth ≡ 0 }
        requires turns { from.turns ≤ 2 * from.index }
        ensures split { AuthorityFrom (text_of_source self.now) (tokens_of self.now) special
            from.index (split_texts result) }
        ensures turns { result.turns ≤ 2 * length self.now.tokens.now }
    {
        let end = self.end_of(Section::Authority, from);
        if self.is_non_special_pattern_char(end.index, b'@') {
            let back = Position {
                turns: end.turns,
                ..from
            };
            return self.userinfo_from(back, end.index, special);
        }
        let back = Position {
            index: from.index,
            ..end
        };
        let Split { mut values, turns } = self.hostname_from(back, special);
        values.username = None;
        values.password = None;
        Split { values, turns }
    }

    /// Reads the username, which begins at `from`, the password, if a colon ends the username
    /// before the `@` at index `until`, and the components after that `@`. `special` says whether
    /// the protocol matches a special scheme.
    fn userinfo_from(&self, from: Position, until: usize, special: bool) -> Split<'a>
        requires source { IsSource self.now }
        requires ends { EndsAt Section.Authority (tokens_of self.now) from.index 0 until }
        requires sign { IsTrue (is_at_sign (tokens_of self.now) until) }
        requires level { from.depth ≡ 0 }
        requires turns { from.turns ≤ from.index + until + 1 }
        ensures userinfo { UserinfoFrom (text_of_source self.now) (tokens_of self.now) from.index
            until (split_texts result) }
        ensures hostname { HostnameFrom (text_of_source self.now) (tokens_of self.now) special
            (until + 1) 0 (split_texts result) }
        ensures turns { result.turns ≤ 2 * length self.now.tokens.now }
    {
        let end = self.end_of(Section::Username, from);
        let username = Some(self.split_text(from.index, end.index));
        if !self.is_non_special_pattern_char(end.index, b':') {
            let Split { mut values, turns } = self.hostname_from(end.after(1), special);
            values.username = username;
            values.password = None;
            return Split { values, turns };
        }
        let password_from = end.after(1);
        let password_end = self.end_of(Section::Password, password_from);
        let password = Some(self.split_text(password_from.index, password_end.index));
        let Split { mut values, turns } = self.hostname_from(password_end.after(1), special);
        values.username = username;
        values.password = password;
        Split { values, turns }
    }

    /// Reads the hostname, which begins at `from`, and the components after it. `special` says
    /// whether the protocol matches a special scheme.
    fn hostname_from(&self, from: Position, special: bool) -> Split<'a>
        requires source { IsSource self.now }
        requires reads { CanRead self.now from }
        requires slash { HasTurnForSlash self.now from.index from.depth (from.turns + 1) }
        ensures split { HostnameFrom (text_of_source self.now) (tokens_of self.now) special
            from.index from.depth (split_texts result) }
        ensures turns { result.turns ≤ 2 * length self.now.tokens.now }
    {
        let end = self.end_of(Section::Hostname, from);
        let Split { mut values, turns } = self.port_at(end, special);
        values.hostname = Some(self.split_text(from.index, end.index));
        Split { values, turns }
    }

    /// Reads the port, after a hostname that ended before the token `end`, and the components after
    /// it. The port is empty if the token is not a colon. `special` says whether the protocol
    /// matches a special scheme.
    fn port_at(&self, end: Position, special: bool) -> Split<'a>
        requires source { IsSource self.now }
        requires reads { HasRead self.now end }
        requires sign { IsTrue (may_end_before Hostname (tokens_of self.now) end.index) }
        requires slash { HasTurnForSlash self.now end.index 0 end.turns }
        ensures split { PortAt (text_of_source self.now) (tokens_of self.now) special end.index
            (split_texts result) }
        ensures turns { result.turns ≤ 2 * length self.now.tokens.now }
    {
        if self.is_non_special_pattern_char(end.index, b':') {
            let from = end.after(1);
            let end = self.end_of(Section::Port, from);
            let Split { mut values, turns } = self.pathname_at(end, special);
            values.port = Some(self.split_text(from.index, end.index));
            return Split { values, turns };
        }
        let Split { mut values, turns } = self.pathname_at(end, special);
        values.port = Some(SplitText::implied(""));
        Split { values, turns }
    }

    /// Reads the pathname, the search and the hash, after a hostname or a port that ended before
    /// the token `end`. A slash begins the pathname; before a search or a hash the pathname is a
    /// slash if the protocol matches a special scheme (`special`), otherwise empty; at the end of
    /// the string all three are `None`.
    fn pathname_at(&self, end: Position, special: bool) -> Split<'a>
        requires source { IsSource self.now }
        requires reads { HasRead self.now end }
        requires sign { IsTrue (may_end_before Port (tokens_of self.now) end.index) }
        requires slash { IsTrue (is_slash_sign (tokens_of self.now) end.index)
            → HasTurns self.now end.index end.turns }
        ensures split { PathnameAt (text_of_source self.now) (tokens_of self.now) special end.index
            (split_texts result) }
        ensures nothing { NoAuthority (split_texts result) }
        ensures turns { result.turns ≤ 2 * length self.now.tokens.now }
    {
        if self.is_non_special_pattern_char(end.index, b'/') {
            return self.pathname_from(end.after(0));
        }
        if self.is_search_prefix(end.index) || self.is_non_special_pattern_char(end.index, b'#') {
            let Split { mut values, turns } = self.search_at(end);
            values.pathname = Some(SplitText::implied(implied_pathname(special)));
            return Split { values, turns };
        }
        Split::nothing(end.turns)
    }

    /// Reads the pathname, which begins at `from`, and the search and the hash after it.
    fn pathname_from(&self, from: Position) -> Split<'a>
        requires source { IsSource self.now }
        requires reads { CanRead self.now from }
        ensures split { PathnameFrom (text_of_source self.now) (tokens_of self.now) from.index
            from.depth (split_texts result) }
        ensures nothing { NoAuthority (split_texts result) }
        ensures turns { result.turns ≤ 2 * length self.now.tokens.now }
    {
        let end = self.end_of(Section::Pathname, from);
        let Split { mut values, turns } = self.search_at(end);
        values.pathname = Some(self.split_text(from.index, end.index));
        Split { values, turns }
    }

    /// Reads the search and the hash, after a pathname that ended before the token `end`. The
    /// search is empty where a hash follows directly; at the end of the string both are `None`.
    fn search_at(&self, end: Position) -> Split<'a>
        requires source { IsSource self.now }
        requires reads { HasRead self.now end }
        requires sign { IsTrue (may_end_before Pathname (tokens_of self.now) end.index) }
        ensures split { SearchAt (text_of_source self.now) (tokens_of self.now) end.index
            (split_texts result) }
        ensures nothing { NoPathname (split_texts result) }
        ensures turns { result.turns ≤ 2 * length self.now.tokens.now }
    {
        if self.is_search_prefix(end.index) {
            return self.search_from(end.after(1));
        }
        if self.is_non_special_pattern_char(end.index, b'#') {
            let Split { mut values, turns } = self.hash_from(end.after(1));
            values.search = Some(SplitText::implied(""));
            return Split { values, turns };
        }
        Split::nothing(end.turns)
    }

    /// Reads the search, which begins at `from`, and the hash after it.
    fn search_from(&self, from: Position) -> Split<'a>
        requires source { IsSource self.now }
        requires reads { CanRead self.now from }
        ensures split { SearchFrom (text_of_source self.now) (tokens_of self.now) from.index
            from.depth (split_texts result) }
        ensures nothing { NoPathname (split_texts result) }
        ensures turns { result.turns ≤ 2 * length self.now.tokens.now }
    {
        let end = self.end_of(Section::Search, from);
        let Split { mut values, turns } = self.hash_at(end);
        values.search = Some(self.split_text(from.index, end.index));
        Split { values, turns }
    }

    /// Reads the hash, after a search that ended before the token `end`. The hash is `None` if the
    /// token is not a number sign.
    fn hash_at(&self, end: Position) -> Split<'a>
        requires source { IsSource self.now }
        requires reads { HasRead self.now end }
        requires sign { IsTrue (may_end_before Search (tokens_of self.now) end.index) }
        ensures split { HashAt (text_of_source self.now) (tokens_of self.now) end.index
            (split_texts result) }
        ensures nothing { NoSearch (split_texts result) }
        ensures turns { result.turns ≤ 2 * length self.now.tokens.now }
    {
        if self.is_non_special_pattern_char(end.index, b'#') {
            return self.hash_from(end.after(1));
        }
        Split::nothing(end.turns)
    }

    /// Reads the hash, which begins at `from` and extends to the end of the string.
    fn hash_from(&self, from: Position) -> Split<'a>
        requires source { IsSource self.now }
        requires reads { CanRead self.now from }
        ensures split { HashFrom (text_of_source self.now) (tokens_of self.now) from.index
            (split_texts result) }
        ensures nothing { NoSearch (split_texts result) }
        ensures turns { result.turns ≤ 2 * length self.now.tokens.now }
    {
        let end = self.end_of(Section::Hash, from);
        let Split { mut values, turns } = Split::nothing(end.turns);
        values.hash = Some(self.split_text(from.index, end.index));
        Split { values, turns }
    }
}

/// Returns the pathname where a search or a hash directly follows the authority: a slash if the
/// protocol matches a special scheme, otherwise empty.
fn implied_pathname(special: bool) -> &'static str
    ensures { chars result.now ≡ implied_pathname special }
{
    if special { "/" } else { "" }
}

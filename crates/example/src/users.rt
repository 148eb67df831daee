//! Users by their URLs, with contracts about URLs alone.

ghost use Rattle.std.specs.Prelude.{IfNone, IfOk, IfSome};
ghost use Rattle.std.specs.Str.{chars};
ghost use Rattle.example.specs.Users.{IsNoUser, IsUrlOfUser, IsUser};

use crate::router;
use std::alloc::Global;
use std::marker::Model;
use url::Url;
use urlpattern::laws::texts_are_lines;
use urlpattern::regexp::PatternRegexp;
use urlpattern::{ComponentName, Error, NoLink, UrlPattern, UrlPatternOptions};

// docs: users
/// The users under `https://example.com/users/`, with the pattern of their URLs, which is compiled
/// once.
#[derive(Drop)]
pub struct Users {
    pattern: UrlPattern<PatternRegexp>,
}

// The pattern is compiled from `router::USERS`. No contract mentions the pattern.
impl Model for Users {
    ghost use Rattle.example.specs.Users.{IsPatternOfUsers};
    ghost use Rattle.std.specs.Prelude.{⊤};

    ghost Value = { ⊤ };

    ghost view = { λ users. tt };

    ghost invariant = { λ users. IsPatternOfUsers users.pattern };
}

impl Users {
    /// Compiles the pattern.
    ///
    /// The error is that of `UrlPattern::from_constructor_string`.
    pub fn new(alloc: Global) -> Result<Self, Error> {
        // docs: new_users
        let options = UrlPatternOptions::default();
        let pattern = UrlPattern::from_constructor_string(alloc, router::USERS, None, options)?;
        Ok(Self { pattern })
        // docs: end
    }

    /// The id of the user with this URL, borrowed from the URL. `None`: no user has this URL.
    ///
    /// The URL of a user is `https://example.com/users/` and the id, which is not empty and has no
    /// slash. The port is empty. User name, password, query and fragment may be anything, since the
    /// pattern does not restrict them.
    ///
    /// Only an engine allocates, and no component of the pattern needs one.
    pub fn id<'u>(&self, alloc: Global, url: &'u Url) -> Option<&'u str>
        ensures some { IfSome result (λ id. IsUser url.now (chars id.now)) }
        ensures none { IfNone result (IsNoUser url.now) }
    {
        // A law of the library: each text of a URL is of characters without line feed.
        texts_are_lines(url);
        match router::user(alloc, &self.pattern, url) {
            Ok(id) => id,
            Err(_) => unreachable!(),
        }
    }

    /// Returns the URL of the user with this id, which is made canonical: `a b` is `a%20b`.
    ///
    /// The error is that of `UrlPattern::link`. No user has an id that is empty or has a slash.
    pub fn url(&self, alloc: Global, id: &str) -> Result<Url, NoLink>
        ensures { IfOk result (λ url. IsUrlOfUser url (chars id.now)) }
    {
        // docs: user_link
        let url = match self
            .pattern
            .link(alloc, &[(ComponentName::Pathname, "id", id)])
        {
            Ok(url) => url,
            Err(error) => return Err(error),
        };
        // docs: end
        texts_are_lines(&url);
        Ok(url)
    }
}
// docs: end

//! Routes of a router: the method that each serves, its name, and its value.
ghost use Rattle.std.specs.Prelude.{◌≡◌, ◌↔◌, IfOk, IsTrue, Some, option_map};
ghost use Rattle.std.specs.Str.{chars};
ghost use Rattle.urlpattern.specs.Conflicts.{ShareMethod, TakesAllOf};
ghost use Rattle.urlpattern.specs.Routes.{HasMethod, HasName, IsRoute, Takes};
ghost use Rattle.urlpattern_syntax.specs.Text.{option_text, text_of};

use std::alloc::{AllocError, Global};

/// What a router has for a pattern: the method of the requests that the route serves, a value, and
/// a name if the route has one.
#[derive(Debug, Drop)]
pub struct Route<T> {
    /// The name, by which a router finds the route, as for a link.
    pub name: Option<String>,
    /// The method, such as `GET`. `None`: the route serves every method.
    pub method: Option<String>,
    /// The value, such as a handler.
    pub value: T,
}

impl<T: Drop> Route<T> {
    /// Returns a route for this method, with the name if there is one.
    ///
    /// If memory runs out, the value is dropped.
    pub(super) fn new(
        alloc: Global,
        name: Option<&str>,
        method: &str,
        value: T,
    ) -> Result<Self, AllocError>
        ensures { IfOk result (IsRoute (option_text name.entry) (Some (chars method.now)) value) }
    {
        let name = copied(alloc, name)?;
        let method = String::from_str(alloc, method)?;
        Ok(Self {
            name,
            method: Some(method),
            value,
        })
    }
}

impl<T> Route<T> {
    /// Whether the route has this method. Case counts.
    pub(super) fn has_method(&self, method: &str) -> bool
        ensures { IsTrue result ↔ HasMethod (chars method.now) self.now }
    {
        match &self.method {
            Some(own) => own.as_str() == method,
            None => false,
        }
    }

    /// Whether the route has this name. Case counts.
    pub fn has_name(&self, name: &str) -> bool
        ensures { IsTrue result ↔ HasName self.now (chars name.now) }
    {
        match &self.name {
            Some(own) => own.as_str() == name,
            None => false,
        }
    }

    /// Whether the route serves requests with this method. Case counts.
    pub fn takes(&self, method: &str) -> bool
        ensures { IsTrue result ↔ Takes (chars method.now) self.now }
    {
        self.method.is_none() || self.has_method(method)
    }

    /// Whether the route takes each method that another one takes.
    pub(super) fn takes_all_of(&self, other: &Self) -> bool
        ensures { IsTrue result ↔ TakesAllOf self.now other.now }
    {
        match &self.method {
            Some(own) => other.has_method(own),
            None => true,
        }
    }

    /// Whether some method is taken by both routes.
    pub(super) fn shares_method(&self, other: &Self) -> bool
        ensures { IsTrue result ↔ ShareMethod self.now other.now }
    {
        match &self.method {
            Some(own) => other.takes(own),
            None => true,
        }
    }
}

/// Returns a copy of the name, if there is one.
fn copied(alloc: Global, name: Option<&str>) -> Result<Option<String>, AllocError>
    ensures { IfOk result (λ copy.
        option_map (λ own. text_of own) copy ≡ option_text name.entry) }
{
    let Some(name) = name else {
        return Ok(None);
    };
    Ok(Some(String::from_str(alloc, name)?))
}

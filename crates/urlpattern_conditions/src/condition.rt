//! Conditions on a request.
ghost use Rattle.std.specs.Prelude.{IfErr, IfOk};
ghost use Rattle.urlpattern_conditions.specs.ConditionViews.{condition_view, conditions_view};
ghost use Rattle.urlpattern_conditions.specs.Conditions.{AsksEngine, EachHolds, Holds, SayWhether, SomeAskEngine, SomeHolds};
ghost use Rattle.urlpattern_conditions.specs.Requests.{request_view};
ghost use Rattle.urlpattern_syntax.specs.Errors.{OnlyOutOfMemory};

use crate::request::Request;
use std::alloc::Global;
use urlpattern_matcher::regexp::RegExp;
use urlpattern_pattern::UrlPattern;
use urlpattern_syntax::Error;

/// A condition on a request.
#[derive(Debug, Drop)]
pub enum Condition<R: RegExp = regex::Regex> {
    /// The pattern matches the URL.
    Url(Box<UrlPattern<R>>),
    /// The attribute at this index has this name. Case counts. Past the attributes of a request it
    /// never holds, so `Not` of it always does.
    Name(usize, String),
    /// Each of the conditions holds. If there is none, it always holds.
    All(Vec<Condition<R>>),
    /// At least one of the conditions holds. If there is none, it never holds.
    Any(Vec<Condition<R>>),
    /// The condition does not hold.
    Not(Box<Condition<R>>),
}

impl<R: RegExp> Condition<R> {
    /// Whether the condition holds of a request.
    ///
    /// Only an engine allocates.
    #[cycle(holds)]
    pub fn holds(&self, alloc: Global, request: &Request<'_>) -> Result<bool, Error>
        ensures holds { IfOk result
            (SayWhether (Holds R.answer (request_view request.now) (condition_view self.now))) }
        ensures memory { OnlyOutOfMemory result }
        ensures asked { IfErr result (λ _.
            AsksEngine R.answer (request_view request.now) (condition_view self.now)) }
    {
        match self {
            Condition::Url(pattern) => pattern.test_texts(alloc, request.texts),
            Condition::Name(attribute, name) => Ok(request.has_name(*attribute, name)),
            Condition::All(conditions) => each_holds(conditions, alloc, request),
            Condition::Any(conditions) => some_holds(conditions, alloc, request),
            Condition::Not(condition) => Ok(!condition.holds(alloc, request)?),
        }
    }
}

/// Whether each of the conditions holds.
#[cycle(holds)]
fn each_holds<R: RegExp>(
    conditions: &Vec<Condition<R>>,
    alloc: Global,
    request: &Request<'_>,
) -> Result<bool, Error>
    ensures holds { IfOk result (SayWhether
        (EachHolds R.answer (request_view request.now) (conditions_view conditions.now.items))) }
    ensures memory { OnlyOutOfMemory result }
    ensures asked { IfErr result (λ _.
        SomeAskEngine R.answer (request_view request.now) (conditions_view conditions.now.items)) }
{
    for condition in conditions {
        if !condition.holds(alloc, request)? {
            return Ok(false);
        }
    }
    Ok(true)
}

/// Whether one of the conditions holds.
#[cycle(holds)]
fn some_holds<R: RegExp>(
    conditions: &Vec<Condition<R>>,
    alloc: Global,
    request: &Request<'_>,
) -> Result<bool, Error>
    ensures holds { IfOk result (SayWhether
        (SomeHolds R.answer (request_view request.now) (conditions_view conditions.now.items))) }
    ensures memory { OnlyOutOfMemory result }
    ensures asked { IfErr result (λ _.
        SomeAskEngine R.answer (request_view request.now) (conditions_view conditions.now.items)) }
{
    for condition in conditions {
        if condition.holds(alloc, request)? {
            return Ok(true);
        }
    }
    Ok(false)
}

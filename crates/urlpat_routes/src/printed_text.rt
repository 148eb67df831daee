//! What is found of static routes, as text.

use crate::comparing::{has_url, rule_at};
use crate::route_file::NoRoutes;
use crate::rule_use::{RuleUse, is_found, is_noted_one};
use std::alloc::{AllocError, Global};
use urlpattern_compare::{Doubt, Reason};
use urlpattern_matcher::regexp::RegExp;
use urlpattern_route_analysis::{Decisions, JointDecision};
use urlpattern_route_rules::{PatternFault, RouteFault, RouterRules};
use urlpattern_routes::{RouterRule, RouterSource};
use urlpattern_urls::CommonUrl;

/// Returns a line for each reason why a file is rejected, and after it the pattern and the marks
/// under it, if a pattern is at fault.
pub fn refusal_text(alloc: Global, refusal: &NoRoutes) -> Result<String, AllocError> {
    let mut text = String::new(alloc);
    match refusal {
        NoRoutes::NotUtf8 => text.push_str("the file is not UTF-8\n")?,
        NoRoutes::NotJson(error) => writeln!(text, "{error}")?,
        NoRoutes::Rejected(faults) => {
            for fault in faults {
                push_fault(alloc, &mut text, fault)?;
            }
        }
    }
    Ok(text)
}

/// Appends a fault.
fn push_fault(alloc: Global, text: &mut String, fault: &RouteFault) -> Result<(), AllocError> {
    let words = fault_words(alloc, fault)?;
    match fault {
        RouteFault::TooManyRules => writeln!(text, "{words}"),
        RouteFault::Member(rule, _) => writeln!(text, "rule {rule}: {words}"),
        RouteFault::Pattern(rule, PatternFault::Rejected(found)) => {
            writeln!(text, "rule {rule}: urlPattern: {found}")
        }
        RouteFault::Pattern(rule, PatternFault::CustomExpression(name))
        | RouteFault::Pattern(rule, PatternFault::Name(name)) => {
            let name = name.as_str();
            writeln!(text, "rule {rule}: urlPattern: {name}: {words}")
        }
    }
}

/// Returns a fault in words, without its place: for a member with its name.
pub(crate) fn fault_words(alloc: Global, fault: &RouteFault) -> Result<String, AllocError> {
    let reason = fault.reason();
    match fault {
        RouteFault::Member(_, found) => {
            let member = found.member.as_str();
            format!(in alloc; "{member} {reason}")
        }
        _ => String::from_str(alloc, reason),
    }
}

/// Returns a line for each rule that does not decide about any request that the worker gets, or of
/// which that is not known.
pub fn uses_text(alloc: Global, uses: &[RuleUse]) -> Result<String, AllocError> {
    let mut text = String::new(alloc);
    for (index, it) in uses.iter().enumerate() {
        if let Some(words) = use_words(alloc, it)? {
            writeln!(text, "rule {index}: {words}")?;
        }
    }
    Ok(text)
}

/// Returns the use of a rule in words. `None`: the rule decides about requests.
pub(crate) fn use_words(alloc: Global, it: &RuleUse) -> Result<Option<String>, AllocError> {
    let words = match it {
        RuleUse::Decides => return Ok(None),
        RuleUse::Outside => String::from_str(alloc, "decides only outside of the scope")?,
        RuleUse::Unknown => String::from_str(alloc, "not known whether it ever decides")?,
        RuleUse::Never(found) => never_words(alloc, found)?,
    };
    Ok(Some(words))
}

/// Returns in words why a rule never decides. `found` is which rules before it decide about the
/// requests for which its condition holds.
fn never_words(alloc: Global, found: &Decisions) -> Result<String, AllocError> {
    let takers = takers_in(alloc, found)?;
    let mut text = String::from_str(alloc, "never decides")?;
    if found.is_complete && !found.found.iter().any(|it| it.other.is_some()) {
        text.push_str(": its condition never holds")?;
    }
    for (place, rule) in takers.iter().enumerate() {
        let before = if place == 0 { ", because of" } else { "," };
        write!(text, "{before} rule {rule}")?;
    }
    Ok(text)
}

/// Returns the rules that decide about requests in place of another one, in order.
pub(crate) fn takers_in(alloc: Global, found: &Decisions) -> Result<Vec<usize>, AllocError> {
    let mut takers = Vec::new(alloc);
    for it in &found.found {
        if let (Some(rule), Some(_), CommonUrl::Url(_)) = (it.one, it.other, &it.url) {
            takers.push(rule)?;
        }
    }
    takers.sort()?;
    Ok(takers)
}

/// Returns a line with the index of the rule that decides and its source.
pub fn decision_text(
    alloc: Global,
    decided: Option<(usize, &RouterRule)>,
) -> Result<String, AllocError> {
    let mut text = match decided {
        Some((index, rule)) => rule_words(alloc, Some(index), Some(rule))?,
        None => rule_words(alloc, None, None)?,
    };
    text.push('\n')?;
    Ok(text)
}

/// Returns a rule in words: its index, and its source.
fn rule_words(
    alloc: Global,
    index: Option<usize>,
    rule: Option<&RouterRule>,
) -> Result<String, AllocError> {
    let (Some(index), Some(rule)) = (index, rule) else {
        return String::from_str(alloc, "no rule");
    };
    let name = rule.source.as_str();
    let before = match rule.source {
        RouterSource::NamedCache(_) => "cacheName=",
        _ => "",
    };
    format!(in alloc; "rule {index}: {before}{name}")
}

/// Returns a line for each request that is found: the old rule and the new one that decide about
/// it, and the request, or why it is not known whether there is one. The last line says so if some
/// may be missing.
pub fn routes_difference_text<R: RegExp>(
    alloc: Global,
    old: &RouterRules<R>,
    new: &RouterRules<R>,
    found: &Decisions,
) -> Result<String, AllocError> {
    let mut text = String::new(alloc);
    for (index, it) in found.found.iter().enumerate() {
        if is_shown(found, index, it) {
            let before = rule_words(alloc, it.one, rule_at(old, it.one))?;
            let after = rule_words(alloc, it.other, rule_at(new, it.other))?;
            let request = request_words(alloc, it)?;
            writeln!(text, "{before} -> {after}: {request}")?;
        }
    }
    if !found.is_complete {
        text.push_str("not known: there are too many cases\n")?;
    }
    Ok(text)
}

/// Whether the difference at an index is printed: a doubt is not, if a request of the same two
/// rules is known, or a doubt of theirs comes before.
pub(crate) fn is_shown(found: &Decisions, index: usize, it: &JointDecision) -> bool {
    let mut before = found.found.iter().take(index);
    has_url(it)
        || !is_found(&found.found, it.one, it.other)
            && !before.any(|each| is_noted_one(each, it.one, it.other))
}

/// Returns a request as the arguments of `routes decide`, or why it is not known.
fn request_words(alloc: Global, it: &JointDecision) -> Result<String, AllocError> {
    let url = match &it.url {
        CommonUrl::Url(url) => url,
        other => {
            let why = doubt_words(other);
            return format!(in alloc; "not known: {why}");
        }
    };
    let mut text = String::new(alloc);
    let url = url.as_str();
    for (index, name) in it.names.iter().enumerate() {
        match index {
            0 => write!(text, "{name} {url}")?,
            1 if name.as_str() != "cors" => write!(text, " --mode {name}")?,
            2 if !name.is_empty() => write!(text, " --destination {name}")?,
            3 if name.as_str() != "running" => text.push_str(" --not-running")?,
            _ => {}
        }
    }
    Ok(text)
}

/// Returns why it is not known whether there is a URL, in words.
pub(crate) fn doubt_words(url: &CommonUrl) -> &'static str {
    match url {
        CommonUrl::Unknown(Doubt::AllOf(lack)) | CommonUrl::Unknown(Doubt::NoneOf(lack)) => {
            match lack.reason {
                Reason::CustomExpression => "a custom expression that is not simple",
                Reason::IgnoredCase => "ignored case",
                Reason::TooMany => "too many steps",
            }
        }
        CommonUrl::Unknown(_) => "too many steps",
        _ => "texts match that are no URL",
    }
}

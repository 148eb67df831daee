//! The numbers that C has for members, reasons, sources and components.

ghost use Rattle.std.specs.Prelude.{◌≡◌, ◌<◌};
ghost use Rattle.urlpattern_ffi.specs.Mismatches.{component_number};
ghost use Rattle.urlpattern_ffi.specs.ReportedDiagnoses.{init_subject_number};
ghost use Rattle.urlpattern_ffi_routes.specs.Numbers.{attribute_number, member_number, pattern_reason_number, reason_number, source_number};
ghost use Rattle.urlpattern_routes.specs.Views.{source_view};

use urlpattern_components::ComponentName;
use urlpattern_diagnosis::Subject;
use urlpattern_route_rules::PatternFault;
use urlpattern_routes::{RouterAttribute, RouterMember, RouterReason, RouterSource};

/// The number of a member.
pub(crate) fn member_number(member: RouterMember) -> u32
    ensures { result ≡ member_number member }
{
    match member {
        RouterMember::Condition => 1,
        RouterMember::UrlPattern => 2,
        RouterMember::Attribute(attribute) => attribute_number(attribute),
        RouterMember::Or => 7,
        RouterMember::Not => 8,
        RouterMember::Source => 9,
    }
}

/// The number of the member that names an attribute.
fn attribute_number(attribute: RouterAttribute) -> u32
    ensures { result ≡ attribute_number attribute }
{
    match attribute {
        RouterAttribute::Method => 3,
        RouterAttribute::Mode => 4,
        RouterAttribute::Destination => 5,
        RouterAttribute::RunningStatus => 6,
    }
}

/// The number of the reason why a member is rejected.
pub(crate) fn reason_number(reason: RouterReason) -> u32
    ensures { result ≡ reason_number reason }
{
    match reason {
        RouterReason::Missing => 1,
        RouterReason::TooDeep => 2,
        RouterReason::Empty => 3,
        RouterReason::NotAlone => 4,
        RouterReason::NotAnArray => 5,
        RouterReason::NotAText => 6,
        RouterReason::NotAPattern => 7,
        RouterReason::NotAMethod => 8,
        RouterReason::ForbiddenMethod => 9,
        RouterReason::UnknownName => 10,
        RouterReason::NoHandler => 11,
    }
}

/// The number of the reason why a pattern is rejected.
pub(crate) fn pattern_reason_number(fault: &PatternFault) -> u32
    ensures { result ≡ pattern_reason_number fault.now }
{
    match fault {
        PatternFault::Rejected(_) => 12,
        PatternFault::CustomExpression(_) => 13,
        PatternFault::Name(_) => 14,
    }
}

/// The number of a source.
pub(crate) fn source_number(source: &RouterSource) -> u32
    ensures { result ≡ source_number (source_view source.now) }
{
    match source {
        RouterSource::Network => 1,
        RouterSource::FetchEvent => 2,
        RouterSource::Cache => 3,
        RouterSource::NamedCache(_) => 4,
        RouterSource::RaceNetworkAndFetchHandler => 5,
    }
}

/// The number of the text at fault: 2 plus the number of its component, 1 for the base URL, or 0
/// for the pattern as a whole.
pub(crate) fn subject_number(subject: Subject) -> u32
    ensures { result ≡ init_subject_number subject }
{
    match subject {
        Subject::Whole => 0,
        Subject::Base => 1,
        Subject::Component(name) => 2 + component_number(name),
    }
}

/// The number of a component, in the order of the standard.
fn component_number(name: ComponentName) -> u32
    ensures number { result ≡ component_number name }
    ensures small { result < 8 }
{
    match name {
        ComponentName::Protocol => 0,
        ComponentName::Username => 1,
        ComponentName::Password => 2,
        ComponentName::Hostname => 3,
        ComponentName::Port => 4,
        ComponentName::Pathname => 5,
        ComponentName::Search => 6,
        ComponentName::Hash => 7,
    }
}

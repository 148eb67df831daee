//! Writes the faults of static routes to memory that C owns.

ghost use Rattle.std.specs.Prelude.{◌≡◌, option_copied};
ghost use Rattle.urlpattern_ffi_routes.specs.KeptRoutes.{boxed_routes};
ghost use Rattle.urlpattern_ffi_routes.specs.WrittenFaults.{IsFaultWritten, IsTextAtFaultWritten, pattern_place, place_of_fault, text_at_fault};
ghost use Rattle.std.specs.Prelude.{slice_get};

use crate::numbers::{member_number, pattern_reason_number, reason_number, subject_number};
use crate::routes_box::RoutesBox;
use urlpattern_diagnosis::Subject;
use urlpattern_ffi::{Place, Status, write};
use urlpattern_route_rules::{PatternFault, RouteFault};

/// The number of the reason that there are too many rules.
const TOO_MANY_RULES: u32 = 15;

/// What is written in place of the index of a rule where all rules are at fault.
const ALL_RULES: usize = usize::MAX;

/// A fault, for C.
#[repr(C)]
#[derive(Drop)]
pub struct FaultPlace {
    /// The index of the rule at fault, or `ALL_RULES`.
    pub rule: usize,
    /// The number of the member at fault, or 0 if all rules are.
    pub member: u32,
    /// The number of the reason.
    pub reason: u32,
    /// The part of the pattern at fault, or of any other member the number 0 and no part.
    pub place: Place,
}

/// Writes the fault at an index to `fault`, why it is one to `buffer`, and the length of that in
/// bytes to `needed`. `NoPattern`: there is no such fault.
pub fn write_fault(
    kept: &Option<Box<RoutesBox>>,
    index: usize,
    buffer: &mut [u8],
    needed: &mut usize,
    fault: &mut FaultPlace,
) -> Status
    ensures { IsFaultWritten (boxed_routes kept.now).faults index buffer.old buffer.new needed.new
        fault.new result }
{
    match fault_at(kept, index) {
        Some(found) => {
            *fault = place_of_fault(found);
            write(found.reason(), buffer, needed)
        }
        None => Status::NoPattern,
    }
}

/// Writes the text of a pattern in which the fault at an index is to `buffer`, and its length in
/// bytes to `needed`. `NoMatch`: no text of a pattern is rejected. `NoPattern`: there is no such
/// fault.
pub fn write_text_at_fault(
    kept: &Option<Box<RoutesBox>>,
    index: usize,
    buffer: &mut [u8],
    needed: &mut usize,
) -> Status
    ensures { IsTextAtFaultWritten (boxed_routes kept.now).faults index buffer.old buffer.new
        needed.new result }
{
    match fault_at(kept, index) {
        Some(found) => match text_at_fault(found) {
            Some(text) => write(text, buffer, needed),
            None => Status::NoMatch,
        },
        None => Status::NoPattern,
    }
}

/// The fault at an index.
fn fault_at(kept: &Option<Box<RoutesBox>>, index: usize) -> Option<&RouteFault>
    ensures { option_copied result ≡ slice_get (boxed_routes kept.now).faults index }
{
    match kept {
        Some(kept) => kept.faults.get(index),
        None => None,
    }
}

/// The place of a fault.
fn place_of_fault(fault: &RouteFault) -> FaultPlace
    ensures { result ≡ place_of_fault fault.now }
{
    match fault {
        RouteFault::TooManyRules => FaultPlace {
            rule: ALL_RULES,
            member: 0,
            reason: TOO_MANY_RULES,
            place: nowhere(0),
        },
        RouteFault::Member(rule, fault) => FaultPlace {
            rule: *rule,
            member: member_number(fault.member),
            reason: reason_number(fault.reason),
            place: nowhere(0),
        },
        RouteFault::Pattern(rule, fault) => FaultPlace {
            rule: *rule,
            member: 2,
            reason: pattern_reason_number(fault),
            place: pattern_place(fault),
        },
    }
}

/// The place of a fault in a pattern.
fn pattern_place(fault: &PatternFault) -> Place
    ensures { result ≡ pattern_place fault.now }
{
    match fault {
        PatternFault::Rejected(diagnosis) => Place {
            subject: subject_number(diagnosis.subject),
            start: diagnosis.fault.span.start,
            end: diagnosis.fault.span.end,
        },
        PatternFault::CustomExpression(name) | PatternFault::Name(name) => {
            nowhere(subject_number(Subject::Component(*name)))
        }
    }
}

/// No part of the text with this number.
fn nowhere(subject: u32) -> Place
    ensures { result ≡ record { subject = subject; start = 0; end = 0 } }
{
    Place {
        subject,
        start: 0,
        end: 0,
    }
}

/// The text that a diagnosis shows, if the fault is of a pattern that is rejected.
fn text_at_fault(fault: &RouteFault) -> Option<&str>
    ensures { option_copied result ≡ text_at_fault fault.now }
{
    match fault {
        RouteFault::Pattern(_, PatternFault::Rejected(diagnosis)) => Some(&diagnosis.text),
        _ => None,
    }
}

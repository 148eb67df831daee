//! The diagnosis of a rejected pattern: its error, the text and the place at fault, and a reason.

ghost use Rattle.std.specs.Prelude.{◌≡◌, ◌≤◌, length, string_bytes, IfOk, IfSome};
ghost use Rattle.urlpattern_diagnosis.specs.declared.diagnosis.Subject.TheVariants as subjects;
ghost use Rattle.urlpattern_diagnosis.specs.Faults.{IsFaultIn, IsSingleSpan, IsUrlFault};
ghost use Rattle.urlpattern_diagnosis.specs.PatternOffsets.{IsFaultMoved};
ghost use Rattle.urlpattern_diagnosis.specs.Spans.{IsSpanAt};
ghost use Rattle.urlpattern_diagnosis.specs.Subjects.{subject_text};

use crate::colon::path_colon_sentence;
use crate::fault::Fault;
use crate::hint::Hint;
use crate::pattern_offset::PatternOffset;
use crate::reason::{Faulty, reason_of};
use crate::span::Span;
use std::alloc::{AllocError, Global};
use urlpattern_components::ComponentName;
use urlpattern_syntax::Error;

/// What is at fault.
///
/// ```rust subject
/// let subject = match diagnosis.subject {
///     Subject::Base => "the base URL",
///     Subject::Component(component) => component.as_str(),
///     Subject::Whole => "the pattern",
/// };
/// ```
#[derive(Debug, Clone, Copy, PartialEq, Eq)]
pub enum Subject {
    /// The pattern as a whole.
    Whole,
    /// The base URL.
    Base,
    /// The pattern of a component.
    Component(ComponentName),
}

/// The diagnosis of a rejected pattern: the error, and which part of which text is at fault.
///
/// ```rust diagnosis
/// let reason = &diagnosis.reason;
/// ```
#[derive(Debug, Drop)]
pub struct Diagnosis {
    /// The error with which the pattern is rejected.
    pub error: Error,
    /// What is at fault.
    pub subject: Subject,
    /// The text at fault, as given: the constructor string, the base URL, or the value of a
    /// component in an init. For a component that the init lacks, the pattern that is compiled;
    /// empty for an init as a whole.
    pub text: String,
    /// The part of the text at fault, in bytes.
    pub fault: Fault,
    /// Why the pattern is rejected, and mostly what to do, in one line.
    pub reason: String,
}

impl Subject {
    /// Returns the subject in words: for a component, its name in lower case.
    pub fn name(self) -> &'static str
        ensures { result.now ≡ subject_text self }
    {
        match self {
            Subject::Whole => "pattern",
            Subject::Base => "base URL",
            Subject::Component(name) => name.as_str(),
        }
    }
}

impl Diagnosis {
    /// Creates a diagnosis whose fault is the whole `text`, or the place where the colon after its
    /// scheme is missing or mistyped.
    pub fn whole(
        alloc: Global,
        error: Error,
        subject: Subject,
        text: &str,
    ) -> Result<Self, AllocError>
        ensures error { IfOk result (λ diagnosis. diagnosis.error ≡ error) }
        ensures subject { IfOk result (λ diagnosis. diagnosis.subject ≡ subject) }
        ensures text { IfOk result (λ diagnosis. string_bytes diagnosis.text ≡ text.now) }
        ensures fault { IfOk result (λ diagnosis. IsUrlFault text.now diagnosis.fault) }
        ensures within { IfOk result (λ diagnosis. IsFaultIn text.now diagnosis.fault) }
    {
        let fault = Fault::of_url(text);
        let hint = Hint::of_url(text, fault);
        Self::of_fault(alloc, error, subject, text, fault, hint)
    }

    /// Creates a diagnosis of `fault`, a fault of `pattern`, the pattern of a component. `value` is
    /// where `text` has the value of the component. `None`: the text lacks the component, and the
    /// fault of the diagnosis is the whole text.
    pub fn of_part(
        alloc: Global,
        error: Error,
        component: ComponentName,
        text: &str,
        pattern: &str,
        fault: Fault,
        value: Option<Span>,
    ) -> Result<Self, AllocError>
        requires value { IfSome value (λ span.
            (span.start ≤ span.end) × (span.end ≤ length text.now)) }
        requires within { IsFaultIn pattern.now fault }
        ensures error { IfOk result (λ diagnosis. diagnosis.error ≡ error) }
        ensures subject { IfOk result (λ diagnosis.
            diagnosis.subject ≡ subjects.Component component) }
        ensures text { IfOk result (λ diagnosis. string_bytes diagnosis.text ≡ text.now) }
        ensures fault { IfOk result (λ diagnosis.
            IsFaultMoved component text.now pattern.now value fault diagnosis.fault) }
        ensures within { IfOk result (λ diagnosis. IsFaultIn text.now diagnosis.fault) }
    {
        let subject = Subject::Component(component);
        let Some(value) = value else {
            let hint = Hint::of_part(&error, subject, text, pattern, fault, None);
            return Self::of_fault(alloc, error, subject, text, Fault::whole(text), hint);
        };
        let place = PatternOffset::in_value(component, value, pattern);
        let moved = place.moved(text, pattern, fault);
        let hint = Hint::of_part(&error, subject, text, pattern, fault, Some(place));
        Self::of_fault(alloc, error, subject, text, moved, hint)
    }

    /// Creates a diagnosis of `fault`, a fault of a pattern by itself, which is the text.
    pub fn of_pattern(
        alloc: Global,
        error: Error,
        pattern: &str,
        fault: Fault,
    ) -> Result<Self, AllocError>
        requires within { IsFaultIn pattern.now fault }
        ensures error { IfOk result (λ diagnosis. diagnosis.error ≡ error) }
        ensures subject { IfOk result (λ diagnosis. diagnosis.subject ≡ subjects.Whole) }
        ensures text { IfOk result (λ diagnosis. string_bytes diagnosis.text ≡ pattern.now) }
        ensures fault { IfOk result (λ diagnosis. diagnosis.fault ≡ fault) }
    {
        let place = PatternOffset {
            start: 0,
            missing: 0,
        };
        let subject = Subject::Whole;
        let hint = Hint::of_part(&error, subject, pattern, pattern, fault, Some(place));
        Self::of_fault(alloc, error, subject, pattern, fault, hint)
    }

    /// Creates a diagnosis of the colon at the byte index `place` of `text`, which no name follows
    /// and which does not end a protocol.
    pub fn of_colon(
        alloc: Global,
        error: Error,
        text: &str,
        place: usize,
    ) -> Result<Self, AllocError>
        ensures error { IfOk result (λ diagnosis. diagnosis.error ≡ error) }
        ensures subject { IfOk result (λ diagnosis. diagnosis.subject ≡ subjects.Whole) }
        ensures text { IfOk result (λ diagnosis. string_bytes diagnosis.text ≡ text.now) }
        ensures fault { IfOk result (λ diagnosis.
            IsSingleSpan (IsSpanAt text.now place 1) diagnosis.fault) }
        ensures within { IfOk result (λ diagnosis. IsFaultIn text.now diagnosis.fault) }
    {
        let fault = Fault::of_span(Span::at(text, place, 1));
        let mut reason = String::new(alloc);
        path_colon_sentence(text, fault.span.start).append_to(&mut reason)?;
        Ok(Diagnosis {
            error,
            subject: Subject::Whole,
            text: String::from_str(alloc, text)?,
            fault,
            reason,
        })
    }

    /// Creates a diagnosis of `fault`, a fault of `text`, with the reason by the error and the
    /// hint.
    fn of_fault(
        alloc: Global,
        error: Error,
        subject: Subject,
        text: &str,
        fault: Fault,
        hint: Hint,
    ) -> Result<Self, AllocError>
        requires { IsFaultIn text.now fault }
        ensures error { IfOk result (λ diagnosis. diagnosis.error ≡ error) }
        ensures subject { IfOk result (λ diagnosis. diagnosis.subject ≡ subject) }
        ensures text { IfOk result (λ diagnosis. string_bytes diagnosis.text ≡ text.now) }
        ensures fault { IfOk result (λ diagnosis. diagnosis.fault ≡ fault) }
    {
        let part = &text[fault.span.start..fault.span.end];
        let earlier = match fault.earlier {
            Some(span) => Some(&text[span.start..span.end]),
            None => None,
        };
        let faulty = Faulty {
            subject,
            part,
            earlier,
            hint,
        };
        let reason = reason_of(alloc, &error, &faulty)?;
        Ok(Diagnosis {
            error,
            subject,
            text: String::from_str(alloc, text)?,
            fault,
            reason,
        })
    }
}

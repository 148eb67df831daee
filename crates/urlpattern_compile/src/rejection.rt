//! The component for which a pattern is rejected.

ghost use Rattle.std.specs.Prelude.{◌≡◌, ◌≢◌, false, IfNone, IfOk, IfSome};
ghost use Rattle.urlpattern_compile.specs.CompilerSteps.{compiled_values, settings_by};
ghost use Rattle.urlpattern_compile.specs.Diagnoses.{AcceptsComponent, AcceptsEach, AcceptsValues, IsFirstRejection, IsRejectionOf, RejectsComponent};
ghost use Rattle.urlpattern_compile.specs.KeptComponents.{IsCompiledWithParts};
ghost use Rattle.urlpattern_components.specs.declared.eight.ComponentName.TheVariants as names;
ghost use Rattle.urlpattern_syntax.specs.Errors.{ErrorView as views, error_view};

use crate::compile::Compiler;
use urlpattern_components::ComponentName;
use urlpattern_matcher::component::ComponentWithParts;
use urlpattern_matcher::regexp::RegExp;
use urlpattern_syntax::Error;
use urlpattern_syntax::error::OutOfMemory;

/// The components in the order in which they are compiled after the protocol.
const AFTER_PROTOCOL: [ComponentName; 7] = [
    ComponentName::Hostname,
    ComponentName::Pathname,
    ComponentName::Username,
    ComponentName::Password,
    ComponentName::Port,
    ComponentName::Search,
    ComponentName::Hash,
];

/// A component that is rejected, and why.
#[derive(Drop)]
pub(super) struct Rejection {
    /// The component.
    pub(super) component: ComponentName,
    /// Whether the pathname is hierarchical; `false` if the protocol is rejected.
    pub(super) hierarchical: bool,
    /// The error with which the component is rejected.
    pub(super) error: Error,
}

impl Compiler<'_> {
    /// Returns the first component that is rejected, in the order of compilation. `None`: each is
    /// accepted.
    pub(super) fn first_rejected<R: RegExp>(&self) -> Result<Option<Rejection>, OutOfMemory>
        ensures rejected { IfOk result (λ found.
            IfSome found (IsRejectionOf R.RegExp self.now.options.now (compiled_values self.now))) }
        ensures accepted { IfOk result (λ found.
            IfNone found (AcceptsValues R.RegExp self.now.options.now (compiled_values self.now))) }
    {
        match self.component::<R>(ComponentName::Protocol, false) {
            Ok(protocol) => self.first_rejected_after::<R>(protocol),
            Err(error) => {
                let error = not_memory(error)?;
                Ok(Some(Rejection {
                    component: ComponentName::Protocol,
                    hierarchical: false,
                    error,
                }))
            }
        }
    }

    /// Returns the first component that is rejected after the protocol, which compiled to
    /// `protocol`. `None`: each is accepted.
    fn first_rejected_after<R: RegExp>(
        &self,
        protocol: ComponentWithParts<R>,
    ) -> Result<Option<Rejection>, OutOfMemory>
        requires { IsCompiledWithParts R.RegExp (settings_by self.now false names.Protocol)
            protocol }
        ensures rejected { IfOk result (λ found.
            IfSome found (IsRejectionOf R.RegExp self.now.options.now (compiled_values self.now))) }
        ensures accepted { IfOk result (λ found.
            IfNone found (AcceptsValues R.RegExp self.now.options.now (compiled_values self.now))) }
    {
        match self.is_hierarchical(&protocol.component) {
            Ok(hierarchical) => self.first_rejected_of::<R>(hierarchical, &AFTER_PROTOCOL),
            Err(_) => Err(OutOfMemory),
        }
    }

    /// Returns the first component of `names` that is rejected. `hierarchical` says whether the
    /// pathname is hierarchical. `None`: each is accepted.
    fn first_rejected_of<R: RegExp>(
        &self,
        hierarchical: bool,
        names: &[ComponentName],
    ) -> Result<Option<Rejection>, OutOfMemory>
        ensures first { IfOk result (λ found.
            IfSome found
            (IsFirstRejection R.RegExp (settings_by self.now hierarchical) names.now)) }
        ensures refused { IfOk result (λ found.
            IfSome found
            (RejectsComponent R.RegExp (settings_by self.now hierarchical) hierarchical)) }
        ensures accepted { IfOk result (λ found.
            IfNone found
            (AcceptsEach R.RegExp (settings_by self.now hierarchical) names.now)) }
    {
        for name in names {
            match self.rejection_of::<R>(hierarchical, *name)? {
                Some(rejection) => return Ok(Some(rejection)),
                None => {}
            }
        }
        Ok(None)
    }

    /// Compiles a component, and returns its rejection. `hierarchical` says whether the pathname is
    /// hierarchical. `None`: the component is accepted.
    fn rejection_of<R: RegExp>(
        &self,
        hierarchical: bool,
        component: ComponentName,
    ) -> Result<Option<Rejection>, OutOfMemory>
        ensures refused { IfOk result (λ found.
            IfSome found
            (RejectsComponent R.RegExp (settings_by self.now hierarchical) hierarchical)) }
        ensures name { IfOk result (λ found. IfSome found (λ rejection.
            rejection.component ≡ component)) }
        ensures compiled { IfOk result (λ found.
            IfNone found
            (AcceptsComponent R.RegExp (settings_by self.now hierarchical component))) }
    {
        match self.component::<R>(component, hierarchical) {
            Ok(compiled) => {
                drop(compiled);
                Ok(None)
            }
            Err(error) => {
                let error = not_memory(error)?;
                Ok(Some(Rejection {
                    component,
                    hierarchical,
                    error,
                }))
            }
        }
    }
}

/// Returns the error, unless it is `OutOfMemory`, with which the call fails.
pub(super) fn not_memory(error: Error) -> Result<Error, OutOfMemory>
    ensures { IfOk result (λ other. (other ≡ error) × (error_view error ≢ views.OutOfMemory)) }
{
    match error {
        Error::OutOfMemory => Err(OutOfMemory),
        _ => Ok(error),
    }
}

//! What a rule matches.

ghost use Rattle.std.specs.Prelude.{◌≡◌};
ghost use Rattle.nm_access.specs.Rule as spec;

use crate::covers::covers;
use crate::rule::{Accesses, Rule, Target};
use nm_base::Label;
use nm_proto::RowAccess;
use nm_types::Path;

fn has_access(accesses: Accesses, access: RowAccess) -> bool
    ensures { result ≡ spec.has_access accesses access }
{
    match access {
        RowAccess::Create => accesses.create,
        RowAccess::Update => accesses.update,
        RowAccess::Delete => accesses.delete,
    }
}

// Whether a row is one of a module's.
fn is_of_module(owner: &Label, row: &Path) -> bool
    ensures { result ≡ spec.is_of_module owner.now row.now }
{
    match row.steps.last() {
        None => false,
        Some(step) => *owner == step.module,
    }
}

fn is_about(target: &Target, name: &str) -> bool
    ensures { result ≡ spec.is_about target.now name.now }
{
    match target {
        Target::Everything => true,
        Target::Module(_) => false,
        Target::AnyOperation => true,
        Target::Operation(other) => other.as_str() == name,
        Target::Path(_) => false,
    }
}

fn is_over(target: &Target, row: &Path) -> bool
    ensures { result ≡ spec.is_over target.now row.now }
{
    match target {
        Target::Everything => true,
        Target::Module(owner) => is_of_module(owner, row),
        Target::AnyOperation => false,
        Target::Operation(_) => false,
        Target::Path(path) => covers(path, row),
    }
}

/// Whether a rule matches the operation of a name.
pub fn matches_operation(rule: &Rule, name: &str) -> bool
    ensures { result ≡ spec.matches_operation name.now rule.now }
{
    rule.accesses.exec && is_about(&rule.target, name)
}

/// Whether a rule matches a row to which this is done.
pub fn matches_row(rule: &Rule, row: &(Path, RowAccess)) -> bool
    ensures { result ≡ spec.matches_row row.now rule.now }
{
    has_access(rule.accesses, row.1) && is_over(&rule.target, &row.0)
}

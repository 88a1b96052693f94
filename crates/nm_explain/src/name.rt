//! The name of a module.

ghost use Rattle.std.specs.Prelude.{◌≡◌, IfOk};
ghost use Rattle.nm_yang.specs.Module.{reading};
ghost use Rattle.nm_explain.specs.Module as spec;

use nm_base::{Label, NoMemory};
use nm_yang::{YangFault, read_module};
use std::alloc::Global;

/// The name that a text gives its module, where the text can be read.
pub(crate) fn module_name(alloc: Global, text: &str) -> Result<Option<Label>, NoMemory>
    ensures { IfOk result (λ name. name ≡ spec.name_in (reading text.now)) }
{
    match read_module(alloc, text.as_bytes()) {
        Ok(statement) => Ok(statement.argument),
        Err(YangFault::Bad { .. }) => Ok(None),
        Err(YangFault::NoMemory) => Err(NoMemory),
    }
}

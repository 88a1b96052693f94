//! Paths that lead down from the top, a step at a time.

ghost use Rattle.std.specs.Prelude.{◌≡◌, ◌++◌, ◌∷◌, [], IfOk, OnOk};

use nm_base::NoMemory;
use nm_types::{Path, Step};
use std::alloc::Global;

/// The path to the top.
pub fn top(alloc: Global) -> Path
    ensures { result ≡ [] }
{
    Path {
        steps: Vec::new(alloc),
    }
}

/// Puts a step behind a path. It copies no bytes of names and texts.
pub fn go_on(alloc: Global, front: &mut Path, step: &Step) -> Result<(), NoMemory>
    ensures { OnOk result (front.new ≡ front.old ++ step.now ∷ []) }
{
    front.steps.push(step.copy(alloc)?)?;
    Ok(())
}

/// The path with a step behind it. It copies no bytes of names and texts.
pub fn further(alloc: Global, front: &Path, step: &Step) -> Result<Path, NoMemory>
    ensures { IfOk result (λ path. path ≡ front.now ++ step.now ∷ []) }
{
    let step = step.copy(alloc)?;
    front.with_step(alloc, step)
}

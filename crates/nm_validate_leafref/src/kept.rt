//! Values that are kept by the places that they are reached from, in a configuration of their own: there a path is looked up fast.

ghost use Rattle.std.specs.Prelude.{◌≡◌, ◌∷◌, ◌++◌, [], IfOk, OnOk, take, option_copied};
ghost use Rattle.nm_validate_rules.specs.Values as value_spec;
ghost use Rattle.nm_validate_places.specs.Leafs.{step_of};
ghost use Rattle.nm_validate_leafref.specs.Kept as spec;

use nm_base::{Label, NoMemory};
use nm_config::Config;
use nm_types::{Chosen, Path, Step, Value};
use nm_validate_places::values::is_whole;
use std::alloc::Global;

// A step that has these values and leads nowhere.
fn step_of(alloc: Global, values: Vec<Value>) -> Result<Step, NoMemory>
    ensures { IfOk result (λ step. step ≡ step_of values.items) }
{
    Ok(Step {
        module: Label::new(alloc, "")?,
        name: Label::new(alloc, "")?,
        chosen: Chosen::Keys(values),
    })
}

/// The first steps of a path, so many or all that there are.
pub fn begin(alloc: Global, path: &Path, count: usize) -> Result<Path, NoMemory>
    ensures { IfOk result (λ place. place ≡ take count path.now) }
{
    let mut place = path.copy(alloc)?;
    place.steps.truncate(count);
    Ok(place)
}

// The same step without what it chooses.
fn as_whole(alloc: Global, step: &Step) -> Result<Step, NoMemory>
    ensures { IfOk result (λ whole. whole ≡ spec.as_whole step.now) }
{
    Ok(Step {
        module: step.module.copy()?,
        name: step.name.copy()?,
        chosen: Chosen::Whole,
    })
}

/// The path of the list that a path chooses an entry of.
pub fn as_list(alloc: Global, path: &Path) -> Result<Path, NoMemory>
    ensures { IfOk result (λ list. list ≡ value_spec.as_list path.now) }
{
    let Some(step) = path.steps.last() else {
        return path.copy(alloc);
    };
    let whole = as_whole(alloc, step)?;
    let above = begin(alloc, path, path.steps.len() - 1)?;
    let list = above.with_step(alloc, whole)?;
    Ok(list)
}

// The path of a place with a step more before its own.
fn below_step(alloc: Global, first: Step, place: &Path) -> Result<Path, NoMemory>
    ensures { IfOk result (λ path. path ≡ first ∷ place.now) }
{
    let mut steps = Vec::with_capacity(alloc, place.steps.len() + 1)?;
    steps.push(first)?;
    for step in &place.steps {
        steps.push(step.copy(alloc)?)?;
    }
    Ok(Path { steps })
}

/// The path by which the value of a node is kept for a place.
pub fn kept_at(alloc: Global, place: &Path, at: usize, value: &Value) -> Result<Path, NoMemory>
    ensures { IfOk result (λ path. path ≡ spec.kept_at place.now at value.now) }
{
    let mut values = Vec::with_capacity(alloc, 2)?;
    values.push(Value::Int(at as i128))?;
    values.push(value.copy()?)?;
    let step = step_of(alloc, values)?;
    below_step(alloc, step, place)
}

/// The path that tells that the values of a node are kept for the places of so many steps.
pub fn mark_of(alloc: Global, at: usize, depth: usize) -> Result<Path, NoMemory>
    ensures { IfOk result (λ path. path ≡ spec.mark_of at depth) }
{
    let mut values = Vec::with_capacity(alloc, 3)?;
    values.push(Value::Int(at as i128))?;
    values.push(Value::Int(depth as i128))?;
    values.push(Value::Present)?;
    let step = step_of(alloc, values)?;
    let mut steps = Vec::new(alloc);
    steps.push(step)?;
    Ok(Path { steps })
}

// Keeps a value of a node for a place and, where that is an entry, for its list as a whole.
fn keep(
    alloc: Global,
    kept: &mut Config,
    place: &Path,
    at: usize,
    value: &Value,
) -> Result<(), NoMemory>
    ensures { OnOk result (kept.new ≡ spec.with_kept at value.now kept.old place.now) }
{
    let own_path = kept_at(alloc, place, at, value)?;
    kept.put(own_path, Value::Present)?;
    if is_whole(place) {
        return Ok(());
    }
    let list = as_list(alloc, place)?;
    let list_path = kept_at(alloc, &list, at, value)?;
    kept.put(list_path, Value::Present)?;
    Ok(())
}

/// Keeps the value that a node has at a path, if there is one, for the place of so many steps above it.
pub fn keep_value(
    alloc: Global,
    kept: &mut Config,
    path: &Path,
    at: usize,
    depth: usize,
    value: Option<&Value>,
) -> Result<(), NoMemory>
    ensures { OnOk result (kept.new ≡ spec.with_value at depth kept.old path.now (option_copied value.entry)) }
{
    let Some(value) = value else {
        return Ok(());
    };
    if path.steps.len() < depth {
        return Ok(());
    }
    let place = begin(alloc, path, depth)?;
    keep(alloc, kept, &place, at, value)
}

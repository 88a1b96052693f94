//! The rows and the least fault that were found so far.

ghost use Rattle.std.specs.Prelude.{◌≡◌, ◌∷◌, ◌++◌, IfOk, OnOk, Some, string_bytes};
ghost use Rattle.std.specs.FinMap.{insert};
ghost use Rattle.nm_json.specs.Noted as spec;
ghost use Rattle.nm_json.specs.Places.{fault_cmp, kind_rank, lesser, name_steps, printed, printed_at_top, place_steps};
ghost use Rattle.nm_json.specs.Findings.{row, bad, fault_at};
ghost use Rattle.nm_json.specs.declared.fault.JsonKind.TheVariants as kinds;

use crate::fault::{Fault, JsonKind, Place};
use nm_base::{Label, NoMemory};
use nm_config::Config;
use nm_types::{Chosen, Path, Step, Value};
use std::alloc::Global;
use std::cmp::Ordering;
use std::marker::Model;
use std::mem;

/// The rows in the order in which they were found, and the least of the faults but for repeated rows.
#[derive(Drop)]
pub struct Gathered {
    pub rows: Vec<(Path, Value)>,
    pub least: Option<Fault>,
}

impl Model for Gathered {
    ghost use Rattle.nm_json.specs.Noted as spec;

    ghost Value = { spec.Gathered };

    ghost view = { λ gathered. record { rows = gathered.rows.items; least = gathered.least } };
}

/// The text of a name with its module's name before it.
pub fn long_name(alloc: Global, module: &Label, name: &Label) -> Result<String, NoMemory>
    ensures { IfOk result (λ text. string_bytes text ≡ «module».now ++ 58 ∷ name.now) }
{
    let length = module.as_str().len() + 1 + name.as_str().len();
    let mut text = String::with_capacity(alloc, length)?;
    text.push_str(module.as_str())?;
    text.push(':')?;
    text.push_str(name.as_str())?;
    Ok(text)
}

/// A name with its module's name before it.
pub fn with_module(alloc: Global, module: &Label, name: &Label) -> Result<Label, NoMemory>
    ensures { IfOk result (λ label. label ≡ «module».now ++ 58 ∷ name.now) }
{
    let text = long_name(alloc, module, name)?;
    Label::new(alloc, text.as_str())
}

// A step with its name as it is printed at the top.
fn printed_at_top(alloc: Global, step: &Step) -> Result<Step, NoMemory>
    ensures { IfOk result (λ step_printed. step_printed ≡ printed_at_top step.now) }
{
    Ok(Step {
        module: step.module.copy()?,
        name: with_module(alloc, &step.module, &step.name)?,
        chosen: step.chosen.copy(alloc)?,
    })
}

// The steps of a path, with names as they are printed.
fn printed(alloc: Global, steps: &[Step]) -> Result<Vec<Step>, NoMemory>
    ensures { IfOk result (λ all. all.items ≡ printed steps.now) }
{
    let mut all = Vec::new(alloc);
    let [first, rest @ ..] = steps else {
        return Ok(all);
    };
    all.push(printed_at_top(alloc, first)?)?;
    for step in rest {
        all.push(step.copy(alloc)?)?;
    }
    Ok(all)
}

// Puts a name that stands below a path behind its steps.
fn push_name(alloc: Global, all: &mut Vec<Step>, name: &Label) -> Result<(), NoMemory>
    ensures { OnOk result (all.new.items ≡ all.old.items ++ name_steps (Some name.now)) }
{
    all.push(Step {
        module: Label::new(alloc, "")?,
        name: name.copy()?,
        chosen: Chosen::Whole,
    })?;
    Ok(())
}

/// The steps of a place as they are printed: their order is that of faults.
pub fn place_steps(alloc: Global, place: &Place) -> Result<Vec<Step>, NoMemory>
    ensures { IfOk result (λ all. all.items ≡ place_steps place.now) }
{
    let mut all = printed(alloc, &place.path.steps)?;
    let Some(name) = &place.below else {
        return Ok(all);
    };
    match push_name(alloc, &mut all, name) {
        Ok(()) => Ok(all),
        Err(error) => {
            drop(all);
            Err(error)
        }
    }
}

fn rank(kind: JsonKind) -> u8
    ensures { result ≡ kind_rank kind }
{
    match kind {
        JsonKind::Unknown => 0,
        JsonKind::BadForm => 1,
        JsonKind::BadValue => 2,
        JsonKind::MissingKey => 3,
        JsonKind::Repeated => 4,
    }
}

// The order of two faults: by their places, and at one place by their kinds.
#[tactic(auto, unfolding(crate::specs::Places::fault_cmp))]
fn order(alloc: Global, one: &Fault, other: &Fault) -> Result<Ordering, NoMemory>
    ensures { IfOk result (λ order. order ≡ fault_cmp one.now other.now) }
{
    let ours = place_steps(alloc, &one.place)?;
    match place_steps(alloc, &other.place) {
        Ok(theirs) => {
            let places = ours.as_slice().cmp(theirs.as_slice());
            drop(theirs);
            drop(ours);
            Ok(places.then(rank(one.kind).cmp(&rank(other.kind))))
        }
        Err(error) => {
            drop(ours);
            Err(error)
        }
    }
}

// The least of a fault and those that were found.
fn note_lesser(alloc: Global, least: &mut Option<Fault>, fault: Fault) -> Result<(), NoMemory>
    ensures { OnOk result (least.new ≡ lesser least.old fault) }
{
    let Some(before) = least else {
        drop(mem::replace(least, Some(fault)));
        return Ok(());
    };
    match order(alloc, &fault, before) {
        Ok(compared) => {
            if compared.is_lt() {
                drop(mem::replace(least, Some(fault)));
                return Ok(());
            }
            drop(fault);
            Ok(())
        }
        Err(error) => {
            drop(fault);
            Err(error)
        }
    }
}

impl Gathered {
    /// No rows and no fault.
    pub fn new(alloc: Global) -> Gathered
        ensures { result ≡ spec.nothing }
    {
        Gathered {
            rows: Vec::new(alloc),
            least: None,
        }
    }

    /// A fault more.
    pub fn note_fault(&mut self, alloc: Global, fault: Fault) -> Result<(), NoMemory>
        ensures { OnOk result (self.new ≡ spec.noted self.old (bad fault)) }
    {
        note_lesser(alloc, &mut self.least, fault)
    }

    /// A row more.
    pub fn note_row(&mut self, path: Path, value: Value) -> Result<(), NoMemory>
        ensures { OnOk result (self.new ≡ spec.noted self.old (row path value)) }
    {
        self.rows.push((path, value))?;
        Ok(())
    }
}

// Notes that a row with a path was there.
fn note_repeated(alloc: Global, least: &mut Option<Fault>, path: Path) -> Result<(), NoMemory>
    ensures { OnOk result (least.new ≡ lesser least.old (fault_at path kinds.Repeated)) }
{
    let place = Place { path, below: None };
    note_lesser(
        alloc,
        least,
        Fault {
            kind: JsonKind::Repeated,
            place,
        },
    )
}

/// A row more in a configuration, which is a fault where there is one with its path.
pub fn put_row(
    alloc: Global,
    config: &mut Config,
    least: &mut Option<Fault>,
    path: Path,
    value: Value,
) -> Result<(), NoMemory>
    ensures rows { OnOk result (config.new ≡ insert config.old path value) }
    ensures least { OnOk result (least.new ≡ spec.with_row config.old least.old path) }
{
    let own = match path.copy(alloc) {
        Ok(own) => own,
        Err(error) => {
            drop(path);
            drop(value);
            return Err(error);
        }
    };
    let before = match config.put(path, value) {
        Ok(before) => before,
        Err(error) => {
            drop(own);
            return Err(error);
        }
    };
    if before.is_none() {
        drop(before);
        drop(own);
        return Ok(());
    }
    drop(before);
    note_repeated(alloc, least, own)
}

//! A scenario of YANG contents, after its head.

ghost use Rattle.std.specs.Prelude.{Result, codes};
ghost use Rattle.serde_json.specs.View.{view};
ghost use Rattle.nm_scenario_form.specs.declared.fault.Fault.{Fault};
ghost use Rattle.nm_scenario_form.specs.declared.fault.Step.TheVariants.{Name, Item};
ghost use Rattle.nm_scenario_form.specs.Reading.{Gives, under};
ghost use Rattle.nm_scenario.specs.declared.head.Head.TheVariants as head;
ghost use Rattle.nm_scenario.specs.Reading.{after_read, data_read};

use crate::causes::{flaw_fault, large_fault};
use crate::head::{ModuleParts, ReadModule, parts_of};
use crate::members::{Members, read_members};
use crate::numbering::{Numbered, number_all};
use crate::scenario::{Body, Scenario};
use nm_base::Label;
use nm_content::{YangContent, marks_path, yang_content};
use nm_proto::Listed;
use nm_scenario_form::places::seen_from_outside;
use nm_scenario_form::{ReadError, Step};
use nm_schema::{SchemaFault, build};
use serde_json::Value;
use std::alloc::Global;

/// The scenario of YANG contents of a JSON value whose head, with these modules, has been read.
pub fn read_yang(
    alloc: Global,
    whole: &Value,
    modules: Listed<ReadModule>,
) -> Result<Scenario, ReadError>
    ensures { Gives result (after_read (head.Yang modules) (view whole.now)) }
{
    let ModuleParts { texts, statements } = parts_of(alloc, modules)?;
    let marks = marks_path(alloc)?;
    match build(alloc, statements.as_slice()) {
        Ok(schema) => read_built(alloc, whole, texts, yang_content(alloc, schema, marks)),
        Err(
            SchemaFault::Flawed {
                flaw,
                module: number,
                place,
            },
        ) => in_module(alloc, number, flaw_fault(alloc, flaw, place)),
        Err(
            SchemaFault::TooLarge {
                module: number,
                place,
            },
        ) => in_module(alloc, number, large_fault(alloc, place)),
        Err(SchemaFault::NoMemory) => Err(ReadError::NoMemory),
    }
}

// What was told in the module of a number, seen from the whole.
fn in_module<T>(alloc: Global, number: usize, told: Result<T, ReadError>) -> Result<T, ReadError>
    ensures { (read : Result T Fault) → Gives told read → Gives result (under (Name (codes "modules")) (under (Item number) read)) }
{
    match told {
        Ok(value) => Ok(value),
        Err(error) => seen_in(alloc, number, error),
    }
}

fn seen_in<T>(alloc: Global, number: usize, error: ReadError) -> Result<T, ReadError>
    ensures { (read : Result T Fault) → Gives (Err error) read → Gives result (under (Name (codes "modules")) (under (Item number) read)) }
{
    let step = Step::Name(Label::new(alloc, "modules")?);
    let seen: Result<T, ReadError> = seen_from_outside(error, Step::Item(number));
    match seen {
        Ok(value) => Ok(value),
        Err(error) => seen_from_outside(error, step),
    }
}

// What follows modules that gave a tree.
#[tactic(auto, unfolding(crate::specs::Reading::data_read))]
fn read_built(
    alloc: Global,
    whole: &Value,
    texts: Listed<Label>,
    content: YangContent,
) -> Result<Scenario, ReadError>
    ensures { Gives result (data_read content texts (view whole.now)) }
{
    let Members {
        devices,
        changes,
        rest,
    } = read_members(alloc, whole, &content)?;
    let Numbered {
        edits,
        changes,
        operators,
        events,
        selects,
        drain,
        trace,
        notices,
    } = number_all(alloc, changes, rest)?;
    Ok(Scenario {
        body: Body::Yang {
            modules: texts,
            content,
            devices,
            edits,
        },
        changes,
        operators,
        events,
        selects,
        drain,
        trace,
        notices,
    })
}

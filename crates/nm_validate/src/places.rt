//! The places that rows stand below.

ghost use Rattle.std.specs.Prelude.{◌≡◌, ◌++◌, [], IfOk, OnOk, map, take};
ghost use Rattle.nm_validate.specs.Led.{AreLed, paths_of};
ghost use Rattle.nm_validate.specs.Places as spec;

use nm_base::NoMemory;
use nm_path::node_of;
use nm_schema_tree::Schema;
use nm_types::{Path, Step};
use nm_validate_places::areas::NodeRow;
use std::alloc::Global;

/// A place with the node that it leads to.
#[derive(Drop)]
pub struct NodePlace<'p> {
    pub path: &'p Path,
    pub node: Option<usize>,
}

// How many of the places that a path stands below, from the top down, another path stands below too.
fn shared_places(one: &[Step], other: &[Step]) -> usize
    ensures { result ≡ spec.shared_places one.now other.now }
{
    let mut count = 0;
    let mut ours = one;
    let mut theirs = other;
    'steps: while let [step, more @ ..] = ours {
        let [their, others @ ..] = theirs else {
            return count;
        };
        count += 1;
        if step != their {
            return count;
        }
        ours = more;
        theirs = others;
    }
    count
}

// The first steps of a path.
fn first_steps(alloc: Global, steps: &[Step]) -> Result<Path, NoMemory>
    ensures { IfOk result (λ path. path ≡ steps.now) }
{
    let mut copies = Vec::with_capacity(alloc, steps.len())?;
    for step in steps {
        copies.push(step.copy(alloc)?)?;
    }
    Ok(Path { steps: copies })
}

/// The path of so many first steps of a path, and of all where it has no more.
pub fn beginning(alloc: Global, path: &Path, count: usize) -> Result<Path, NoMemory>
    ensures { IfOk result (λ first. first ≡ take count path.now) }
{
    let steps = path.steps.as_slice();
    match steps.get(..count) {
        None => path.copy(alloc),
        Some(first) => first_steps(alloc, first),
    }
}

// Puts the places that a path stands below behind others, from the top down, but for those that a path before it stands below.
fn put_places(
    alloc: Global,
    before: &[Step],
    path: &Path,
    places: &mut Vec<Path>,
) -> Result<(), NoMemory>
    ensures { OnOk result (places.new.items ≡ places.old.items ++ spec.places_from (spec.shared_places before.now path.now) path.now) }
{
    for count in shared_places(before, path.steps.as_slice())..path.steps.len() {
        places.push(beginning(alloc, path, count)?)?;
    }
    Ok(())
}

/// The places that rows stand below, each where the row before doesn't stand below it.
pub fn places_of(alloc: Global, rows: &[NodeRow<'_>]) -> Result<Vec<Path>, NoMemory>
    ensures { IfOk result (λ places. places.items ≡ spec.places_after [] (map (λ row. row.path.now) rows.now)) }
{
    let mut places = Vec::new(alloc);
    let mut before: &[Step] = &[];
    for row in rows {
        let path = row.path;
        put_places(alloc, before, path, &mut places)?;
        before = path.steps.as_slice();
    }
    Ok(places)
}

/// Some places with the nodes that they lead to: each is asked for once for all choices.
pub fn with_nodes<'p>(
    alloc: Global,
    schema: &Schema,
    paths: &'p [Path],
) -> Result<Vec<NodePlace<'p>>, NoMemory>
    ensures paths { IfOk result (λ places. paths_of places.items ≡ paths.now) }
    ensures led { IfOk result (λ places. AreLed schema.now places.items) }
{
    let mut places = Vec::with_capacity(alloc, paths.len())?;
    for path in paths {
        let node = node_of(schema, path);
        places.push(NodePlace { path, node })?;
    }
    Ok(places)
}

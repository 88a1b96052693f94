//! The node that the text of a path leads to.

ghost use Rattle.std.specs.Prelude.{◌≡◌, None, IfOk, string_bytes};
ghost use Rattle.std.specs.List.{after_first, slice_split};
ghost use Rattle.nm_explain.specs.Place as spec;

use nm_base::NoMemory;
use nm_json::names::node_named;
use nm_schema_tree::Schema;
use std::alloc::Global;

// What stands outside single quotes: names, slashes and the rest of predicates.
fn outside(alloc: Global, text: &str) -> Result<String, NoMemory>
    ensures { IfOk result (λ parts. string_bytes parts ≡ spec.outside text.now) }
{
    let mut out = String::new(alloc);
    let mut rest = text;
    'parts: while let Some((front, behind)) = rest.split_once('\'') {
        out.push_str(front)?;
        let Some((_, more)) = behind.split_once('\'') else {
            return Ok(out);
        };
        rest = more;
    }
    out.push_str(rest)?;
    Ok(out)
}

// The name of a step.
fn name_in(step: &str) -> &str
    ensures { result.now ≡ spec.name_in step.now }
{
    match step.split_once('[') {
        Some((name, _)) => name,
        None => step,
    }
}

// What stands behind the first slash.
fn behind_slash(text: &str) -> &str
    ensures { result.now ≡ after_first spec.is_slash text.now }
{
    match text.split_once('/') {
        Some((_, behind)) => behind,
        None => "",
    }
}

// The node that steps with slashes between them lead to from the top.
fn led(schema: &Schema, steps: &str) -> Option<usize>
    ensures { result ≡ spec.led schema.now None (slice_split spec.is_slash steps.now) }
{
    let mut within = None;
    let mut rest = steps;
    'steps: while let Some((step, behind)) = rest.split_once('/') {
        let Some(at) = node_named(schema, within, name_in(step)) else {
            return None;
        };
        within = Some(at);
        rest = behind;
    }
    node_named(schema, within, name_in(rest))
}

/// The node that the text of a path leads to, whatever its predicates choose.
pub(crate) fn node_at(alloc: Global, schema: &Schema, text: &str) -> Result<Option<usize>, NoMemory>
    ensures { IfOk result (λ at. at ≡ spec.node_at schema.now text.now) }
{
    let parts = outside(alloc, text)?;
    Ok(led(schema, behind_slash(parts.as_str())))
}

//! The steps of a text that has the form of a path.

ghost use Rattle.std.specs.Prelude.{◌≡◌, ◌<◌, ◌≤◌, length, None, Some, MatchOption, IfSome, IfOk};
ghost use Rattle.nm_path.specs.Form as form_spec;
ghost use Rattle.nm_path.specs.Reading as spec;

use crate::fault::PathFault;
use crate::form::{Predicate, Written};
use crate::quoted::quoted_at;
use crate::text::{after, begins, identifier_at};
use nm_base::Label;
use std::alloc::Global;

// `.` or an identifier, and what stands after it.
#[tactic(auto, unfolding(crate::specs::Reading::key_at))]
fn key_at(text: &str) -> Option<(&str, &str)>
    ensures read { MatchOption result (spec.key_at text.now ≡ None) (λ x. spec.key_at text.now ≡ Some (x.0.now, x.1.now)) }
    ensures shorter { IfSome result (λ x. length x.1.now ≤ length text.now) }
{
    if let Some(rest) = after(text, b'.') {
        return Some((".", rest));
    }
    identifier_at(text)
}

// A predicate, and what stands after it.
#[tactic(auto, unfolding(crate::specs::Reading::predicate_at))]
fn predicate_at<'a>(alloc: Global, text: &'a str) -> Result<(Predicate, &'a str), PathFault>
    ensures read { spec.Gives (λ x. (x.0, x.1.now)) result (spec.predicate_at text.now) }
    ensures shorter { IfOk result (λ x. length x.1.now < length text.now) }
{
    let Some(inside) = after(text, b'[') else {
        return Err(PathFault::BadText);
    };
    let Some((key, equals)) = key_at(inside) else {
        return Err(PathFault::BadText);
    };
    let Some(start) = after(equals, b'=') else {
        return Err(PathFault::BadText);
    };
    let (quote, value, end) = match quoted_at(alloc, start) {
        Ok(read) => read,
        Err(error) => return Err(error),
    };
    let Some(rest) = after(end, b']') else {
        return Err(PathFault::BadText);
    };
    let key = Label::new(alloc, key)?;
    Ok((Predicate { key, quote, value }, rest))
}

// All predicates that stand first, and what stands after them.
fn predicates_at<'a>(alloc: Global, text: &'a str) -> Result<(Vec<Predicate>, &'a str), PathFault>
    ensures read { spec.Gives (λ x. (x.0.items, x.1.now)) result (spec.predicates_at (length text.now) text.now) }
    ensures shorter { IfOk result (λ x. length x.1.now ≤ length text.now) }
{
    let mut all = Vec::new(alloc);
    let mut rest = text;
    'predicates: while begins(rest, b'[') {
        match predicate_at(alloc, rest) {
            Ok((predicate, after)) => {
                all.push(predicate)?;
                rest = after;
            }
            Err(error) => return Err(error),
        }
    }
    Ok((all, rest))
}

// A step whose module and name are read.
#[tactic(auto, unfolding(crate::specs::Reading::named_at))]
fn named_at<'a>(
    alloc: Global,
    owner: Option<Label>,
    name: &'a str,
    text: &'a str,
) -> Result<(Written, &'a str), PathFault>
    ensures read { spec.Gives (λ x. (x.0, x.1.now)) result (spec.named_at owner name.now text.now) }
    ensures shorter { IfOk result (λ x. length x.1.now ≤ length text.now) }
{
    let (predicates, rest) = match predicates_at(alloc, text) {
        Ok(read) => read,
        Err(error) => return Err(error),
    };
    let name = Label::new(alloc, name)?;
    Ok((
        Written {
            owner,
            name,
            predicates,
        },
        rest,
    ))
}

// A step whose module is read, and its colon.
fn owned_at<'a>(
    alloc: Global,
    owner: &'a str,
    text: &'a str,
) -> Result<(Written, &'a str), PathFault>
    ensures read { spec.Gives (λ x. (x.0, x.1.now)) result (spec.owned_at owner.now text.now) }
    ensures shorter { IfOk result (λ x. length x.1.now ≤ length text.now) }
{
    let Some((name, rest)) = identifier_at(text) else {
        return Err(PathFault::BadText);
    };
    let owner = Label::new(alloc, owner)?;
    named_at(alloc, Some(owner), name, rest)
}

// A step, and what stands after it.
#[tactic(auto, unfolding(crate::specs::Reading::step_at))]
fn step_at<'a>(alloc: Global, text: &'a str) -> Result<(Written, &'a str), PathFault>
    ensures read { spec.Gives (λ x. (x.0, x.1.now)) result (spec.step_at text.now) }
    ensures shorter { IfOk result (λ x. length x.1.now < length text.now) }
{
    let Some(inside) = after(text, b'/') else {
        return Err(PathFault::BadText);
    };
    let Some((first, rest)) = identifier_at(inside) else {
        return Err(PathFault::BadText);
    };
    match after(rest, b':') {
        None => named_at(alloc, None, first, rest),
        Some(more) => owned_at(alloc, first, more),
    }
}

// The steps of a text, one after the other to its end.
fn steps_at(alloc: Global, text: &str) -> Result<Vec<Written>, PathFault>
    ensures { spec.Gives (λ v. v.items) result (spec.steps_at (length text.now) text.now) }
{
    let mut all = Vec::new(alloc);
    let mut rest = text;
    'steps: while !rest.is_empty() {
        match step_at(alloc, rest) {
            Ok((step, after)) => {
                all.push(step)?;
                rest = after;
            }
            Err(error) => return Err(error),
        }
    }
    Ok(all)
}

// Whether there is a step, and the first has its module.
fn is_from_top(steps: &[Written]) -> bool
    ensures { result ≡ form_spec.is_from_top steps.now }
{
    match steps {
        [] => false,
        [first, ..] => first.owner.is_some(),
    }
}

/// The steps of a text that has the form of a path, which begins with the module of its first step. Nothing is looked up in a
/// schema: `PathFault::BadText` where the text hasn't the form, or no memory.
#[tactic(auto, unfolding(crate::specs::Reading::steps_of))]
pub fn steps_of(alloc: Global, text: &str) -> Result<Vec<Written>, PathFault>
    ensures { spec.Gives (λ v. v.items) result (spec.steps_of text.now) }
{
    let steps = match steps_at(alloc, text) {
        Ok(steps) => steps,
        Err(error) => return Err(error),
    };
    if !is_from_top(&steps) {
        return Err(PathFault::BadText);
    }
    Ok(steps)
}

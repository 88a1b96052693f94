//! Values in quotes.

ghost use Rattle.std.specs.Prelude.{◌≡◌, ◌<◌, length, false, IfOk};
ghost use Rattle.nm_path.specs.Reading as spec;

use crate::fault::PathFault;
use crate::form::Quote;
use crate::text::after;
use nm_base::Label;
use std::alloc::Global;

// The value up to a single quote that isn't doubled, and what stands after it.
fn single_at<'a>(alloc: Global, text: &'a str) -> Result<(Label, &'a str), PathFault>
    ensures read { spec.Gives (λ x. (x.0, x.1.now)) result (spec.single_at false text.now) }
    ensures shorter { IfOk result (λ x. length x.1.now < length text.now) }
{
    let mut value = String::new(alloc);
    let mut rest = text;
    'parts: while let Some((front, behind)) = rest.split_once('\'') {
        value.push_str(front)?;
        let Some(more) = after(behind, b'\'') else {
            return Ok((Label::new(alloc, value.as_str())?, behind));
        };
        value.push('\'')?;
        rest = more;
    }
    Err(PathFault::BadText)
}

// The value up to a double quote, and what stands after it.
fn double_at<'a>(alloc: Global, text: &'a str) -> Result<(Label, &'a str), PathFault>
    ensures read { spec.Gives (λ x. (x.0, x.1.now)) result (spec.double_at text.now) }
    ensures shorter { IfOk result (λ x. length x.1.now < length text.now) }
{
    match text.split_once('"') {
        None => Err(PathFault::BadText),
        Some((value, rest)) => Ok((Label::new(alloc, value)?, rest)),
    }
}

/// A value in its quotes, and what stands after it.
#[tactic(auto, unfolding(crate::specs::Reading::quoted_at))]
pub fn quoted_at<'a>(alloc: Global, text: &'a str) -> Result<(Quote, Label, &'a str), PathFault>
    ensures read { spec.Gives (λ x. (x.0, x.1, x.2.now)) result (spec.quoted_at text.now) }
    ensures shorter { IfOk result (λ x. length x.2.now < length text.now) }
{
    if let Some(inside) = after(text, b'\'') {
        return match single_at(alloc, inside) {
            Ok((value, rest)) => Ok((Quote::Single, value, rest)),
            Err(error) => Err(error),
        };
    }
    let Some(inside) = after(text, b'"') else {
        return Err(PathFault::BadText);
    };
    match double_at(alloc, inside) {
        Ok((value, rest)) => Ok((Quote::Double, value, rest)),
        Err(error) => Err(error),
    }
}

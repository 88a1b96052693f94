//! Whether a path is at or below a node: by the steps alone, without a schema.

ghost use Rattle.std.specs.Prelude.{◌≡◌};
ghost use Rattle.nm_types.specs.Chosen.{choice_of};
ghost use Rattle.nm_config.specs.Under as under;

use nm_types::{Chosen, Path, Step};

/// Whether a path is at or below a node: it begins with the steps of the node's path.
///
/// A list as a whole, which the last step of the node's path may be, stands for each of its entries.
pub fn is_under(node: &Path, path: &Path) -> bool
    ensures { result ≡ under.is_under node.now path.now }
{
    for (depth, step) in node.steps.iter().enumerate() {
        let Some(other) = path.steps.get(depth) else {
            return false;
        };
        if !goes_along(depth + 1 == node.steps.len(), step, other) {
            return false;
        }
    }
    true
}

fn goes_along(is_last: bool, step: &Step, other: &Step) -> bool
    ensures { result ≡ under.goes_along is_last step.now other.now }
{
    if is_last {
        stands_for(step, other)
    } else {
        step == other
    }
}

fn stands_for(step: &Step, other: &Step) -> bool
    ensures { result ≡ under.stands_for step.now other.now }
{
    step.module == other.module && step.name == other.name && takes_in(&step.chosen, &other.chosen)
}

fn takes_in(chosen: &Chosen, other: &Chosen) -> bool
    ensures { result ≡ under.takes_in (choice_of chosen.now) (choice_of other.now) }
{
    is_whole(chosen) || chosen.same(other)
}

pub fn is_whole(chosen: &Chosen) -> bool
    ensures { result ≡ under.is_whole (choice_of chosen.now) }
{
    match chosen {
        Chosen::Whole => true,
        Chosen::Keys(_) => false,
        Chosen::Entry(_) => false,
    }
}

//! The rows at and below the path of a rule: by the steps alone, without a schema.

ghost use Rattle.std.specs.Prelude.{◌≡◌};
ghost use Rattle.nm_types.specs.Chosen.{choice_of};
ghost use Rattle.nm_config.specs.Under as under;
ghost use Rattle.nm_access.specs.Covers as spec;

use nm_types::{Chosen, Path, Step};

/// Whether a row is at or below the path of a rule.
pub fn covers(path: &Path, row: &Path) -> bool
    ensures { result ≡ spec.covers path.now row.now }
{
    covers_steps(&path.steps, &row.steps)
}

fn covers_steps(path: &[Step], row: &[Step]) -> bool
    ensures { result ≡ spec.covers path.now row.now }
{
    let mut steps = path;
    let mut others = row;
    'steps: while let [step, more @ ..] = steps {
        let [other, rest @ ..] = others else {
            return false;
        };
        if !stands_for(step, other) {
            return false;
        }
        steps = more;
        others = rest;
    }
    true
}

fn stands_for(step: &Step, other: &Step) -> bool
    ensures { result ≡ under.stands_for step.now other.now }
{
    step.module == other.module && step.name == other.name && takes_in(&step.chosen, &other.chosen)
}

// Nothing chosen of a list stands for all its entries.
fn takes_in(chosen: &Chosen, other: &Chosen) -> bool
    ensures { result ≡ under.takes_in (choice_of chosen.now) (choice_of other.now) }
{
    match chosen {
        Chosen::Whole => true,
        Chosen::Keys(_) => chosen.same(other),
        Chosen::Entry(_) => chosen.same(other),
    }
}

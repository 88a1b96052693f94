//! Rows that stand together: those of one node, and those below one entry.

ghost use Rattle.std.specs.Prelude.{◌≡◌, ◌≤◌, ◌+◌, drop, take, length, map as each};
ghost use Rattle.std.specs.Map.Iter.{deref_pair};
ghost use Rattle.nm_types.specs.Chosen.{choice_of};
ghost use Rattle.nm_json_text.specs.Passing as spec;

use nm_types::{Chosen, Path, Step, Value};

/// The steps of a path behind so many.
pub fn steps_from(path: &Path, depth: usize) -> &[Step]
    ensures { result.now ≡ drop depth path.now }
{
    let steps = path.steps.as_slice();
    if depth >= steps.len() {
        return &[];
    }
    &steps[depth..]
}

/// The rows behind so many.
pub fn rows_from<'a, 'r>(
    rows: &'a [(&'r Path, &'r Value)],
    count: usize,
) -> &'a [(&'r Path, &'r Value)]
    ensures value { result.now ≡ drop count rows.now }
    ensures within { count ≤ length rows.now → length result.now + count ≡ length rows.now }
{
    if count >= rows.len() {
        return &[];
    }
    &rows[count..]
}

/// So many rows at the front.
pub fn rows_to<'a, 'r>(
    rows: &'a [(&'r Path, &'r Value)],
    count: usize,
) -> &'a [(&'r Path, &'r Value)]
    ensures { result.now ≡ take count rows.now }
{
    if count >= rows.len() {
        return rows;
    }
    &rows[..count]
}

fn is_whole(chosen: &Chosen) -> bool
    ensures { result ≡ spec.is_whole (choice_of chosen.now) }
{
    match chosen {
        Chosen::Whole => true,
        Chosen::Keys(_) => false,
        Chosen::Entry(_) => false,
    }
}

// Whether both choose an entry, or neither does and the other goes on.
fn goes_alike(chosen: &Chosen, other: &Chosen, below: &[Step]) -> bool
    ensures { result ≡ spec.goes_alike (choice_of chosen.now) (choice_of other.now) below.now }
{
    if is_whole(chosen) {
        return is_whole(other) && !below.is_empty();
    }
    !is_whole(other)
}

// Whether steps lead to or below the node of a step.
fn is_alike(step: &Step, steps: &[Step]) -> bool
    ensures { result ≡ spec.leads_alike step.now steps.now }
{
    let [other, below @ ..] = steps else {
        return false;
    };
    other.name.as_str() == step.name.as_str()
        && other.module.as_str() == step.module.as_str()
        && goes_alike(&step.chosen, &other.chosen, below)
}

/// How many rows at the front lead to or below the node of a step.
pub fn alike_count(step: &Step, depth: usize, rows: &[(&Path, &Value)]) -> usize
    ensures value { result ≡ spec.front_length (spec.is_alike step.now) (spec.rests depth (each deref_pair rows.now)) }
    ensures within { result ≤ length rows.now }
{
    let mut count = 0usize;
    let mut rest = rows;
    'rows: while let [row, more @ ..] = rest {
        if !is_alike(step, steps_from(row.0, depth)) {
            return count;
        }
        count += 1;
        rest = more;
    }
    count
}

// Whether steps lead below an entry.
fn goes_below(steps: &[Step]) -> bool
    ensures { result ≡ spec.leads_below steps.now }
{
    let [step, below @ ..] = steps else {
        return false;
    };
    match &step.chosen {
        Chosen::Whole => false,
        Chosen::Keys(_) => !below.is_empty(),
        Chosen::Entry(_) => false,
    }
}

/// How many rows at the front lead below an entry.
pub fn below_count(depth: usize, rows: &[(&Path, &Value)]) -> usize
    ensures value { result ≡ spec.front_length spec.is_below (spec.rests depth (each deref_pair rows.now)) }
    ensures within { result ≤ length rows.now }
{
    let mut count = 0usize;
    let mut rest = rows;
    'rows: while let [row, more @ ..] = rest {
        if !goes_below(steps_from(row.0, depth)) {
            return count;
        }
        count += 1;
        rest = more;
    }
    count
}

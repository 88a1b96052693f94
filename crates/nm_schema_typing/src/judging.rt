//! What is wrong with types.

ghost use Rattle.std.specs.Prelude.{◌≡◌, IfOk};
ghost use Rattle.nm_schema_typing.specs.Flaws.{AreMeanings};
ghost use Rattle.nm_schema_typing.specs.Listing.{AreJudgements};
ghost use Rattle.nm_schema_typing.specs.TypeFlaw as spec;

use crate::flaws::{lacking_flaw, path_flaw, restriction_flaw};
use crate::listing::{Judgement, is_at, listed_flaw};
use crate::restricting::text_at;
use crate::types::Types;
use nm_base::NoMemory;
use nm_schema_statements::{Flaw, Rows, Word};
use std::alloc::Global;

/// What is wrong with a `type` statement or a statement in one, by its row's number, each by itself against the type that is
/// restricted. None for other rows, and where that type has no meaning.
///
/// A `type` statement lacks its fraction digits, names, bits or path. A restriction is unknown where the type takes no
/// such, and else its argument is refused. A predicate in a path is left out.
#[tactic(auto, unfolding(crate::specs::TypeFlaw::type_flaw))]
pub fn type_flaw(
    alloc: Global,
    rows: &Rows,
    typedefs: &[Option<usize>],
    types: &Types,
    judgements: &[Judgement],
    at: usize,
) -> Result<Option<Flaw>, NoMemory>
    requires meanings { AreMeanings rows.now typedefs.now types.now.meanings }
    requires judgements { AreJudgements rows.now typedefs.now judgements.now }
    ensures exact { IfOk result (λ flaw. flaw ≡ spec.type_flaw rows.now typedefs.now at) }
{
    let Some(row) = rows.row(at) else {
        return Ok(None);
    };
    match row.word {
        Word::Type => lacking_flaw(alloc, rows, typedefs, types, at),
        Word::Path => path_flaw(alloc, rows, typedefs, types, row),
        Word::Range => restriction_flaw(alloc, rows, typedefs, types, row),
        Word::Length => restriction_flaw(alloc, rows, typedefs, types, row),
        Word::FractionDigits => restriction_flaw(alloc, rows, typedefs, types, row),
        Word::Enum => listed_flaw(alloc, rows, judgements, at),
        Word::Bit => listed_flaw(alloc, rows, judgements, at),
        Word::Value => listed_flaw(alloc, rows, judgements, at),
        Word::Position => listed_flaw(alloc, rows, judgements, at),
        _ => Ok(None),
    }
}

/// The flaw of the first row that leads to itself, which has it by its name.
#[tactic(auto, unfolding(crate::specs::TypeFlaw::cycle_flaw))]
pub fn cycle_flaw(
    alloc: Global,
    rows: &Rows,
    types: &Types,
    at: usize,
) -> Result<Option<Flaw>, NoMemory>
    ensures exact { IfOk result (λ flaw. flaw ≡ spec.cycle_flaw rows.now types.now.cycle at) }
{
    if !is_at(types.cycle(), at) {
        return Ok(None);
    }
    Ok(Some(Flaw::Cycle(text_at(alloc, rows, at)?)))
}

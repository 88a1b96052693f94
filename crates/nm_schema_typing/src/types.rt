//! The types of all rows.

ghost use Rattle.std.specs.Prelude.{◌≡◌, ℕ, Some, None, IfOk, IfSome, IfNone, MatchOption, slice_index_or};
ghost use Rattle.nm_schema_typing.specs.Along.{meaning_of};
ghost use Rattle.nm_schema_typing.specs.Cycle.{IsTypeCycle, HaveNoCycle};

use crate::edges::type_graph;
use crate::meaning::{Meaning, meaning_at};
use nm_base::NoMemory;
use nm_graph::{Visitor, order, values};
use nm_schema_statements::Rows;
use std::alloc::Global;
use std::marker::Model;

// Gives each row its meaning, from that of the row that it leads to.
#[derive(Drop)]
struct Typing<'a> {
    rows: &'a Rows,
}

impl Visitor for Typing<'_> {
    ghost use Rattle.nm_schema_typing.specs.Meaning.{meaning_step};

    type Value = Meaning;

    ghost step = { λ typing. meaning_step typing.rows.now };

    fn visit(
        &self,
        alloc: Global,
        node: usize,
        values: &[Option<Meaning>],
        successors: &[usize],
    ) -> Result<Option<Meaning>, NoMemory> {
        match successors {
            [] => meaning_at(alloc, self.rows, node, &None),
            [first, ..] => meaning_at(alloc, self.rows, node, &values[*first]),
        }
    }
}

/// The meanings of rows, and the first row that leads to itself.
#[derive(Drop)]
pub struct Types {
    meanings: Vec<Option<Meaning>>,
    cycle: Option<usize>,
}

impl Model for Types {
    ghost use Rattle.nm_schema_typing.specs.Cycle.{Typings};

    ghost Value = { Typings };

    ghost view = { λ t. record { meanings = t.meanings.items; cycle = t.cycle } };
}

impl Types {
    /// The meaning of a row: of a `type` statement, and of a typedef, leaf or leaf-list by the `type` statement in it.
    ///
    /// None for other rows, and where a type has no meaning: a restriction is refused, something is lacking, or the
    /// type that it names has none.
    pub fn meaning(&self, at: usize) -> Option<&Meaning>
        ensures exact { MatchOption result (slice_index_or self.now.meanings at None ≡ None)
            (λ meaning. slice_index_or self.now.meanings at None ≡ Some meaning.now) }
    {
        if at >= self.meanings.len() {
            return None;
        }
        self.meanings[at].as_ref()
    }

    /// The first row whose type leads to itself.
    pub fn cycle(&self) -> Option<usize>
        ensures exact { result ≡ self.now.cycle }
    {
        self.cycle
    }
}

/// The types of rows. The typedef that each `type` statement names is given by its row, one place for each row.
pub fn types_of(alloc: Global, rows: &Rows, typedefs: &[Option<usize>]) -> Result<Types, NoMemory>
    ensures meanings { IfOk result (λ types. (i : ℕ) → slice_index_or types.meanings i None ≡ meaning_of rows.now typedefs.now i) }
    ensures cycle { IfOk result (λ types. IfSome types.cycle (IsTypeCycle rows.now typedefs.now)) }
    ensures acyclic { IfOk result (λ types. IfNone types.cycle (HaveNoCycle rows.now typedefs.now)) }
{
    let graph = type_graph(alloc, rows, typedefs)?;
    let ordered = order(alloc, &graph)?;
    let meanings = values(alloc, &Typing { rows }, &graph, &ordered.nodes)?;
    Ok(Types {
        meanings,
        cycle: ordered.cycle,
    })
}

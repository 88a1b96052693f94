//! The keys that rows are found by.

ghost use Rattle.std.specs.Prelude.{◌≡◌, MatchOption, IfSome, IfNone, None, Some};
ghost use Rattle.nm_schema_statements.specs.Word as word_spec;
ghost use Rattle.nm_schema_names.specs.Named as spec;

use nm_schema_statements::Row;

/// What a name is looked for in.
#[derive(Clone, Copy)]
pub enum Reach {
    /// Directly in a statement, or outermost.
    Statement,
    /// Anywhere in a module.
    Module,
}

/// What a row is found by.
#[derive(PartialEq, Eq, PartialOrd, Ord, Drop)]
pub struct Key<'a> {
    /// The row of the statement, or the number of the module.
    pub space: Option<usize>,
    /// The number of the word.
    pub number: u8,
    /// The argument.
    pub name: &'a str,
}

fn space_of(reach: Reach, row: &Row) -> Option<usize>
    ensures { result ≡ spec.space_of reach row.now }
{
    match reach {
        Reach::Statement => row.parent,
        Reach::Module => Some(row.module),
    }
}

/// The key of a row that has an argument.
pub fn key_of<'a>(reach: Reach, row: &'a Row) -> Option<Key<'a>>
    ensures none { IfNone result (row.now.argument ≡ None) }
    ensures some { IfSome result (λ key. (key.space ≡ spec.space_of reach row.now)
        × (key.number ≡ word_spec.word_number row.now.word) × (row.now.argument ≡ Some key.name.now)) }
{
    match &row.argument {
        None => None,
        Some(argument) => Some(Key {
            space: space_of(reach, row),
            number: row.word.number(),
            name: argument.as_str(),
        }),
    }
}

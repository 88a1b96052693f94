//! The members of a statement by name, and which of them are kept.

ghost use Rattle.std.specs.Prelude.{◌≡◌, [], IfOk, length, unwrap_or};
ghost use Rattle.nm_schema_keys.specs.Found as spec;
ghost use Rattle.nm_schema_keys.specs.Kept.{members_at};

use crate::found::Found;
use crate::members::Members;
use nm_base::NoMemory;
use nm_schema_names::RowNames;
use nm_schema_uses::Shape;
use std::alloc::Global;
use std::marker::Model;

/// The members of a statement by name, and those that are neither state themselves nor in a choice that is. They are seen as the
/// rows of the modules and both lists.
#[derive(Drop)]
pub(crate) struct Seen<'n, 'a> {
    all: Members<'n, 'a>,
    kept: Members<'n, 'a>,
}

impl<'n, 'a> Model for Seen<'n, 'a> {
    ghost use Rattle.std.specs.Prelude.{◌≡◌};
    ghost use Rattle.nm_schema_keys.specs.Membership.{Sight, sight};

    ghost Value = { Sight };

    ghost view = { λ s. sight s.all.rows s.all.nodes s.kept.nodes };

    ghost invariant = { λ s. s.kept.rows ≡ s.all.rows };
}

// Where two names lead, if to one row.
fn agreed(one: Found, other: Found) -> Found
    ensures { result ≡ spec.agreed one other }
{
    match one {
        Found::Row(at) => match other {
            Found::Row(kept) => {
                if at == kept {
                    return Found::Row(at);
                }
                Found::Missing
            }
            Found::Missing => Found::Missing,
            Found::Unknown => Found::Unknown,
        },
        Found::Missing => Found::Missing,
        Found::Unknown => Found::Unknown,
    }
}

impl<'n, 'a> Seen<'n, 'a> {
    /// The members of a row.
    #[tactic(auto, unfolding(crate::specs::Kept::members_at))]
    pub fn new(
        alloc: Global,
        names: &'n RowNames<'a>,
        shape: &Shape<'_>,
        at: usize,
    ) -> Result<Seen<'n, 'a>, NoMemory>
        requires { names.now ≡ shape.now.rows }
        ensures { IfOk result (λ seen. seen ≡ members_at shape.now.rows shape.now.groupings at) }
    {
        let all = Members::new(alloc, names, shape, at)?;
        let kept = Members::kept(alloc, names, shape, at)?;
        Ok(Seen { all, kept })
    }

    /// How many members there are. Where they aren't known, none.
    pub fn len(&self) -> usize
        ensures { result ≡ length (unwrap_or self.now.nodes []) }
    {
        self.all.len()
    }

    /// The first member that has a name, if it is kept where state is lost.
    pub fn named(&self, loses: bool, name: &'a str) -> Found
        ensures { result ≡ spec.seen_among self.now.rows loses self.now.nodes self.now.kept name.now }
    {
        let found = self.all.named(name);
        if !loses {
            return found;
        }
        agreed(found, self.kept.named(name))
    }
}

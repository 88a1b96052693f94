//! Edits of candidate and its validation (RFC 6241 sections 7.2 and 8.6).

ghost use Rattle.std.specs.Prelude.{◌≡◌, IfOk, true, None};
ghost use Rattle.std.specs.List.{All};
ghost use Rattle.nm_device.specs.Device.{path_of};

use crate::device::{Device, refuse};
use nm_base::{EditNo, Label, NoMemory, SessionId, Tag};
use nm_proto::{ApplyFault, CheckFault, Content, DefaultOperation, Marks, Reply, Store, Tables};

// Edits of candidate and its validation.
impl<C: Content> Device<C> {
    ghost use Rattle.nm_stores.specs.Stores.{candidate_of};
    ghost use Rattle.nm_device.specs.Device.{Does, IsSound};
    ghost use Rattle.nm_device.specs.Table.{edit_by, edit_gives, is_error, validated};

    // Edits candidate.
    pub(crate) fn edit(
        &mut self,
        content: &C,
        tables: &Tables<C>,
        session: SessionId,
        number: EditNo,
        default_operation: DefaultOperation,
        marks: Option<Marks>,
    ) -> Result<Reply, NoMemory>
        requires sound { IsSound (C.meaning content.now) self.old }
        requires edits_belong { All (C.meaning content.now).edit_belongs tables.now.edits }
        ensures stepped { Does result self.old self.new (edit_by (C.meaning content.now) tables.now self.old session number.0 default_operation marks) }
        ensures clock { self.new.clock ≡ self.old.clock }
        ensures error_changes_nothing { IfOk result (λ reply. is_error reply ≡ true → self.new ≡ self.old) }
    {
        if self.is_held_by_other(Store::Candidate, session) {
            return Ok(refuse(Tag::InUse));
        }
        match tables.edit(number) {
            Some(edit) => self.apply(content, edit, default_operation, marks),
            None => Ok(refuse(Tag::OperationFailed)),
        }
    }

    fn apply(
        &mut self,
        content: &C,
        edit: &C::Edit,
        default_operation: DefaultOperation,
        marks: Option<Marks>,
    ) -> Result<Reply, NoMemory>
        requires sound { IsSound (C.meaning content.now) self.old }
        requires edit_belongs { (C.meaning content.now).edit_belongs edit.now }
        ensures stepped { Does result self.old self.new
            (edit_gives self.old ((C.meaning content.now).edited (candidate_of self.old.stores) edit.now default_operation marks)) }
        ensures clock { self.new.clock ≡ self.old.clock }
        ensures error_changes_nothing { IfOk result (λ reply. is_error reply ≡ true → self.new ≡ self.old) }
    {
        match self.stores.edit(content, edit, default_operation, marks) {
            Ok(()) => Ok(Reply::Done),
            Err(ApplyFault::Refused { tag, path }) => Ok(refuse_at(tag, path)),
            Err(ApplyFault::NoMemory) => Err(NoMemory),
        }
    }

    // Checks candidate.
    pub(crate) fn validate(&mut self, content: &C) -> Result<Reply, NoMemory>
        requires sound { IsSound (C.meaning content.now) self.old }
        ensures stepped { Does result self.old self.new (validated self.old ((C.meaning content.now).violation (candidate_of self.old.stores))) }
        ensures unchanged { self.new ≡ self.old }
    {
        match content.check(self.stores.candidate()) {
            Ok(()) => Ok(Reply::Done),
            Err(CheckFault::Violation { tag, path }) => Ok(refuse_at(tag, path)),
            Err(CheckFault::NoMemory) => Err(NoMemory),
        }
    }
}

// A refusal of the content, at a path.
pub(crate) fn refuse_at(tag: Tag, path: Label) -> Reply
    ensures { result ≡ Reply.Error tag None (path_of tag path) }
{
    Reply::Error {
        tag,
        session: None,
        path: path_of(tag, path),
    }
}

// The path of a refusal: none goes with resource-denied.
fn path_of(tag: Tag, path: Label) -> Option<Label>
    ensures { result ≡ path_of tag path }
{
    match tag {
        Tag::ResourceDenied => None,
        _ => Some(path),
    }
}

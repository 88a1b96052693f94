//! The judge by access rules.

ghost use Rattle.std.specs.Prelude.{◌≡◌, ◌-◌, IfOk, option_copied, option_map, slice_get};
ghost use Rattle.nm_device.specs.Table.{is_opening};
ghost use Rattle.nm_path.specs.Written.{path_text};
ghost use Rattle.nm_world.specs.World.{core_of};
ghost use Rattle.nm_access_judge.specs.Judging as spec;

use crate::operation::operation_of;
use nm_access::{Access, Judgement};
use nm_base::{DeviceNo, EditNo, Label, NoMemory};
use nm_content::YangContent;
use nm_edit::EditFault;
use nm_overlay::Overlay;
use nm_path::write_path;
use nm_permitted::{Denial, Judge};
use nm_proto::{DefaultOperation, Event, Request, Tables};
use nm_schema_tree::Schema;
use nm_touched::touched_rows;
use nm_types::Path;
use nm_world::World;
use std::alloc::Global;
use std::marker::Model;

/// What judges events by access rules, where there are any; without rules it permits everything.
#[derive(Drop)]
pub struct AccessJudge {
    alloc: Global,
    access: Option<Access>,
}

impl Model for AccessJudge {
    ghost use Rattle.std.specs.Prelude.{Option};
    ghost use Rattle.nm_access.specs.declared.rule.AccessRules.{AccessRules};

    ghost Value = { Option AccessRules };

    ghost view = { λ judge. judge.access };
}

impl AccessJudge {
    /// The judge by these rules, if there are any. It takes no memory.
    pub fn new(alloc: Global, access: Option<Access>) -> AccessJudge
        ensures { result ≡ access }
    {
        AccessJudge { alloc, access }
    }
}

// Rules, and where what they tell is made.
#[derive(Drop)]
struct Rules<'a> {
    alloc: Global,
    access: &'a Access,
}

impl<'a> Model for Rules<'a> {
    ghost use Rattle.nm_access.specs.declared.rule.AccessRules.{AccessRules};

    ghost Value = { AccessRules };

    ghost view = { λ rules. rules.access.now };
}

impl<'a> Rules<'a> {
    // What is decided of an edit of candidate, by the rows that it touches there. One that would be refused is permitted, so that its
    // device says why.
    fn judge_edit(
        &self,
        content: &YangContent,
        tables: &Tables<YangContent>,
        user: &Label,
        candidate: &Overlay,
        edit: EditNo,
        default_operation: DefaultOperation,
    ) -> Result<Judgement, NoMemory>
        ensures { IfOk result (λ judgement. judgement
            ≡ spec.edit_judged self.now content.now user.now candidate.now.rows default_operation (slice_get tables.now.edits edit.0)) }
    {
        let Some(edit) = tables.edit(edit) else {
            return Ok(Judgement::Permit);
        };
        match touched_rows(
            self.alloc,
            content.schema(),
            candidate,
            edit,
            default_operation,
        ) {
            Ok(touched) => self.access.judge_rows(user, touched.as_slice()),
            Err(EditFault::Refused { .. }) => Ok(Judgement::Permit),
            Err(EditFault::NoMemory) => Err(NoMemory),
        }
    }

    // What is decided of the rows that a request would change.
    fn judge_changes(
        &self,
        content: &YangContent,
        tables: &Tables<YangContent>,
        user: &Label,
        candidate: &Overlay,
        request: &Request,
    ) -> Result<Judgement, NoMemory>
        ensures { IfOk result (λ judgement. judgement ≡ spec.changes_judged self.now content.now tables.now user.now candidate.now.rows request.now) }
    {
        match request {
            Request::Edit {
                edit,
                default_operation,
                ..
            } => self.judge_edit(content, tables, user, candidate, *edit, *default_operation),
            _ => Ok(Judgement::Permit),
        }
    }

    // What is decided of a request: the operation first, and then the rows that it would change. One for a session isn't judged.
    fn judge_request(
        &self,
        content: &YangContent,
        tables: &Tables<YangContent>,
        user: &Label,
        candidate: &Overlay,
        request: &Request,
    ) -> Result<Judgement, NoMemory>
        ensures { IfOk result (λ judgement. judgement ≡ spec.request_judged self.now content.now tables.now user.now candidate.now.rows request.now) }
    {
        if is_opening(request) {
            return Ok(Judgement::Permit);
        }
        match self.access.judge_operation(user, operation_of(request))? {
            Judgement::Permit => self.judge_changes(content, tables, user, candidate, request),
            Judgement::Deny { by, path } => Ok(Judgement::Deny { by, path }),
        }
    }

    // What is decided of an operator's request of a device, where it has a session there.
    fn judge_asked(
        &self,
        world: &World<YangContent>,
        operator: u32,
        device: DeviceNo,
        request: &Request,
    ) -> Result<Judgement, NoMemory>
        ensures { IfOk result (λ judgement. judgement
            ≡ spec.asked_judged self.now world.now.content world.now.setting (core_of world.now.state) operator device request.now) }
    {
        let Some(_session) = world.operator_session(operator, device) else {
            return Ok(Judgement::Permit);
        };
        let Some(user) = user_of(world.users(), operator) else {
            return Ok(Judgement::Permit);
        };
        let Some(recorded) = world.devices().get(usize::from(device.get()) - 1) else {
            return Ok(Judgement::Permit);
        };
        self.judge_request(
            world.content(),
            world.tables(),
            user,
            recorded.device().candidate(),
            request,
        )
    }
}

impl<'a> Rules<'a> {
    // Why an event is denied, if it is.
    fn denial(&self, world: &World<YangContent>, event: &Event) -> Result<Option<Denial>, NoMemory>
        ensures { IfOk result (λ denial. denial ≡ spec.event_denied self.now world.now.content world.now.setting (core_of world.now.state) event.now) }
    {
        match event {
            Event::Foreign {
                operator,
                device,
                request,
            } => {
                let judgement = self.judge_asked(world, *operator, *device, request)?;
                denial_of(self.alloc, world.content().schema(), judgement)
            }
            _ => Ok(None),
        }
    }
}

// Whether a request is one for a session.
fn is_opening(request: &Request) -> bool
    ensures { result ≡ is_opening request.now }
{
    matches!(request, Request::OpenSession { .. })
}

// The user of an operator, by its number from 1.
fn user_of(users: &[Label], operator: u32) -> Option<&Label>
    ensures { option_copied result ≡ spec.user_at users.now operator }
{
    if operator == 0 {
        return None;
    }
    users.get(operator as usize - 1)
}

// A judgement as a denial, where it is one. The path of a row is told as text.
fn denial_of(
    alloc: Global,
    schema: &Schema,
    judgement: Judgement,
) -> Result<Option<Denial>, NoMemory>
    ensures { IfOk result (λ denial. denial ≡ spec.denial_of schema.now judgement) }
{
    match judgement {
        Judgement::Permit => Ok(None),
        Judgement::Deny { by, path } => {
            let path = text_of(alloc, schema, &path)?;
            Ok(Some(Denial { by, path }))
        }
    }
}

// The text of a path, where there is one.
fn text_of(alloc: Global, schema: &Schema, path: &Option<Path>) -> Result<Option<Label>, NoMemory>
    ensures { IfOk result (λ text. text ≡ option_map (path_text schema.now) path.now) }
{
    match path {
        None => Ok(None),
        Some(path) => Ok(Some(write_path(alloc, schema, path)?)),
    }
}

impl Judge<YangContent> for AccessJudge {
    ghost judges = { spec.denied_by };

    fn judge(&self, world: &World<YangContent>, event: &Event) -> Result<Option<Denial>, NoMemory> {
        let Some(access) = &self.access else {
            return Ok(None);
        };
        let rules = Rules {
            alloc: self.alloc,
            access,
        };
        rules.denial(world, event)
    }
}

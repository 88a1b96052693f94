//! Requests: one method for each line of the table, and a reader that picks one by the request's word.

ghost use Rattle.std.specs.Prelude.{◌≡◌};
ghost use Rattle.serde_json.specs.View.{view};
ghost use Rattle.nm_proto.specs.Message.{word_text};
ghost use Rattle.nm_scenario_form.specs.Reading.{Gives};
ghost use Rattle.nm_scenario_form.specs.Words.{is_word};
ghost use Rattle.nm_scenario_form.specs.Form.{◌▹◌, arguments, done, knows, not_built, or_else as or_else_form};
ghost use Rattle.nm_scenario_form.specs.Read.{read};
ghost use Rattle.nm_scenario_events.specs.Arguments.{mark, short, store};
ghost use Rattle.nm_scenario_events.specs.Requests.{any_text, asked_edit, asked_edit_parts, cancel_form, cancel_parts, commit_form, commit_parts, plain_cancel, plain_commit, request_form, seconds, selection, token};
ghost use Rattle.nm_scenario_events.specs.declared.event.ReadRequest.TheVariants.{Open, Known, WithSelect};
ghost use Rattle.nm_proto.specs.declared.message.Request.TheVariants as request;
ghost use Rattle.nm_proto.specs.declared.message.RequestWord.TheVariants as word;

use crate::arguments::{AnyChange, Operation, Short, StoreName};
use crate::event::ReadRequest;
use crate::limits::{SELECT_LIMIT, TOKEN_LIMIT};
use nm_base::Label;
use nm_proto::{DefaultOperation, Listed, Request, RequestWord};
use nm_scenario_form::lists::is_word;
use nm_scenario_form::places::KnownNames;
use nm_scenario_form::{
    ItemReader, ReadError, Reader, Switch, Text, argument, no_other_names, no_word, optional,
    or_else, read_list, read_object, required, takes,
};
use serde_json::Value;
use std::alloc::Global;

// Whether a request begins with this word.
fn asks(whole: &Value, word: RequestWord) -> bool
    ensures { result ≡ is_word (view whole.now) (word_text word) }
{
    is_word(whole, word.text())
}

// A session of the operator's user.
fn open<E>(alloc: Global, whole: &Value) -> Result<ReadRequest<E>, ReadError>
    ensures { Gives result (read (arguments 1 done Open) (view whole.now)) }
{
    takes(alloc, whole, 1, 1)?;
    Ok(ReadRequest::Open)
}

// A request that is its word alone.
fn alone<E>(alloc: Global, whole: &Value, request: Request) -> Result<ReadRequest<E>, ReadError>
    ensures { Gives result (read (arguments 1 done (Known request)) (view whole.now)) }
{
    takes(alloc, whole, 1, 1)?;
    Ok(ReadRequest::Known(request))
}

fn lock<E>(alloc: Global, whole: &Value) -> Result<ReadRequest<E>, ReadError>
    ensures { Gives result (read (arguments 1 (store ▹ done) (λ store. Known (request.Lock store))) (view whole.now)) }
{
    takes(alloc, whole, 2, 2)?;
    let store = argument(alloc, whole, 1, &StoreName)?;
    Ok(ReadRequest::Known(Request::Lock { store }))
}

fn unlock<E>(alloc: Global, whole: &Value) -> Result<ReadRequest<E>, ReadError>
    ensures { Gives result (read (arguments 1 (store ▹ done) (λ store. Known (request.Unlock store))) (view whole.now)) }
{
    takes(alloc, whole, 2, 2)?;
    let store = argument(alloc, whole, 1, &StoreName)?;
    Ok(ReadRequest::Known(Request::Unlock { store }))
}

fn has_mark<E>(alloc: Global, whole: &Value) -> Result<ReadRequest<E>, ReadError>
    ensures { Gives result (read (arguments 1 (mark ▹ done) (λ change. Known (request.HasMark change))) (view whole.now)) }
{
    takes(alloc, whole, 2, 2)?;
    let change = argument(alloc, whole, 1, &AnyChange)?;
    Ok(ReadRequest::Known(Request::HasMark { change }))
}

#[derive(Drop)]
struct EditNames;

impl KnownNames for EditNames {
    ghost knows = { λ _. knows (asked_edit_parts {E = Unit {0}} not_built) };

    fn knows(&self, name: &str) -> bool {
        name == "default" || name == "edit"
    }
}

// The argument of the request `edit`.
#[derive(Drop)]
struct AskedEdit<'a, R> {
    edits: &'a R,
}

impl<'a, R: Reader> Reader for AskedEdit<'a, R> {
    type Out = ReadRequest<R::Out>;

    ghost form = { λ r. asked_edit (R.form r.edits.now) };

    fn read(&self, alloc: Global, part: &Value) -> Result<ReadRequest<R::Out>, ReadError> {
        let merge = DefaultOperation::Merge;
        read_object(alloc, part)?;
        let default_operation = optional(alloc, part, "default", merge, &Operation)?;
        let edit = required(alloc, part, "edit", self.edits)?;
        no_other_names(alloc, part, &EditNames)?;
        Ok(ReadRequest::WithEdit {
            default_operation,
            edit,
        })
    }
}

// The texts of a selection.
#[derive(Drop)]
struct Texts;

impl ItemReader for Texts {
    type Out = Label;

    ghost form = { λ _ _ _. any_text };

    fn read(
        &self,
        alloc: Global,
        _whole: &Value,
        _place: usize,
        part: &Value,
    ) -> Result<Label, ReadError> {
        let any = Text {
            low: 0,
            high: usize::MAX,
        };
        any.read(alloc, part)
    }
}

// The nodes that a partial lock selects.
#[derive(Drop)]
struct Selection;

impl Reader for Selection {
    type Out = Listed<Label>;

    ghost form = { λ _. selection };

    #[tactic(auto, unfolding(crate::specs::Requests::selection))]
    fn read(&self, alloc: Global, part: &Value) -> Result<Listed<Label>, ReadError> {
        read_list(alloc, part, 0, SELECT_LIMIT, &Texts)
    }
}

// A token of a pending commit.
#[derive(Drop)]
struct Token;

impl Reader for Token {
    type Out = Option<Label>;

    ghost form = { λ _. token };

    fn read(&self, alloc: Global, part: &Value) -> Result<Option<Label>, ReadError> {
        let token = Text {
            low: 1,
            high: TOKEN_LIMIT,
        };
        Ok(Some(token.read(alloc, part)?))
    }
}

// A time to wait.
#[derive(Drop)]
struct Seconds;

impl Reader for Seconds {
    type Out = Option<u32>;

    ghost form = { λ _. seconds };

    fn read(&self, alloc: Global, part: &Value) -> Result<Option<u32>, ReadError> {
        Ok(Some(Short.read(alloc, part)?))
    }
}

#[derive(Drop)]
struct CommitNames;

impl KnownNames for CommitNames {
    ghost knows = { λ _. knows commit_parts };

    fn knows(&self, name: &str) -> bool {
        name == "confirmed" || name == "timeout" || name == "persist" || name == "persist-id"
    }
}

// The argument of a commit.
#[derive(Drop)]
struct AskedCommit;

impl Reader for AskedCommit {
    type Out = Request;

    ghost form = { λ _. commit_form };

    fn read(&self, alloc: Global, part: &Value) -> Result<Request, ReadError> {
        read_object(alloc, part)?;
        let confirmed = optional(alloc, part, "confirmed", false, &Switch)?;
        let timeout = optional(alloc, part, "timeout", None, &Seconds)?;
        let persist = optional(alloc, part, "persist", None, &Token)?;
        let persist_id = optional(alloc, part, "persist-id", None, &Token)?;
        no_other_names(alloc, part, &CommitNames)?;
        Ok(Request::Commit {
            confirmed,
            timeout,
            persist,
            persist_id,
        })
    }
}

// A commit that isn't confirmed.
fn plain_commit() -> Request
    ensures { result ≡ plain_commit }
{
    Request::Commit {
        confirmed: false,
        timeout: None,
        persist: None,
        persist_id: None,
    }
}

fn commit<E>(alloc: Global, whole: &Value) -> Result<ReadRequest<E>, ReadError>
    ensures { Gives result (read (arguments 1 (or_else_form plain_commit commit_form done) Known) (view whole.now)) }
{
    takes(alloc, whole, 1, 2)?;
    let request = or_else(alloc, whole, 1, plain_commit(), &AskedCommit)?;
    Ok(ReadRequest::Known(request))
}

#[derive(Drop)]
struct CancelNames;

impl KnownNames for CancelNames {
    ghost knows = { λ _. knows cancel_parts };

    fn knows(&self, name: &str) -> bool {
        name == "persist-id"
    }
}

// The argument of a cancel.
#[derive(Drop)]
struct AskedCancel;

impl Reader for AskedCancel {
    type Out = Request;

    ghost form = { λ _. cancel_form };

    fn read(&self, alloc: Global, part: &Value) -> Result<Request, ReadError> {
        read_object(alloc, part)?;
        let persist_id = optional(alloc, part, "persist-id", None, &Token)?;
        no_other_names(alloc, part, &CancelNames)?;
        Ok(Request::CancelCommit { persist_id })
    }
}

// A cancel that names no token.
fn plain_cancel() -> Request
    ensures { result ≡ plain_cancel }
{
    Request::CancelCommit { persist_id: None }
}

fn cancel<E>(alloc: Global, whole: &Value) -> Result<ReadRequest<E>, ReadError>
    ensures { Gives result (read (arguments 1 (or_else_form plain_cancel cancel_form done) Known) (view whole.now)) }
{
    takes(alloc, whole, 1, 2)?;
    let request = or_else(alloc, whole, 1, plain_cancel(), &AskedCancel)?;
    Ok(ReadRequest::Known(request))
}

fn partial_lock<E>(alloc: Global, whole: &Value) -> Result<ReadRequest<E>, ReadError>
    ensures { Gives result (read (arguments 1 (selection ▹ done) WithSelect) (view whole.now)) }
{
    takes(alloc, whole, 2, 2)?;
    let texts = argument(alloc, whole, 1, &Selection)?;
    Ok(ReadRequest::WithSelect { texts })
}

fn partial_unlock<E>(alloc: Global, whole: &Value) -> Result<ReadRequest<E>, ReadError>
    ensures { Gives result (read (arguments 1 (short ▹ done) (λ id. Known (request.PartialUnlock id))) (view whole.now)) }
{
    takes(alloc, whole, 2, 2)?;
    let id = argument(alloc, whole, 1, &Short)?;
    Ok(ReadRequest::Known(Request::PartialUnlock { id }))
}

fn kill<E>(alloc: Global, whole: &Value) -> Result<ReadRequest<E>, ReadError>
    ensures { Gives result (read (arguments 1 (short ▹ done) (λ session. Known (request.Kill session))) (view whole.now)) }
{
    takes(alloc, whole, 2, 2)?;
    let session = argument(alloc, whole, 1, &Short)?;
    Ok(ReadRequest::Known(Request::Kill { session }))
}

/// What an operator asks.
#[derive(Drop)]
pub struct Requests<'a, R> {
    pub edits: &'a R,
}

impl<'a, R: Reader> Requests<'a, R> {
    fn edit(&self, alloc: Global, whole: &Value) -> Result<ReadRequest<R::Out>, ReadError>
        ensures { Gives result (read (arguments 1 (asked_edit (R.form self.now.edits.now) ▹ done) (λ request. request)) (view whole.now)) }
    {
        takes(alloc, whole, 2, 2)?;
        argument(alloc, whole, 1, &AskedEdit { edits: self.edits })
    }
}

impl<'a, R: Reader> Reader for Requests<'a, R> {
    type Out = ReadRequest<R::Out>;

    ghost form = { λ r. request_form (R.form r.edits.now) };

    #[tactic(auto, unfolding(crate::specs::Requests::request_form))]
    fn read(&self, alloc: Global, part: &Value) -> Result<ReadRequest<R::Out>, ReadError> {
        if asks(part, RequestWord::Open) {
            return open(alloc, part);
        }
        if asks(part, RequestWord::Lock) {
            return lock(alloc, part);
        }
        if asks(part, RequestWord::Unlock) {
            return unlock(alloc, part);
        }
        if asks(part, RequestWord::PartialLock) {
            return partial_lock(alloc, part);
        }
        if asks(part, RequestWord::PartialUnlock) {
            return partial_unlock(alloc, part);
        }
        if asks(part, RequestWord::Edit) {
            return self.edit(alloc, part);
        }
        if asks(part, RequestWord::Validate) {
            return alone(alloc, part, Request::Validate);
        }
        if asks(part, RequestWord::Commit) {
            return commit(alloc, part);
        }
        if asks(part, RequestWord::CancelCommit) {
            return cancel(alloc, part);
        }
        if asks(part, RequestWord::Discard) {
            return alone(alloc, part, Request::Discard);
        }
        if asks(part, RequestWord::HasMark) {
            return has_mark(alloc, part);
        }
        if asks(part, RequestWord::GetConfig) {
            return alone(alloc, part, Request::GetConfig);
        }
        if asks(part, RequestWord::Kill) {
            return kill(alloc, part);
        }
        if asks(part, RequestWord::CloseSession) {
            return alone(alloc, part, Request::CloseSession);
        }
        no_word(alloc, part)
    }
}

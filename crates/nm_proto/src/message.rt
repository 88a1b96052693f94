//! What is asked of devices and what they answer.

ghost use Rattle.std.specs.Prelude.{◌≡◌, ◌↔◌, IsTrue, IfOk, IsOk, None, false};

use nm_base::{ChangeMask, ChangeNo, EditNo, Label, NoMemory, SelectNo, SessionId, Tag};

/// A datastore of a device (RFC 8342 section 5).
#[derive(Clone, Copy, PartialEq, Eq)]
pub enum Store {
    Running,
    Candidate,
}

impl Store {
    /// Whether the two are one datastore.
    pub fn same(self, other: Store) -> bool
        ensures { IsTrue result ↔ (self ≡ other) }
    {
        self == other
    }
}

/// The default operation of an edit (RFC 6241 section 7.2).
#[derive(Clone, Copy, PartialEq, Eq)]
pub enum DefaultOperation {
    Merge,
    Replace,
    /// The operation `none` of RFC 6241: what the edit names must exist, and stays.
    Nothing,
}

impl DefaultOperation {
    /// Whether the two are one operation.
    pub fn same(self, other: DefaultOperation) -> bool
        ensures { IsTrue result ↔ (self ≡ other) }
    {
        self == other
    }
}

/// What an edit does to a row of running, as access rules judge it (RFC 8341 section 3.2.2).
#[derive(Clone, Copy, PartialEq, Eq)]
pub enum RowAccess {
    /// The row comes.
    Create,
    /// The row gets another value.
    Update,
    /// The row goes.
    Delete,
}

impl RowAccess {
    /// Whether the two are one access.
    pub fn same(self, other: RowAccess) -> bool
        ensures { IsTrue result ↔ (self ≡ other) }
    {
        self == other
    }
}

/// What an edit does to the marks of change sets in a configuration.
#[derive(Clone, Copy, PartialEq, Eq)]
pub struct Marks {
    /// The change set whose mark comes, last of all.
    pub add: ChangeNo,
    /// The change sets whose marks go.
    pub remove: ChangeMask,
}

impl Marks {
    /// Whether the two are equal.
    pub fn same(self, other: Marks) -> bool
        ensures { IsTrue result ↔ (self ≡ other) }
    {
        self == other
    }
}

/// What is asked of a device (RFC 6241 sections 7 and 8, RFC 5717).
#[derive(PartialEq, Drop)]
pub enum Request {
    OpenSession {
        user: Label,
    },
    Lock {
        store: Store,
    },
    Unlock {
        store: Store,
    },
    PartialLock {
        select: SelectNo,
    },
    PartialUnlock {
        id: u32,
    },
    Edit {
        edit: EditNo,
        default_operation: DefaultOperation,
        marks: Option<Marks>,
    },
    Validate,
    /// `timeout` is in seconds.
    Commit {
        confirmed: bool,
        timeout: Option<u32>,
        persist: Option<Label>,
        persist_id: Option<Label>,
    },
    CancelCommit {
        persist_id: Option<Label>,
    },
    Discard,
    HasMark {
        change: ChangeNo,
    },
    GetConfig,
    Kill {
        session: u32,
    },
    CloseSession,
}

/// The word of a request, as it stands in a scenario and in a trace (this project's own). Here alone it is written.
#[derive(Clone, Copy)]
pub enum RequestWord {
    Open,
    Lock,
    Unlock,
    PartialLock,
    PartialUnlock,
    Edit,
    Validate,
    Commit,
    CancelCommit,
    Discard,
    HasMark,
    GetConfig,
    Kill,
    CloseSession,
}

impl RequestWord {
    ghost use Rattle.nm_proto.specs.Message.{word_text};

    /// The word as text.
    pub fn text(self) -> &'static str
        ensures { result.now ≡ word_text self }
    {
        match self {
            RequestWord::Open => "open",
            RequestWord::Lock => "lock",
            RequestWord::Unlock => "unlock",
            RequestWord::PartialLock => "partial-lock",
            RequestWord::PartialUnlock => "partial-unlock",
            RequestWord::Edit => "edit",
            RequestWord::Validate => "validate",
            RequestWord::Commit => "commit",
            RequestWord::CancelCommit => "cancel-commit",
            RequestWord::Discard => "discard",
            RequestWord::HasMark => "has-mark",
            RequestWord::GetConfig => "get-config",
            RequestWord::Kill => "kill",
            RequestWord::CloseSession => "close-session",
        }
    }
}

impl Request {
    ghost use Rattle.nm_proto.specs.Message.{asks_with_text, word_of};

    /// The word of the request.
    pub fn word(&self) -> RequestWord
        ensures { result ≡ word_of self.now }
    {
        match self {
            Request::OpenSession { .. } => RequestWord::Open,
            Request::Lock { .. } => RequestWord::Lock,
            Request::Unlock { .. } => RequestWord::Unlock,
            Request::PartialLock { .. } => RequestWord::PartialLock,
            Request::PartialUnlock { .. } => RequestWord::PartialUnlock,
            Request::Edit { .. } => RequestWord::Edit,
            Request::Validate => RequestWord::Validate,
            Request::Commit { .. } => RequestWord::Commit,
            Request::CancelCommit { .. } => RequestWord::CancelCommit,
            Request::Discard => RequestWord::Discard,
            Request::HasMark { .. } => RequestWord::HasMark,
            Request::GetConfig => RequestWord::GetConfig,
            Request::Kill { .. } => RequestWord::Kill,
            Request::CloseSession => RequestWord::CloseSession,
        }
    }

    /// An equal request. It copies no bytes of a text, and only one that holds a text may find no memory.
    pub fn copy(&self) -> Result<Request, NoMemory>
        ensures value { IfOk result (λ request. request ≡ self.now) }
        ensures without_text { asks_with_text self.now ≡ false → IsOk result }
    {
        let request = match self {
            Request::OpenSession { user } => Request::OpenSession { user: user.copy()? },
            Request::Lock { store } => Request::Lock { store: *store },
            Request::Unlock { store } => Request::Unlock { store: *store },
            Request::PartialLock { select } => Request::PartialLock { select: *select },
            Request::PartialUnlock { id } => Request::PartialUnlock { id: *id },
            Request::Edit {
                edit,
                default_operation,
                marks,
            } => Request::Edit {
                edit: *edit,
                default_operation: *default_operation,
                marks: *marks,
            },
            Request::Validate => Request::Validate,
            Request::Commit {
                confirmed,
                timeout,
                persist,
                persist_id,
            } => Request::Commit {
                confirmed: *confirmed,
                timeout: *timeout,
                persist: copy_of(persist)?,
                persist_id: copy_of(persist_id)?,
            },
            Request::CancelCommit { persist_id } => Request::CancelCommit {
                persist_id: copy_of(persist_id)?,
            },
            Request::Discard => Request::Discard,
            Request::HasMark { change } => Request::HasMark { change: *change },
            Request::GetConfig => Request::GetConfig,
            Request::Kill { session } => Request::Kill { session: *session },
            Request::CloseSession => Request::CloseSession,
        };
        Ok(request)
    }

    /// Whether the two are equal.
    pub fn same(&self, other: &Request) -> bool
        ensures { IsTrue result ↔ (self.now ≡ other.now) }
    {
        *self == *other
    }
}

// An equal text, where there is one.
fn copy_of(text: &Option<Label>) -> Result<Option<Label>, NoMemory>
    ensures value { IfOk result (λ copied. copied ≡ text.now) }
    ensures without_text { text.now ≡ None → IsOk result }
{
    match text {
        Some(text) => Ok(Some(text.copy()?)),
        None => Ok(None),
    }
}

/// What a device answers.
#[derive(PartialEq, Drop)]
pub enum Reply {
    Done,
    Opened(SessionId),
    /// The id of a partial lock (RFC 5717 section 2.4.1).
    LockId(u32),
    /// Whether the mark is there.
    Mark(bool),
    /// How many rows the configuration has.
    Rows(u32),
    /// `session` holds the lock that stands in the way, 0 where that is no session (RFC 6241 section 7.5).
    Error {
        tag: Tag,
        session: Option<u32>,
        path: Option<Label>,
    },
}

impl Reply {
    ghost use Rattle.nm_proto.specs.Message.{holds_text};

    /// An equal reply. Only one that holds a text may find no memory.
    pub fn copy(&self) -> Result<Reply, NoMemory>
        ensures value { IfOk result (λ reply. reply ≡ self.now) }
        ensures without_text { holds_text self.now ≡ false → IsOk result }
    {
        let reply = match self {
            Reply::Done => Reply::Done,
            Reply::Opened(session) => Reply::Opened(*session),
            Reply::LockId(id) => Reply::LockId(*id),
            Reply::Mark(there) => Reply::Mark(*there),
            Reply::Rows(count) => Reply::Rows(*count),
            Reply::Error { tag, session, path } => Reply::Error {
                tag: *tag,
                session: *session,
                path: copy_of(path)?,
            },
        };
        Ok(reply)
    }

    /// Whether the two are equal.
    pub fn same(&self, other: &Reply) -> bool
        ensures { IsTrue result ↔ (self.now ≡ other.now) }
    {
        *self == *other
    }
}

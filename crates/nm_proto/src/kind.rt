//! What can be wrong with a scenario.

ghost use Rattle.std.specs.Prelude.{◌≡◌};
ghost use Rattle.nm_proto.specs.Kind.{kind_word};

/// What is wrong with a scenario, by the words of its line (this project's own).
#[derive(Clone, Copy, PartialEq, Eq)]
pub enum ScenarioKind {
    /// More than 16,777,216 bytes.
    TooLong,
    /// The bytes are no JSON (RFC 8259).
    NotJson,
    /// A form that isn't built yet.
    NotBuilt,
    /// A member that is required isn't there.
    Missing,
    /// A member has another name.
    Unknown,
    /// A value of another form, or outside its range.
    BadValue,
    /// A list or a count is above its limit.
    TooMany,
    /// A module's text can't be read.
    Yang,
    /// The modules aren't modules of the subset.
    Schema,
    /// A configuration or an edit can't be read.
    Content,
    /// A running configuration isn't valid.
    Invalid,
}

impl ScenarioKind {
    /// The word that tells the kind.
    pub fn word(self) -> &'static str
        ensures { result.now ≡ kind_word self }
    {
        match self {
            ScenarioKind::TooLong => "too-long",
            ScenarioKind::NotJson => "not-json",
            ScenarioKind::NotBuilt => "not-built",
            ScenarioKind::Missing => "missing",
            ScenarioKind::Unknown => "unknown",
            ScenarioKind::BadValue => "bad-value",
            ScenarioKind::TooMany => "too-many",
            ScenarioKind::Yang => "yang",
            ScenarioKind::Schema => "schema",
            ScenarioKind::Content => "content",
            ScenarioKind::Invalid => "invalid",
        }
    }
}

//! The error tags, in one place with the names that replies and texts have for them.

ghost use Rattle.std.specs.Prelude.{◌≡◌, ◌↔◌, ℕ, IsTrue, IsNone, IfSome, IfNone, ◌≢◌, Some};

use std::fmt;

/// Why a request is refused: the error tags of RFC 6241 appendix A that this project uses.
#[derive(Clone, Copy, Debug, PartialEq, Eq)]
pub enum Tag {
    InUse,
    InvalidValue,
    LockDenied,
    AccessDenied,
    DataExists,
    DataMissing,
    OperationFailed,
    ResourceDenied,
    UnknownElement,
    BadAttribute,
    MissingElement,
}

impl Tag {
    ghost use Rattle.nm_base.specs.Tag.{tag_number, tag_of, tag_text};

    /// The number of the tag, from 1 in the order of the variants.
    pub fn number(self) -> u8
        ensures { result ≡ tag_number self }
    {
        match self {
            Tag::InUse => 1,
            Tag::InvalidValue => 2,
            Tag::LockDenied => 3,
            Tag::AccessDenied => 4,
            Tag::DataExists => 5,
            Tag::DataMissing => 6,
            Tag::OperationFailed => 7,
            Tag::ResourceDenied => 8,
            Tag::UnknownElement => 9,
            Tag::BadAttribute => 10,
            Tag::MissingElement => 11,
        }
    }

    /// The tag of a number, and None outside 1 to 11.
    pub fn from_number(number: u8) -> Option<Tag>
        ensures tag { result ≡ tag_of number }
        ensures value { IfSome result (λ tag. tag_number tag ≡ number) }
        ensures none { IfNone result ((tag : Tag) → tag_number tag ≢ number) }
    {
        match number {
            1 => Some(Tag::InUse),
            2 => Some(Tag::InvalidValue),
            3 => Some(Tag::LockDenied),
            4 => Some(Tag::AccessDenied),
            5 => Some(Tag::DataExists),
            6 => Some(Tag::DataMissing),
            7 => Some(Tag::OperationFailed),
            8 => Some(Tag::ResourceDenied),
            9 => Some(Tag::UnknownElement),
            10 => Some(Tag::BadAttribute),
            11 => Some(Tag::MissingElement),
            _ => None,
        }
    }

    /// The text of the tag, as in an `error-tag` element.
    pub fn text(self) -> &'static str
        ensures { result.now ≡ tag_text self }
    {
        match self {
            Tag::InUse => "in-use",
            Tag::InvalidValue => "invalid-value",
            Tag::LockDenied => "lock-denied",
            Tag::AccessDenied => "access-denied",
            Tag::DataExists => "data-exists",
            Tag::DataMissing => "data-missing",
            Tag::OperationFailed => "operation-failed",
            Tag::ResourceDenied => "resource-denied",
            Tag::UnknownElement => "unknown-element",
            Tag::BadAttribute => "bad-attribute",
            Tag::MissingElement => "missing-element",
        }
    }

    /// Whether the two are one tag.
    pub fn same(self, other: Tag) -> bool
        ensures { IsTrue result ↔ (self ≡ other) }
    {
        self.number() == other.number()
    }
}

impl fmt::Display for Tag {
    ghost use Rattle.nm_base.specs.Tag.{tag_text};

    ghost output = { λ tag. Some (tag_text tag) };

    fn fmt<W: fmt::Write>(&self, f: &mut fmt::Formatter<W>) -> fmt::Result {
        f.pad(self.text())
    }
}

//! What a kind of configurations is, and what requests name by number.

ghost use Rattle.std.specs.Prelude.{◌≡◌, ℕ, List, IfOk, slice_get, option_copied};
ghost use Rattle.nm_proto.specs.Content.{Meaning, Laws, Applies, Checks, Finds, counted_rows};

use crate::listed::Listed;
use crate::message::{DefaultOperation, Marks};
use nm_base::{ChangeNo, EditNo, Label, NoMemory, SelectNo, Tag};
use std::error::Error;
use std::fmt;
use std::marker::Model;

/// What a kind of configurations is: edits, validity and marks. Devices, managers and worlds are written
/// once over it. A content that holds a collection keeps its allocator, so no call takes one.
pub trait Content {
    type Config: Drop;

    type Edit: Drop;

    type Node: Drop;

    /// What the configurations, the edits and the nodes mean.
    ghost meaning: { Self → Meaning Self.Config Self.Edit Self.Node };

    /// An equal configuration.
    fn copy(&self, config: &Self::Config) -> Result<Self::Config, NoMemory>
        requires { (meaning self.now).belongs config.now }
        ensures value { IfOk result (λ copied. copied ≡ config.now) }
        ensures belongs { IfOk result (meaning self.now).belongs };

    /// The configuration after an edit: the edit first, then the marks of `remove` taken away, then the
    /// mark of `add` added (RFC 6241 section 7.2).
    fn apply(
        &self,
        config: &Self::Config,
        edit: &Self::Edit,
        default_operation: DefaultOperation,
        marks: Option<Marks>,
    ) -> Result<Self::Config, ApplyFault>
        requires config { (meaning self.now).belongs config.now }
        requires edit { (meaning self.now).edit_belongs edit.now }
        ensures applied { Applies result ((meaning self.now).edited config.now edit.now default_operation marks) }
        ensures belongs { IfOk result (meaning self.now).belongs };

    /// Whether the configuration is valid (RFC 7950 section 8).
    fn check(&self, config: &Self::Config) -> Result<(), CheckFault>
        requires { (meaning self.now).belongs config.now }
        ensures checked { Checks result ((meaning self.now).violation config.now) };

    /// The node that a text names (RFC 5717 section 2.4.1 selects by such texts).
    fn find(&self, text: &Label) -> Result<Self::Node, FindFault>
        ensures { Finds result ((meaning self.now).found text.now) };

    /// Whether a node exists in the configuration. It takes no memory.
    fn exists(&self, config: &Self::Config, node: &Self::Node) -> bool
        ensures { result ≡ (meaning self.now).exists config.now node.now };

    /// Whether one of the nodes is the other, or lies below it. It takes no memory.
    fn overlaps(&self, one: &Self::Node, other: &Self::Node) -> bool
        ensures { result ≡ (meaning self.now).overlaps one.now other.now };

    /// Whether the two configurations have the same at and below a node. It takes no memory.
    fn same_at(&self, one: &Self::Config, other: &Self::Config, node: &Self::Node) -> bool
        ensures { result ≡ (meaning self.now).same_at one.now other.now node.now };

    /// Whether the two configurations have the same marks. It takes no memory.
    fn same_marks(&self, one: &Self::Config, other: &Self::Config) -> bool
        ensures { result ≡ (meaning self.now).same_marks one.now other.now };

    /// Whether the mark of a change set is in the configuration. It takes no memory.
    fn has_mark(&self, config: &Self::Config, change: ChangeNo) -> bool
        ensures { result ≡ (meaning self.now).has_mark config.now change };

    /// How many rows the configuration has outside the marks, and 4294967295 where there are more. It takes no memory.
    fn rows(&self, config: &Self::Config) -> u32
        ensures { result ≡ counted_rows ((meaning self.now).rows config.now) };

    ghost laws: { (x : Self) → Laws (meaning x) };
}

/// A content whose configurations can be printed.
pub trait Show: Content {
    /// The text of a configuration.
    ghost shown: { Self → Self.Config → List ℕ };

    /// The text of a configuration, in bytes of UTF-8.
    fn text(&self, config: &Self::Config) -> Result<Vec<u8>, NoMemory>
        requires { (Self.meaning self.now).belongs config.now }
        ensures { IfOk result (λ text. text.items ≡ shown self.now config.now) };
}

/// What requests name by number: edits, and lists of texts that select nodes.
pub struct Tables<C: Content> {
    edits: Listed<C::Edit>,
    selects: Listed<Listed<Label>>,
}

impl<C: Content> Drop for Tables<C> {
    fn drop(self) {
        let Tables { edits, selects } = self;
        drop(edits);
        drop(selects);
    }
}

impl<C: Content> Model for Tables<C> {
    ghost use Rattle.nm_proto.specs.Content.{TablesState};

    ghost Value = { TablesState C.Edit };

    ghost view = { λ t. record { edits = t.edits; selects = t.selects } };
}

impl<C: Content> Tables<C> {
    /// The tables of these edits and selections. It takes no memory.
    pub fn new(edits: Listed<C::Edit>, selects: Listed<Listed<Label>>) -> Tables<C>
        ensures { result ≡ record { edits = edits; selects = selects } }
    {
        Tables { edits, selects }
    }

    /// The edit of a number, from 0, and None past the end.
    pub fn edit(&self, number: EditNo) -> Option<&C::Edit>
        ensures { option_copied result ≡ slice_get self.now.edits number.0 }
    {
        self.edits.get(number.0 as usize)
    }

    /// The texts of a selection, by its number from 0, and None past the end.
    pub fn select(&self, number: SelectNo) -> Option<&Listed<Label>>
        ensures { option_copied result ≡ slice_get self.now.selects number.0 }
    {
        self.selects.get(number.0 as usize)
    }
}

/// Why an edit was not applied.
#[derive(Debug, Drop)]
pub enum ApplyFault {
    /// The error tag and the path at fault (RFC 6241 section 4.3).
    Refused { tag: Tag, path: Label },
    NoMemory,
}

/// Why a configuration is not said to be valid.
#[derive(Debug, Drop)]
pub enum CheckFault {
    /// The error tag and the path at fault (RFC 7950 section 15).
    Violation { tag: Tag, path: Label },
    NoMemory,
}

/// Why a text doesn't name a node.
#[derive(Clone, Copy, Debug, PartialEq, Eq)]
pub enum FindFault {
    /// The text names none.
    BadPath,
    NoMemory,
}

impl From<NoMemory> for ApplyFault {
    ghost use Rattle.nm_proto.specs.declared.content.ApplyFault.TheVariants as apply;

    ghost from_gives = { λ _ fault. fault ≡ apply.NoMemory };

    fn from(_fault: NoMemory) -> ApplyFault {
        ApplyFault::NoMemory
    }
}

impl From<NoMemory> for CheckFault {
    ghost use Rattle.nm_proto.specs.declared.content.CheckFault.TheVariants as check;

    ghost from_gives = { λ _ fault. fault ≡ check.NoMemory };

    fn from(_fault: NoMemory) -> CheckFault {
        CheckFault::NoMemory
    }
}

impl From<NoMemory> for FindFault {
    ghost use Rattle.nm_proto.specs.declared.content.FindFault.TheVariants as find;

    ghost from_gives = { λ _ fault. fault ≡ find.NoMemory };

    fn from(_fault: NoMemory) -> FindFault {
        FindFault::NoMemory
    }
}

impl fmt::Display for ApplyFault {
    fn fmt<W: fmt::Write>(&self, f: &mut fmt::Formatter<W>) -> fmt::Result {
        match self {
            ApplyFault::Refused { tag, path } => write!(f, "refused with {tag} at {path}"),
            ApplyFault::NoMemory => f.write_str("out of memory"),
        }
    }
}

impl Error for ApplyFault {}

impl fmt::Display for CheckFault {
    fn fmt<W: fmt::Write>(&self, f: &mut fmt::Formatter<W>) -> fmt::Result {
        match self {
            CheckFault::Violation { tag, path } => write!(f, "not valid with {tag} at {path}"),
            CheckFault::NoMemory => f.write_str("out of memory"),
        }
    }
}

impl Error for CheckFault {}

impl fmt::Display for FindFault {
    fn fmt<W: fmt::Write>(&self, f: &mut fmt::Formatter<W>) -> fmt::Result {
        match self {
            FindFault::BadPath => f.write_str("the text names no node"),
            FindFault::NoMemory => f.write_str("out of memory"),
        }
    }
}

impl Error for FindFault {}

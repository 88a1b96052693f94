//! The nodes of a schema tree.

ghost use Rattle.std.specs.Prelude.{◌≡◌, IfOk, None, MatchOption, Some, option_copied};
ghost use Rattle.nm_base.specs.Numbers.{is_among};
ghost use Rattle.nm_schema_tree.specs.Nodes as spec;

use nm_base::{Groups, Label, NoMemory, Numbers};
use nm_types::{LeafType, Value};
use std::alloc::Global;
use std::marker::Model;
use std::sync::Arc;

/// The type of leafs. Its copies share it, so that many leafs of one type cost little. It is seen as the type.
#[derive(Drop)]
pub struct SharedType {
    shared: Arc<LeafType>,
}

impl Model for SharedType {
    ghost use Rattle.nm_types.specs.LeafType.{TypeOfLeaf};

    ghost Value = { TypeOfLeaf };

    ghost view = { λ t. t.shared.value };
}

impl SharedType {
    /// A type to share.
    pub fn new(alloc: Global, leaf_type: LeafType) -> Result<SharedType, NoMemory>
        ensures { IfOk result (λ shared. shared ≡ leaf_type) }
    {
        Ok(SharedType {
            shared: Arc::new(alloc, leaf_type)?,
        })
    }

    /// The same type once more. It copies nothing of the type.
    pub fn copy(&self) -> Result<SharedType, NoMemory>
        ensures { IfOk result (λ shared. shared ≡ self.now) }
    {
        Ok(SharedType {
            shared: Arc::try_clone(&self.shared)?,
        })
    }

    /// The type.
    pub fn get(&self) -> &LeafType
        ensures { result.now ≡ self.now }
    {
        &self.shared
    }
}

/// Where the path of a leafref leads (RFC 7950 section 9.9).
#[derive(Clone, Copy)]
pub struct Reference {
    /// The number of the leaf or leaf-list that it leads to.
    pub target: usize,
    /// How many nodes the path goes up from the leafref. It goes down again by the ancestors of the target.
    pub up: usize,
}

/// How many entries a list or leaf-list may have (RFC 7950 sections 7.7.5 and 7.7.6).
#[derive(Clone, Copy)]
pub struct Elements {
    /// The fewest.
    pub min: Option<u64>,
    /// The most, and None where there may be any number.
    pub max: Option<u64>,
}

/// What a node is.
#[derive(Drop)]
pub enum NodeKind {
    /// A container (RFC 7950 section 7.5).
    Container {
        presence: bool,
    },
    /// A leaf (RFC 7950 section 7.6).
    Leaf {
        /// Its type. A leafref has the type of its target.
        leaf_type: SharedType,
        default: Option<Value>,
        mandatory: bool,
        reference: Option<Reference>,
    },
    /// A leaf-list (RFC 7950 section 7.7).
    LeafList {
        /// The type of its entries. A leafref has the type of its target.
        leaf_type: SharedType,
        reference: Option<Reference>,
        elements: Elements,
    },
    /// A list (RFC 7950 section 7.8).
    List {
        /// The numbers of its key leafs, in the order of the key statement.
        keys: Numbers,
        /// The numbers of the leafs that each unique statement names.
        uniques: Groups,
        elements: Elements,
    },
}

/// A node of a schema tree (RFC 7950 section 3).
#[derive(Drop)]
pub struct Node {
    /// The number of the node that it stands in, and None at the top.
    pub parent: Option<usize>,
    /// The number of the innermost case that it stands in, among the choices of what it stands in; None in no case.
    pub case_in: Option<usize>,
    /// The name of the module that it belongs to.
    pub module: Label,
    pub name: Label,
    pub kind: NodeKind,
}

impl Node {
    /// The type of a leaf or a leaf-list.
    pub fn leaf_type(&self) -> Option<&LeafType>
        ensures { MatchOption result (spec.type_of self.now.kind ≡ None) (λ leaf_type. spec.type_of self.now.kind ≡ Some leaf_type.now) }
    {
        match &self.kind {
            NodeKind::Leaf { leaf_type, .. } => Some(leaf_type.get()),
            NodeKind::LeafList { leaf_type, .. } => Some(leaf_type.get()),
            _ => None,
        }
    }

    /// The default of a leaf.
    pub fn default(&self) -> Option<&Value>
        ensures { option_copied result ≡ spec.default_of self.now.kind }
    {
        match &self.kind {
            NodeKind::Leaf { default, .. } => default.as_ref(),
            _ => None,
        }
    }

    /// Whether it is a leaf that has to be there.
    pub fn is_mandatory(&self) -> bool
        ensures { result ≡ spec.is_mandatory self.now.kind }
    {
        match &self.kind {
            NodeKind::Leaf { mandatory, .. } => *mandatory,
            _ => false,
        }
    }

    /// Where a leaf or a leaf-list of type leafref leads.
    pub fn reference(&self) -> Option<Reference>
        ensures { result ≡ spec.reference_of self.now.kind }
    {
        match &self.kind {
            NodeKind::Leaf { reference, .. } => *reference,
            NodeKind::LeafList { reference, .. } => *reference,
            _ => None,
        }
    }

    /// How many entries a list or a leaf-list may have. Nothing is said of other nodes.
    pub fn elements(&self) -> Elements
        ensures { result ≡ spec.elements_of self.now.kind }
    {
        match &self.kind {
            NodeKind::LeafList { elements, .. } => *elements,
            NodeKind::List { elements, .. } => *elements,
            _ => Elements {
                min: None,
                max: None,
            },
        }
    }

    /// The keys of a list.
    pub fn keys(&self) -> &[usize]
        ensures { result.now ≡ spec.keys_of self.now.kind }
    {
        match &self.kind {
            NodeKind::List { keys, .. } => keys.as_slice(),
            _ => &[],
        }
    }

    /// The leafs that each unique statement of a list names.
    pub fn uniques(&self) -> &[Numbers]
        ensures { result.now ≡ spec.uniques_of self.now.kind }
    {
        match &self.kind {
            NodeKind::List { uniques, .. } => uniques.as_slice(),
            _ => &[],
        }
    }

    /// Whether it is a list or a container with presence: it is there by a row of its own, and what may or has to stand
    /// below it depends on that row.
    pub fn is_guard(&self) -> bool
        ensures { result ≡ spec.is_guard self.now.kind }
    {
        match &self.kind {
            NodeKind::Container { presence } => *presence,
            NodeKind::List { .. } => true,
            _ => false,
        }
    }

    /// Whether a node is among the keys of this one, which is a list.
    #[tactic(auto, unfolding(nm_base::specs::Numbers::is_among))]
    pub fn has_key(&self, at: usize) -> bool
        ensures { result ≡ is_among at (spec.keys_of self.now.kind) }
    {
        match &self.kind {
            NodeKind::List { keys, .. } => keys.contains(at),
            _ => false,
        }
    }
}

// Lets a leafref lead where a reference says.
pub fn put_reference(kind: &mut NodeKind, to: Option<Reference>)
    ensures { kind.new ≡ spec.with_reference to kind.old }
{
    match kind {
        NodeKind::Leaf { reference, .. } => *reference = to,
        NodeKind::LeafList { reference, .. } => *reference = to,
        _ => {}
    }
}

// Gives a list its keys and what its unique statements name.
pub fn put_keys(kind: &mut NodeKind, new_keys: Numbers, new_uniques: Groups)
    ensures { kind.new ≡ spec.with_keys new_keys new_uniques kind.old }
{
    match kind {
        NodeKind::List { keys, uniques, .. } => {
            *keys = new_keys;
            *uniques = new_uniques;
        }
        _ => {}
    }
}

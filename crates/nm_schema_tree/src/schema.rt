//! Schema trees.

ghost use Rattle.std.specs.Prelude.{◌≡◌, [], ◌∷◌, ◌++◌, length, slice_get, IfOk, OnOk, OnErr, None, Some, MatchOption, nat_eq, ℕ, ◌<◌, IsTrue, ◌↔◌, IfSome, option_copied};
ghost use Rattle.std.specs.Vec.{vec_capacity};
ghost use Rattle.nm_schema_tree.specs.Nodes as spec;
ghost use Rattle.nm_schema_tree.specs.Levels as level_spec;

use crate::choice::{CaseNode, ChoiceNode};
use crate::level::Level;
use crate::node::{Elements, Node, Reference, put_keys, put_reference};
use nm_base::{Groups, Label, NoMemory, Numbers};
use nm_types::{LeafType, Value};
use std::alloc::Global;
use std::collections::BTreeMap;
use std::marker::Model;

/// A schema tree. It is seen as the names of its modules and the lists of its nodes, its choices and their cases.
#[derive(Drop)]
pub struct Schema {
    alloc: Global,
    modules: Vec<Label>,
    nodes: Vec<Node>,
    choices: Vec<ChoiceNode>,
    cases: Vec<CaseNode>,
    // What stands directly in each node.
    levels: Vec<Level>,
    // What stands at the top of each module.
    top: BTreeMap<String, Level>,
}

impl Model for Schema {
    ghost use Rattle.nm_schema_tree.specs.Nodes.{SchemaTree, AreNested};
    ghost use Rattle.nm_schema_tree.specs.Levels.{IsIndexed, IsTree};

    ghost Value = { SchemaTree };

    ghost view = { λ s. record { modules = s.modules.items; nodes = s.nodes.items; choices = s.choices.items; cases = s.cases.items } };

    ghost invariant = { λ s. IsTree s.nodes.items × IsIndexed s.nodes.items s.levels.items s.top × AreNested s.choices.items s.cases.items };
}

// Puts a node into the top of its module.
fn put_top(
    alloc: Global,
    top: &mut BTreeMap<String, Level>,
    owner: &str,
    name: &str,
    at: usize,
) -> Result<(), NoMemory>
    ensures put { OnOk result (level_spec.PutsTop owner.now name.now at top.old top.new) }
    ensures unchanged { OnErr result (level_spec.IsSameTop top.old top.new) }
{
    if let Some(level) = top.get_mut(owner) {
        return level.put(alloc, name, at);
    }
    let mut level = Level::new(alloc);
    level.put(alloc, name, at)?;
    let key = String::from_str(alloc, owner)?;
    top.insert(key, level)?;
    Ok(())
}

// Puts a node into the level of the node that it stands in.
fn put_level(
    alloc: Global,
    levels: &mut Vec<Level>,
    parent: usize,
    name: &str,
    at: usize,
) -> Result<(), NoMemory>
    requires { parent < length levels.old.items }
    ensures put { OnOk result (level_spec.PutsBelow parent name.now at levels.old.items levels.new.items) }
    ensures unchanged { OnErr result (level_spec.AreSame levels.old.items levels.new.items) }
    ensures room { vec_capacity levels.new ≡ vec_capacity levels.old }
{
    levels[parent].put(alloc, name, at)
}

// Puts a node where it is found by its name.
fn put_node(
    alloc: Global,
    levels: &mut Vec<Level>,
    top: &mut BTreeMap<String, Level>,
    node: &Node,
    at: usize,
) -> Result<(), NoMemory>
    requires { (parent : ℕ) → node.now.parent ≡ Some parent → parent < length levels.old.items }
    ensures below { OnOk result (level_spec.IsPutBelow node.now at levels.old.items levels.new.items) }
    ensures top { OnOk result (level_spec.IsPutTop node.now at top.old top.new) }
    ensures same_below { OnErr result (level_spec.AreSame levels.old.items levels.new.items) }
    ensures room { vec_capacity levels.new ≡ vec_capacity levels.old }
    ensures same_top { OnErr result (level_spec.IsSameTop top.old top.new) }
{
    match node.parent {
        None => put_top(alloc, top, node.module.as_str(), node.name.as_str(), at),
        Some(parent) => put_level(alloc, levels, parent, node.name.as_str(), at),
    }
}

// Lets a leafref lead where a reference says.
fn refer(nodes: &mut Vec<Node>, at: usize, to: Option<Reference>)
    requires { at < length nodes.old.items }
    ensures { nodes.new.items ≡ spec.with_reference_at nodes.old.items at to }
{
    put_reference(&mut nodes[at].kind, to);
}

// Gives a list its keys and what its unique statements name.
fn put_keys_at(nodes: &mut Vec<Node>, at: usize, keys: Numbers, uniques: Groups)
    requires { at < length nodes.old.items }
    ensures { nodes.new.items ≡ spec.with_keys_at nodes.old.items at keys uniques }
{
    put_keys(&mut nodes[at].kind, keys, uniques);
}

impl Schema {
    /// A tree without nodes, of modules by their names.
    pub fn new(alloc: Global, modules: Vec<Label>) -> Schema
        ensures modules { result.modules ≡ modules.items }
        ensures nodes { result.nodes ≡ [] }
        ensures choices { result.choices ≡ [] }
        ensures cases { result.cases ≡ [] }
    {
        Schema {
            alloc,
            modules,
            nodes: Vec::new(alloc),
            choices: Vec::new(alloc),
            cases: Vec::new(alloc),
            levels: Vec::new(alloc),
            top: BTreeMap::new(alloc),
        }
    }

    /// Whether a node may be put at the end: it stands at the top, or in a node that is here and has its module.
    pub fn takes(&self, node: &Node) -> bool
        ensures { IsTrue result ↔ spec.may_follow self.now.nodes node.now.parent node.now.«module» }
    {
        let Some(parent) = node.parent else {
            return true;
        };
        match self.nodes.get(parent) {
            None => false,
            Some(around) => around.module.same(&node.module),
        }
    }

    /// Puts a node at the end and answers its number. The tree stays as it was where memory runs out.
    pub fn push(&mut self, node: Node) -> Result<usize, NoMemory>
        requires { spec.may_follow self.old.nodes node.parent node.«module» }
        ensures pushed { OnOk result (self.new ≡ spec.with_node self.old node) }
        ensures number { IfOk result (λ at. at ≡ length self.old.nodes) }
        ensures unchanged { OnErr result (self.new ≡ self.old) }
    {
        let at = self.nodes.len();
        self.nodes.reserve(1)?;
        self.levels.reserve(1)?;
        put_node(self.alloc, &mut self.levels, &mut self.top, &node, at)?;
        self.levels.push_reserved(Level::new(self.alloc));
        self.nodes.push_reserved(node);
        Ok(at)
    }

    /// Puts a choice at the end and answers its number. The tree stays as it was where memory runs out.
    pub fn push_choice(&mut self, choice: ChoiceNode) -> Result<usize, NoMemory>
        requires { IfSome choice.case_in (λ case. case < length self.old.cases) }
        ensures pushed { OnOk result (self.new ≡ spec.with_choice self.old choice) }
        ensures number { IfOk result (λ at. at ≡ length self.old.choices) }
        ensures unchanged { OnErr result (self.new ≡ self.old) }
    {
        let at = self.choices.len();
        self.choices.push(choice)?;
        Ok(at)
    }

    /// Puts a case at the end and answers its number. The tree stays as it was where memory runs out.
    pub fn push_case(&mut self, case: CaseNode) -> Result<usize, NoMemory>
        requires { case.choice < length self.old.choices }
        ensures pushed { OnOk result (self.new ≡ spec.with_case self.old case) }
        ensures number { IfOk result (λ at. at ≡ length self.old.cases) }
        ensures unchanged { OnErr result (self.new ≡ self.old) }
    {
        let at = self.cases.len();
        self.cases.push(case)?;
        Ok(at)
    }

    /// Lets the leafref of a number lead where a reference says. Nodes that are neither leaf nor leaf-list stay.
    pub fn set_reference(&mut self, at: usize, to: Option<Reference>)
        requires { at < length self.old.nodes }
        ensures { self.new ≡ spec.with_reference_in self.old at to }
    {
        refer(&mut self.nodes, at, to);
    }

    /// Gives the list of a number its keys and what its unique statements name. Nodes that are no list stay.
    pub fn set_keys(&mut self, at: usize, keys: Numbers, uniques: Groups)
        requires { at < length self.old.nodes }
        ensures { self.new ≡ spec.with_keys_in self.old at keys uniques }
    {
        put_keys_at(&mut self.nodes, at, keys, uniques);
    }

    /// The names of the modules.
    pub fn modules(&self) -> &[Label]
        ensures { result.now ≡ self.now.modules }
    {
        self.modules.as_slice()
    }

    /// How many nodes there are.
    pub fn len(&self) -> usize
        ensures { result ≡ length self.now.nodes }
    {
        self.nodes.len()
    }

    /// Whether there are no nodes.
    pub fn is_empty(&self) -> bool
        ensures { result ≡ nat_eq (length self.now.nodes) 0 }
    {
        self.nodes.is_empty()
    }

    /// The node of a number from 0, and None past the last.
    pub fn node(&self, at: usize) -> Option<&Node>
        ensures { MatchOption result (slice_get self.now.nodes at ≡ None) (λ node. slice_get self.now.nodes at ≡ Some node.now) }
    {
        self.nodes.get(at)
    }

    fn first_top(&self, module: &str, name: &str) -> Option<usize>
        ensures { result ≡ spec.first_top self.now.nodes «module».now name.now }
    {
        self.top.get(module)?.find(name)
    }

    fn first_child(&self, node: usize, name: &str) -> Option<usize>
        ensures { result ≡ spec.first_named self.now.nodes node name.now }
    {
        self.levels.get(node)?.find(name)
    }

    /// The first node at the top that has a module and a name.
    pub fn top(&self, module: &str, name: &str) -> Option<usize>
        ensures first { result ≡ spec.first_top self.now.nodes «module».now name.now }
        ensures own { IfSome result (λ at. spec.module_at self.now.nodes at ≡ Some «module».now) }
    {
        self.first_top(module, name)
    }

    /// The first node directly in a node that has a name. Below the top all nodes have the module of their top.
    pub fn child(&self, node: usize, name: &str) -> Option<usize>
        ensures first { result ≡ spec.first_named self.now.nodes node name.now }
        ensures parent { IfSome result (λ at. spec.parent_of self.now.nodes at ≡ Some node) }
    {
        self.first_child(node, name)
    }

    /// The numbers of the nodes directly in a node, ascending, and none past the last node.
    pub fn below(&self, at: usize) -> &[usize]
        ensures { result.now ≡ spec.children self.now.nodes at }
    {
        match self.levels.get(at) {
            None => &[],
            Some(level) => level.order(),
        }
    }

    /// The type of a leaf or a leaf-list.
    pub fn leaf_type(&self, at: usize) -> Option<&LeafType>
        ensures { MatchOption result (spec.type_at self.now.nodes at ≡ None) (λ leaf_type. spec.type_at self.now.nodes at ≡ Some leaf_type.now) }
    {
        self.nodes.get(at)?.leaf_type()
    }

    /// The node that a node stands in, and None at the top.
    pub fn parent(&self, at: usize) -> Option<usize>
        ensures { result ≡ spec.parent_of self.now.nodes at }
    {
        self.nodes.get(at)?.parent
    }

    /// The default of a leaf.
    pub fn default(&self, at: usize) -> Option<&Value>
        ensures { option_copied result ≡ spec.default_at self.now.nodes at }
    {
        self.nodes.get(at)?.default()
    }

    /// Whether a node is a leaf that has to be there.
    pub fn is_mandatory(&self, at: usize) -> bool
        ensures { result ≡ spec.is_mandatory_at self.now.nodes at }
    {
        match self.nodes.get(at) {
            None => false,
            Some(node) => node.is_mandatory(),
        }
    }

    /// Where a leaf or a leaf-list of type leafref leads.
    pub fn reference(&self, at: usize) -> Option<Reference>
        ensures { result ≡ spec.reference_at self.now.nodes at }
    {
        self.nodes.get(at)?.reference()
    }

    /// How many entries a list or a leaf-list may have. Nothing is said of other nodes.
    pub fn elements(&self, at: usize) -> Elements
        ensures { result ≡ spec.elements_at self.now.nodes at }
    {
        match self.nodes.get(at) {
            None => Elements {
                min: None,
                max: None,
            },
            Some(node) => node.elements(),
        }
    }

    /// The keys of a list.
    pub fn keys(&self, at: usize) -> &[usize]
        ensures { result.now ≡ spec.keys_at self.now.nodes (Some at) }
    {
        match self.nodes.get(at) {
            None => &[],
            Some(node) => node.keys(),
        }
    }

    /// The leafs that each unique statement of a list names.
    pub fn uniques(&self, at: usize) -> &[Numbers]
        ensures { result.now ≡ spec.uniques_at self.now.nodes at }
    {
        match self.nodes.get(at) {
            None => &[],
            Some(node) => node.uniques(),
        }
    }

    /// Whether a node is a list or a container with presence: what may or has to stand below it depends on its row.
    pub fn is_guard(&self, at: usize) -> bool
        ensures { result ≡ spec.is_guard_at self.now.nodes at }
    {
        match self.nodes.get(at) {
            None => false,
            Some(node) => node.is_guard(),
        }
    }

    /// The innermost case that a node stands in, among the choices of what it stands in.
    pub fn case_in(&self, at: usize) -> Option<usize>
        ensures { result ≡ spec.case_at self.now.nodes at }
    {
        self.nodes.get(at)?.case_in
    }

    /// The choices, each after the one that it is nested in.
    pub fn choices(&self) -> &[ChoiceNode]
        ensures { result.now ≡ self.now.choices }
    {
        self.choices.as_slice()
    }

    /// The cases, each after its choice.
    pub fn cases(&self) -> &[CaseNode]
        ensures { result.now ≡ self.now.cases }
    {
        self.cases.as_slice()
    }

    /// The choice that a case is of.
    pub fn choice_of(&self, case: usize) -> Option<usize>
        ensures { result ≡ spec.choice_at self.now.cases case }
    {
        Some(self.cases.get(case)?.choice)
    }

    /// The case that the choice of a case stands in: the next one outwards.
    pub fn outer_case(&self, case: usize) -> Option<usize>
        ensures outer { result ≡ spec.outer_case self.now.choices self.now.cases case }
        ensures outwards { IfSome result (λ outer. outer < case) }
    {
        let choice = self.choice_of(case)?;
        self.choices.get(choice)?.case_in
    }

    /// Whether a leaf is a key of the list that it stands in.
    #[tactic(auto, unfolding(nm_base::specs::Numbers::is_among))]
    pub fn is_key(&self, at: usize) -> bool
        ensures { result ≡ spec.is_key self.now.nodes at }
    {
        let Some(parent) = self.parent(at) else {
            return false;
        };
        match self.nodes.get(parent) {
            None => false,
            Some(list) => list.has_key(at),
        }
    }

    /// What holds of the nodes. It does nothing: its contract is the law.
    pub fn laws(&self)
        ensures { level_spec.IsTree self.now.nodes }
    {
        let _count = self.nodes.len();
    }

    /// What holds of the choices and cases. It does nothing: its contract is the law.
    pub fn choice_laws(&self)
        ensures { spec.AreNested self.now.choices self.now.cases }
    {
        let _count = self.cases.len();
    }
}

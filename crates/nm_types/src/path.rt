//! Paths of configurations, as steps, and their order: that of the texts by which they are printed.

ghost use Rattle.std.specs.Prelude.{◌≡◌, ◌↔◌, ◌∷◌, ◌++◌, [], IsTrue, IfOk, Some, refl};
ghost use Rattle.std.specs.Ordering.{eq_by_cmp, nat_cmp, ordering_then};
ghost use Rattle.std.specs.Cmp.Lexicographic.{slice_cmp};
ghost use Rattle.std.specs.Cmp;
ghost use Rattle.nm_types.specs.Path.{choice_rank, choice_cmp, at_top, printed_cmp, step_cmp, path_cmp};
ghost use Rattle.nm_types.specs.PathLaws.{steps_equiv, steps_total, steps_po, paths_equiv, paths_total, paths_po};
ghost use Rattle.nm_types.specs.Chosen.{choice_of};

use crate::value::Value;
use nm_base::{Label, NoMemory};
use std::alloc::Global;
use std::cmp::Ordering;
use std::marker::Model;

/// Which entry of a list or a leaf-list a step chooses.
#[derive(Drop)]
pub enum Chosen {
    /// None: the node itself, or a list as a whole.
    Whole,
    /// The list entry with these key values, in the order of the list's keys.
    Keys(Vec<Value>),
    /// The leaf-list entry with this value.
    Entry(Value),
}

/// A step of a path: a node of the schema, and which of its entries.
#[derive(Drop)]
pub struct Step {
    /// The module that defines the node.
    pub module: Label,
    pub name: Label,
    pub chosen: Chosen,
}

impl Model for Step {
    ghost use Rattle.nm_types.specs.Path.{PathStep};

    ghost Value = { PathStep };

    ghost use Rattle.nm_types.specs.Chosen.{choice_of};

    ghost view = { λ s. record { «module» = s.module; name = s.name; chosen = choice_of s.chosen } };
}

/// A path to a node of a configuration, from the top.
#[derive(Drop)]
pub struct Path {
    pub steps: Vec<Step>,
}

impl Model for Path {
    ghost use Rattle.std.specs.Prelude.{List};
    ghost use Rattle.nm_types.specs.Path.{PathStep};

    ghost Value = { List PathStep };

    ghost view = { λ p. p.steps.items };
}

impl Chosen {
    /// An equal choice. It copies no bytes of texts.
    pub fn copy(&self, alloc: Global) -> Result<Chosen, NoMemory>
        ensures { IfOk result (λ chosen. choice_of chosen ≡ choice_of self.now) }
    {
        Ok(match self {
            Chosen::Whole => Chosen::Whole,
            Chosen::Keys(values) => Chosen::Keys(copy_values(alloc, values)?),
            Chosen::Entry(value) => Chosen::Entry(value.copy()?),
        })
    }

    /// Whether the two are one choice.
    #[tactic(auto, using(crate::specs::PathLaws::same_choice_decides))]
    pub fn same(&self, other: &Chosen) -> bool
        ensures { IsTrue result ↔ (choice_of self.now ≡ choice_of other.now) }
    {
        self.order(other).is_eq()
    }

    fn order(&self, other: &Chosen) -> Ordering
        ensures { result ≡ choice_cmp (choice_of self.now) (choice_of other.now) }
    {
        match (self, other) {
            (Chosen::Keys(ours), Chosen::Keys(theirs)) => ours.as_slice().cmp(theirs.as_slice()),
            (Chosen::Entry(ours), Chosen::Entry(theirs)) => ours.cmp(theirs),
            _ => self.rank().cmp(&other.rank()),
        }
    }

    fn rank(&self) -> u8
        ensures { result ≡ choice_rank (choice_of self.now) }
    {
        match self {
            Chosen::Whole => 0,
            Chosen::Keys(_) => 1,
            Chosen::Entry(_) => 2,
        }
    }
}

fn copy_values(alloc: Global, values: &[Value]) -> Result<Vec<Value>, NoMemory>
    ensures { IfOk result (λ copies. copies.items ≡ values.now) }
{
    let mut copies = Vec::with_capacity(alloc, values.len())?;
    for value in values {
        copies.push(value.copy()?)?;
    }
    Ok(copies)
}

impl Step {
    /// An equal step. It copies no bytes of texts.
    pub fn copy(&self, alloc: Global) -> Result<Step, NoMemory>
        ensures { IfOk result (λ step. step ≡ self.now) }
    {
        Ok(Step {
            module: self.module.copy()?,
            name: self.name.copy()?,
            chosen: self.chosen.copy(alloc)?,
        })
    }

    /// Whether the two are one step.
    #[tactic(auto, using(crate::specs::PathLaws::same_step_decides))]
    pub fn same(&self, other: &Step) -> bool
        ensures { IsTrue result ↔ (self.now ≡ other.now) }
    {
        self == other
    }

    // The order of two steps to nodes of one module.
    fn order_in_module(&self, other: &Step) -> Ordering
        ensures { result ≡ ordering_then (slice_cmp nat_cmp self.now.name other.now.name) (choice_cmp self.now.chosen other.now.chosen) }
    {
        self.name
            .cmp(&other.name)
            .then(self.chosen.order(&other.chosen))
    }

    // The order of two steps at the top, where names are printed with their modules.
    #[tactic(auto, unfolding(crate::specs::Path::printed_cmp))]
    fn order_at_top(&self, other: &Step) -> Ordering
        ensures { result ≡ printed_cmp (at_top self.now) (at_top other.now) }
    {
        if self.module.same(&other.module) {
            return self.order_in_module(other);
        }
        let names = order_of_names(&self.module, &self.name, &other.module, &other.name);
        let modules = self.module.cmp(&other.module);
        names.then(modules.then(self.chosen.order(&other.chosen)))
    }
}

// The order of two names that are printed as `module:name`.
fn order_of_names(owner: &Label, name: &Label, other_owner: &Label, other_name: &Label) -> Ordering
    ensures { result ≡ slice_cmp nat_cmp (owner.now ++ 58 ∷ name.now) (other_owner.now ++ 58 ∷ other_name.now) }
{
    let ours = owner
        .as_str()
        .bytes()
        .chain(":".bytes())
        .chain(name.as_str().bytes());
    let theirs = other_owner
        .as_str()
        .bytes()
        .chain(":".bytes())
        .chain(other_name.as_str().bytes());
    ours.cmp(theirs)
}

impl PartialEq for Step {
    ghost eq = { eq_by_cmp step_cmp };

    ghost laws = { Cmp.partial_equiv_from_equiv steps_equiv };

    fn eq(&self, other: &Step) -> bool {
        self.cmp(other) == Ordering::Equal
    }
}

impl Eq for Step {
    ghost laws = { steps_equiv };
}

impl PartialOrd for Step {
    ghost partial_cmp = { λ x y. Some (step_cmp x y) };

    ghost laws = { steps_po };

    fn partial_cmp(&self, other: &Step) -> Option<Ordering> {
        Some(self.cmp(other))
    }
}

// The order of steps below the top, where names are printed without their modules.
impl Ord for Step {
    ghost cmp = { step_cmp };

    ghost total = { steps_total };

    ghost matches_partial_cmp = { λ x y. refl };

    ghost matches_eq = { λ x y. refl };

    #[tactic(auto, unfolding(crate::specs::Path::printed_cmp))]
    fn cmp(&self, other: &Step) -> Ordering {
        let modules = self.module.cmp(&other.module);
        self.name
            .cmp(&other.name)
            .then(modules.then(self.chosen.order(&other.chosen)))
    }
}

// Equal steps, in a vector that has room for so many.
fn copy_steps(alloc: Global, steps: &[Step], room: usize) -> Result<Vec<Step>, NoMemory>
    ensures { IfOk result (λ copies. copies.items ≡ steps.now) }
{
    let mut copies = Vec::with_capacity(alloc, room)?;
    for step in steps {
        copies.push(step.copy(alloc)?)?;
    }
    Ok(copies)
}

impl Path {
    /// An equal path. It copies no bytes of names and texts.
    pub fn copy(&self, alloc: Global) -> Result<Path, NoMemory>
        ensures { IfOk result (λ path. path ≡ self.now) }
    {
        Ok(Path {
            steps: copy_steps(alloc, &self.steps, self.steps.len())?,
        })
    }

    /// The path with one step more. It copies no bytes of names and texts.
    pub fn with_step(&self, alloc: Global, step: Step) -> Result<Path, NoMemory>
        ensures { IfOk result (λ path. path ≡ self.now ++ step ∷ []) }
    {
        let mut steps = copy_steps(alloc, &self.steps, self.steps.len() + 1)?;
        steps.push(step)?;
        Ok(Path { steps })
    }

    /// Whether the two are one path.
    #[tactic(auto, using(crate::specs::PathLaws::same_path_decides))]
    pub fn same(&self, other: &Path) -> bool
        ensures { IsTrue result ↔ (self.now ≡ other.now) }
    {
        self == other
    }
}

impl PartialEq for Path {
    ghost eq = { eq_by_cmp path_cmp };

    ghost laws = { Cmp.partial_equiv_from_equiv paths_equiv };

    fn eq(&self, other: &Path) -> bool {
        self.cmp(other) == Ordering::Equal
    }
}

impl Eq for Path {
    ghost laws = { paths_equiv };
}

impl PartialOrd for Path {
    ghost partial_cmp = { λ x y. Some (path_cmp x y) };

    ghost laws = { paths_po };

    fn partial_cmp(&self, other: &Path) -> Option<Ordering> {
        Some(self.cmp(other))
    }
}

// Step by step: a node stands before what is below it.
impl Ord for Path {
    ghost cmp = { path_cmp };

    ghost total = { paths_total };

    ghost matches_partial_cmp = { λ x y. refl };

    ghost matches_eq = { λ x y. refl };

    fn cmp(&self, other: &Path) -> Ordering {
        order_of_steps(&self.steps, &other.steps)
    }
}

fn order_of_steps(ours: &[Step], theirs: &[Step]) -> Ordering
    ensures { result ≡ path_cmp ours.now theirs.now }
{
    if ours.is_empty() || theirs.is_empty() {
        return ours.len().cmp(&theirs.len());
    }
    match ours[0].order_at_top(&theirs[0]) {
        Ordering::Equal => ours[1..].cmp(&theirs[1..]),
        unequal => unequal,
    }
}

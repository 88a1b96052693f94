//! The choices and cases among what stands in one statement.

ghost use Rattle.std.specs.Prelude.{◌≡◌, ◌<◌, ◌+◌, ◌++◌, Some, IfOk, OnOk, length, map};
ghost use Rattle.nm_schema_nodes.specs.Forks as spec;

use crate::fork::{Branch, Fork};
use nm_base::NoMemory;
use std::alloc::Global;
use std::marker::Model;

/// Choices, each after the case that it is nested in; cases, each after its choice; and for each node the innermost case that it
/// stands in. They are seen as these three lists.
#[derive(Drop)]
pub struct Forks {
    choices: Vec<Fork>,
    cases: Vec<Branch>,
    spots: Vec<Option<usize>>,
}

impl Model for Forks {
    ghost use Rattle.nm_schema_nodes.specs.Forks.{Forking, forking, IsWalked};

    ghost Value = { Forking };

    ghost view = { λ f. forking f.choices.items f.cases.items f.spots.items };

    ghost invariant = { λ f. IsWalked (forking f.choices.items f.cases.items f.spots.items) };
}

fn shifted(count: usize, case: Option<usize>) -> Option<usize>
    requires { spec.IsRoom count case }
    ensures { result ≡ spec.shifted count case }
{
    match case {
        None => None,
        Some(case) => Some(count + case),
    }
}

#[tactic(auto, unfolding(crate::specs::Forks::moved_fork))]
fn moved_fork(count: usize, fork: Fork) -> Fork
    requires { spec.IsRoom count fork.case_in }
    ensures { result ≡ spec.moved_fork count fork }
{
    Fork {
        row: fork.row,
        case_in: shifted(count, fork.case_in),
    }
}

#[tactic(auto, unfolding(crate::specs::Forks::moved_branch))]
fn moved_branch(count: usize, branch: Branch) -> Branch
    requires { spec.IsRoom count (Some branch.choice) }
    ensures { result ≡ spec.moved_branch count branch }
{
    Branch {
        choice: count + branch.choice,
        row: branch.row,
    }
}

// A case behind another, and that one where there is none.
fn inner(outer: usize, case: Option<usize>) -> Option<usize>
    requires { spec.IsRoom (outer + 1) case }
    ensures { result ≡ spec.inner outer case }
{
    match case {
        None => Some(outer),
        Some(case) => Some(outer + 1 + case),
    }
}

#[tactic(auto, unfolding(crate::specs::Forks::inner_fork))]
fn inner_fork(outer: usize, fork: Fork) -> Fork
    requires { spec.IsRoom (outer + 1) fork.case_in }
    ensures { result ≡ spec.inner_fork outer fork }
{
    Fork {
        row: fork.row,
        case_in: inner(outer, fork.case_in),
    }
}

// Puts choices behind others, each behind so many cases.
fn put_forks(choices: &mut Vec<Fork>, others: &[Fork], cases: usize) -> Result<(), NoMemory>
    requires { spec.ForksHaveRoom cases others.now }
    ensures { OnOk result (choices.new.items ≡ choices.old.items ++ map (spec.moved_fork cases) others.now) }
{
    for fork in others {
        choices.push(moved_fork(cases, *fork))?;
    }
    Ok(())
}

// Puts cases behind others, each of a choice behind so many.
fn put_branches(cases: &mut Vec<Branch>, others: &[Branch], choices: usize) -> Result<(), NoMemory>
    requires { spec.BranchesHaveRoom choices others.now }
    ensures { OnOk result (cases.new.items ≡ cases.old.items ++ map (spec.moved_branch choices) others.now) }
{
    for branch in others {
        cases.push(moved_branch(choices, *branch))?;
    }
    Ok(())
}

// Puts the cases of nodes behind others, each behind so many cases.
fn put_spots(
    spots: &mut Vec<Option<usize>>,
    others: &[Option<usize>],
    cases: usize,
) -> Result<(), NoMemory>
    requires { spec.SpotsHaveRoom cases others.now }
    ensures { OnOk result (spots.new.items ≡ spots.old.items ++ map (spec.shifted cases) others.now) }
{
    for spot in others {
        spots.push(shifted(cases, *spot))?;
    }
    Ok(())
}

// Puts choices that stand in a case behind others.
fn put_inner_forks(choices: &mut Vec<Fork>, others: &[Fork], outer: usize) -> Result<(), NoMemory>
    requires { spec.ForksHaveRoom (outer + 1) others.now }
    ensures { OnOk result (choices.new.items ≡ choices.old.items ++ map (spec.inner_fork outer) others.now) }
{
    for fork in others {
        choices.push(inner_fork(outer, *fork))?;
    }
    Ok(())
}

// Puts the cases of nodes that stand in a case behind others.
fn put_inner_spots(
    spots: &mut Vec<Option<usize>>,
    others: &[Option<usize>],
    outer: usize,
) -> Result<(), NoMemory>
    requires { spec.SpotsHaveRoom (outer + 1) others.now }
    ensures { OnOk result (spots.new.items ≡ spots.old.items ++ map (spec.inner outer) others.now) }
{
    for spot in others {
        spots.push(inner(outer, *spot))?;
    }
    Ok(())
}

impl Forks {
    /// No choices, and no nodes.
    pub(crate) fn new(alloc: Global) -> Forks
        ensures { result ≡ spec.no_forks }
    {
        Forks {
            choices: Vec::new(alloc),
            cases: Vec::new(alloc),
            spots: Vec::new(alloc),
        }
    }

    /// One node, in no case.
    pub(crate) fn lone(alloc: Global) -> Result<Forks, NoMemory>
        ensures { IfOk result (λ forks. forks ≡ spec.lone_node) }
    {
        let mut forks = Forks::new(alloc);
        forks.spots.push(None)?;
        Ok(forks)
    }

    /// A choice, by its row, without cases.
    pub(crate) fn choice(alloc: Global, row: usize) -> Result<Forks, NoMemory>
        ensures { IfOk result (λ forks. forks ≡ spec.choice_alone row) }
    {
        let mut forks = Forks::new(alloc);
        forks.choices.push(Fork { row, case_in: None })?;
        Ok(forks)
    }

    /// What holds of them. It does nothing: its contract is the law.
    pub fn laws(&self)
        ensures { spec.IsWalked self.now }
    {
        let _count = self.cases.len();
    }

    /// The choices.
    pub fn choices(&self) -> &[Fork]
        ensures { result.now ≡ self.now.choices }
    {
        self.choices.as_slice()
    }

    /// The cases.
    pub fn cases(&self) -> &[Branch]
        ensures { result.now ≡ self.now.cases }
    {
        self.cases.as_slice()
    }

    /// For each node the innermost case that it stands in.
    pub fn spots(&self) -> &[Option<usize>]
        ensures { result.now ≡ self.now.spots }
    {
        self.spots.as_slice()
    }

    /// Whether there is no more of anything than a limit.
    #[tactic(auto, unfolding(crate::specs::Forks::is_within))]
    pub(crate) fn is_within(&self, limit: usize) -> bool
        ensures { result ≡ spec.is_within limit self.now }
    {
        self.choices.len() <= limit && self.cases.len() <= limit && self.spots.len() <= limit
    }

    // What holds of the numbers of others behind these: they are numbers as they are kept. It does nothing: its contract is the law.
    fn room(&self, other: &Forks)
        ensures { spec.HaveRoom self.now other.now }
    {
        other.laws();
        let _choices = self.choices().len();
        let _cases = self.cases().len();
        let _others = other.choices().len();
        let _other_cases = other.cases().len();
    }

    /// These, and others behind them.
    pub(crate) fn join(self, other: &Forks) -> Result<Forks, NoMemory>
        ensures { IfOk result (λ all. all ≡ spec.joined self other.now) }
    {
        other.laws();
        self.room(other);
        let Forks {
            mut choices,
            mut cases,
            mut spots,
        } = self;
        let first_choice = choices.len();
        let first_case = cases.len();
        put_forks(&mut choices, other.choices(), first_case)?;
        put_branches(&mut cases, other.cases(), first_choice)?;
        put_spots(&mut spots, other.spots(), first_case)?;
        Ok(Forks {
            choices,
            cases,
            spots,
        })
    }

    /// A case more of the first choice, named by a row, with what stands in it.
    pub(crate) fn add_case(self, row: usize, other: &Forks) -> Result<Forks, NoMemory>
        requires { 0 < length self.choices }
        ensures { IfOk result (λ all. all ≡ spec.with_case self row other.now) }
    {
        other.laws();
        self.room(other);
        let Forks {
            mut choices,
            mut cases,
            mut spots,
        } = self;
        let first_choice = choices.len();
        let outer = cases.len();
        put_inner_forks(&mut choices, other.choices(), outer)?;
        cases.push(Branch { choice: 0, row })?;
        put_branches(&mut cases, other.cases(), first_choice)?;
        put_inner_spots(&mut spots, other.spots(), outer)?;
        Ok(Forks {
            choices,
            cases,
            spots,
        })
    }
}

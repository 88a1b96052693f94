//! What stands in what, through `uses`.

ghost use Rattle.std.specs.Prelude.{◌≡◌, ◌<◌, ◌↔◌, true, IfOk, MatchOption, Some, None, false, length, slice_index_or};
ghost use Rattle.nm_schema_statements.specs.declared.flaw.Flaw.TheVariants as flaw;
ghost use Rattle.nm_schema_statements.specs.declared.word.Word.TheVariants as word;
ghost use Rattle.nm_schema_statements.specs.Word.{word_text};
ghost use Rattle.nm_schema_uses.specs.Config as config;
ghost use Rattle.nm_schema_uses.specs.Sizes as sizes;
ghost use Rattle.nm_schema_uses.specs.Holding.{AreLeading, AreNamed, holding};
ghost use Rattle.nm_schema_uses.specs.Members as spec;
ghost use Rattle.nm_schema_uses.specs.Passing as passing;
ghost use Rattle.nm_schema_uses.specs.Outline.{outline};

use crate::config::{claim_at, is_keyless, kept_among};
use crate::holding::{bringing_of, graph_of};
use crate::members::{brought, gathered};
use crate::nodes::Nodes;
use crate::passing::{brought_kept, brought_plain, plain_among};
use crate::settings::{Settings, settings_of};
use nm_base::{Label, NoMemory};
use nm_graph::order;
use nm_schema_statements::{Flaw, Rows, Word};
use std::alloc::Global;
use std::marker::Model;

/// What stands in what in modules, once each uses stands for what its grouping holds. It is seen as the rows of the modules
/// and the grouping of each uses.
#[derive(Drop)]
pub struct Shape<'a> {
    rows: &'a Rows,
    groupings: &'a [Option<usize>],
    graph: Vec<Vec<usize>>,
    // What each row brings in all, but for state, and but for what stands in choices.
    brought: Vec<Option<Nodes>>,
    kept: Vec<Option<Nodes>>,
    plain: Vec<Option<Nodes>>,
    settings: Settings,
}

impl<'a> Model for Shape<'a> {
    ghost use Rattle.nm_schema_uses.specs.Outline.{Outline, outline, IsShape};

    ghost Value = { Outline };

    ghost view = { λ s. outline s.rows.now s.groupings.now };

    ghost invariant = { λ s. IsShape s.rows.now s.groupings.now s.graph.items s.brought.items s.kept.items s.plain.items s.settings };
}

impl<'a> Shape<'a> {
    /// The rows of the modules.
    pub fn rows(&self) -> &'a Rows
        ensures { result.now ≡ self.now.rows }
    {
        self.rows
    }
}

impl Shape<'_> {
    /// What holds of them. It does nothing: its contract is the law.
    pub fn laws(&self)
        ensures { AreLeading self.now.rows self.now.groupings }
    {
        let _count = self.graph.len();
    }

    /// What a row leads to in one step: a module, container, list, grouping, choice or case to the nodes of data, the uses, the
    /// choices and the cases that stand directly in it, in order, a uses to the grouping that it names, and any other row to
    /// nothing.
    pub fn leads_to(&self, at: usize) -> &[usize]
        ensures { result.now ≡ holding self.now.rows self.now.groupings at }
    {
        if at < self.graph.len() {
            return self.graph[at].as_slice();
        }
        &[]
    }

    /// What a row brings to the statement that it stands in: a node of data itself, whatever stands in it, a choice and a case what
    /// stands in them, and a uses what stands in its grouping. None where a uses that this rests on has no grouping or leads to itself.
    pub fn brought(&self, at: usize) -> Option<&Nodes>
        ensures { MatchOption result (spec.brought self.now.rows self.now.groupings at ≡ None)
            (λ nodes. spec.brought self.now.rows self.now.groupings at ≡ Some nodes.now) }
    {
        if at < self.brought.len() {
            return self.brought[at].as_ref();
        }
        None
    }

    /// The nodes of data that stand directly in a row once each uses stands for what its grouping holds, and each choice and case
    /// for what it holds, in order (RFC 7950 sections 7.9 and 7.13). None where a uses directly in it, or in the groupings that these
    /// use, has no grouping or leads to itself.
    pub fn members(&self, alloc: Global, at: usize) -> Result<Option<Nodes>, NoMemory>
        ensures { IfOk result (λ nodes. nodes ≡ spec.members self.now.rows self.now.groupings at) }
    {
        let successors = self.leads_to(at);
        gathered(alloc, self.rows.len(), &self.brought, successors)
    }

    /// The members of a row that are no state themselves and stand in no choice that is, in order: a choice with `config false` is
    /// left out with all that is in it (RFC 7950 sections 7.9.2 and 7.21.1). None where they aren't known.
    #[tactic(auto, unfolding(crate::specs::Passing::kept_members, crate::specs::Config::kept_of))]
    pub fn kept_members(&self, alloc: Global, at: usize) -> Result<Option<Nodes>, NoMemory>
        ensures { IfOk result (λ nodes. nodes ≡ passing.kept_members self.now.rows self.now.groupings at) }
    {
        let successors = kept_among(alloc, self.rows, self.leads_to(at))?;
        gathered(alloc, self.rows.len(), &self.kept, &successors)
    }

    /// The members of a row that stand in no choice, in order. None where they aren't known.
    #[tactic(auto, unfolding(crate::specs::Passing::plain_members, crate::specs::Passing::plain_of))]
    pub fn plain_members(&self, alloc: Global, at: usize) -> Result<Option<Nodes>, NoMemory>
        ensures { IfOk result (λ nodes. nodes ≡ passing.plain_members self.now.rows self.now.groupings at) }
    {
        let successors = plain_among(alloc, self.rows, self.leads_to(at))?;
        gathered(alloc, self.rows.len(), &self.plain, &successors)
    }

    /// For each row whether it is used as configuration.
    pub fn configured(&self) -> &[bool]
        ensures marks { config.Marks (config.IsConfiguration self.now.rows self.now.groupings) result.now }
        ensures size { length result.now ≡ length self.now.rows }
    {
        self.settings.configured.as_slice()
    }

    /// For each row whether it stands in state.
    pub fn in_state(&self) -> &[bool]
        ensures marks { config.Marks (config.IsInState self.now.rows self.now.groupings) result.now }
        ensures size { length result.now ≡ length self.now.rows }
    {
        self.settings.in_state.as_slice()
    }

    /// Whether a row is used as configuration: the row of a module leads to it through no node that has `config false`.
    pub fn is_configuration(&self, at: usize) -> bool
        ensures { (result ≡ true) ↔ config.IsConfiguration self.now.rows self.now.groupings at }
    {
        is_marked(&self.settings.configured, at)
    }

    /// Whether a row is a node that has `config false`, or such a node leads to it.
    pub fn is_in_state(&self, at: usize) -> bool
        ensures { (result ≡ true) ↔ config.IsInState self.now.rows self.now.groupings at }
    {
        is_marked(&self.settings.in_state, at)
    }

    /// A `config true` that stands in state: BadArgument with `config` (RFC 7950 section 7.21.1).
    pub fn config_flaw(&self, alloc: Global, at: usize) -> Result<Option<Flaw>, NoMemory>
        ensures { IfOk result (config.HasFlawIf (config.IsContradicted self.now.rows self.now.groupings at) (flaw.BadArgument (word_text word.Config))) }
    {
        match claim_at(self.rows, at) {
            None => Ok(None),
            Some(claim) => {
                if !self.is_in_state(claim) {
                    return Ok(None);
                }
                bad_argument(alloc, Word::Config)
            }
        }
    }

    /// A list of configuration without a key: BadArgument with `key` (RFC 7950 section 7.8.2).
    pub fn list_flaw(&self, alloc: Global, at: usize) -> Result<Option<Flaw>, NoMemory>
        ensures { IfOk result (config.HasFlawIf (config.LacksKey self.now.rows self.now.groupings at) (flaw.BadArgument (word_text word.Key))) }
    {
        if !is_keyless(self.rows, at) {
            return Ok(None);
        }
        if !self.is_configuration(at) {
            return Ok(None);
        }
        bad_argument(alloc, Word::Key)
    }

    /// How many nodes of configuration stand at and below a row, each as often as it is used, and 20,001 where there are more.
    /// None where a uses below it leads to itself.
    pub fn count(&self, at: usize) -> Option<usize>
        requires { at < length self.now.rows }
        ensures { result ≡ sizes.capped 20001 (sizes.count_of self.now.rows self.now.groupings at) }
    {
        number_at(&self.settings.counts, at)
    }

    /// How many nodes of configuration stand one in another at and below a row, and 66 where there are more. None where a uses
    /// below it leads to itself.
    pub fn height(&self, at: usize) -> Option<usize>
        requires { at < length self.now.rows }
        ensures { result ≡ sizes.capped 66 (sizes.height_of self.now.rows self.now.groupings at) }
    {
        number_at(&self.settings.heights, at)
    }
}

fn is_marked(marks: &[bool], at: usize) -> bool
    ensures { result ≡ slice_index_or marks.now at false }
{
    if at < marks.len() {
        return marks[at];
    }
    false
}

fn number_at(numbers: &[Option<usize>], at: usize) -> Option<usize>
    requires { at < length numbers.now }
    ensures { result ≡ slice_index_or numbers.now at None }
{
    numbers[at]
}

fn bad_argument(alloc: Global, keyword: Word) -> Result<Option<Flaw>, NoMemory>
    ensures { IfOk result (λ found. found ≡ Some (flaw.BadArgument (word_text keyword))) }
{
    let name = Label::new(alloc, keyword.text())?;
    Ok(Some(Flaw::BadArgument(name)))
}

/// What stands in what in modules. `groupings` has for the row of a uses the row of the grouping that it names.
pub fn shape_of<'a>(
    alloc: Global,
    rows: &'a Rows,
    groupings: &'a [Option<usize>],
) -> Result<Shape<'a>, NoMemory>
    requires { AreNamed rows.now groupings.now }
    ensures { IfOk result (λ shape. shape ≡ outline rows.now groupings.now) }
{
    let graph = graph_of(alloc, rows, groupings)?;
    let bringing = bringing_of(alloc, rows, groupings)?;
    let ordered = order(alloc, &bringing)?;
    let brought = brought(alloc, rows, groupings, &bringing, &ordered.nodes)?;
    let kept = brought_kept(alloc, rows, groupings, &bringing, &brought)?;
    let plain = brought_plain(alloc, rows, groupings, &bringing, &brought)?;
    let settings = settings_of(alloc, rows, &graph)?;
    Ok(Shape {
        rows,
        groupings,
        graph,
        brought,
        kept,
        plain,
        settings,
    })
}

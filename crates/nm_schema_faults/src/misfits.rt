//! Defaults that don't fit the types of nodes in the tree.

ghost use Rattle.std.specs.Prelude.{◌≡◌, ◌<◌, ◌||◌, ◌==◌, ◌&&◌, ℕ, IfOk, Some, None, length, unwrap_or, slice_get, slice_index_or, false};
ghost use Rattle.nm_schema_statements.specs.declared.word.Word.TheVariants as word;
ghost use Rattle.nm_schema_statements.specs.Rows.{has_word, first_below};
ghost use Rattle.nm_schema_typing.specs.Defaults as typing;
ghost use Rattle.nm_schema_keys.specs.Keys.{has_known};
ghost use Rattle.nm_schema_nodes.specs.Expansion.{row_of};
ghost use Rattle.nm_schema_leafref.specs.Target.{type_of_node};
ghost use Rattle.nm_schema_faults.specs.Facts.{definitions, tree};
ghost use Rattle.nm_schema_faults.specs.Misfit as spec;

use crate::grounds::Grounds;
use nm_base::NoMemory;
use nm_schema_nodes::Instance;
use nm_schema_statements::Word;
use nm_schema_typing::fits_type;
use std::alloc::Global;

impl<'g, 'a> Grounds<'g, 'a> {
    fn is_leaf(&self, row: usize) -> bool
        ensures { result ≡ has_word word.Leaf (slice_get self.now.rows row) }
    {
        match self.names.rows().row(row) {
            None => false,
            Some(row) => row.word.same(Word::Leaf),
        }
    }

    // The row of a node.
    #[tactic(auto, unfolding(nm_schema_nodes::specs::Expansion::row_of))]
    fn row_of(&self, node: usize) -> Option<usize>
        ensures { result ≡ row_of self.now.facts.nodes node }
    {
        let nodes = self.expansion.nodes();
        if node < nodes.len() {
            return Some(nodes[node].row);
        }
        None
    }

    fn row_above(&self, parent: Option<usize>) -> Option<usize>
        ensures { result ≡ spec.row_above self.now.facts.nodes parent }
    {
        match parent {
            None => None,
            Some(parent) => self.row_of(parent),
        }
    }

    // Whether a row is a key of a list.
    fn is_key_of(&self, list: Option<usize>, row: usize) -> bool
        ensures { result ≡ has_known (spec.keys_above self.now.rows self.now.facts list) row }
    {
        let Some(list) = list else {
            return false;
        };
        match self.keys_of(list) {
            None => false,
            Some(keys) => keys.has(row),
        }
    }

    /// Whether a node is a key of the list that it stands in.
    #[tactic(auto, unfolding(crate::specs::Misfit::is_key_node))]
    pub fn is_key_node(&self, node: Instance) -> bool
        ensures { result ≡ spec.is_key_node self.now.rows self.now.facts node }
    {
        self.is_key_of(self.row_above(node.parent), node.row)
    }

    // Whether the default of a row, if there is one, fits the type of a node, if there is one.
    fn suits(&self, alloc: Global, row: usize, node: usize) -> Result<bool, NoMemory>
        ensures { IfOk result (λ suits. suits ≡ spec.suits (typing.default_of self.now.rows (definitions self.now.rows) row)
            (type_of_node (definitions self.now.rows) (tree self.now.rows self.now.facts) node)) }
    {
        let Some(text) = self.default_text(row) else {
            return Ok(true);
        };
        match self.leafrefs.leaf_type(node) {
            None => Ok(true),
            Some(leaf_type) => fits_type(alloc, text.as_str(), leaf_type.get()),
        }
    }

    // Whether a typedef, if there is one, takes the default of a row, if there is one.
    fn base_takes(&self, alloc: Global, base: Option<usize>, row: usize) -> Result<bool, NoMemory>
        ensures { IfOk result (λ takes. takes ≡ spec.base_takes self.now.rows base (typing.default_of self.now.rows (definitions self.now.rows) row)) }
    {
        let Some(base) = base else {
            return Ok(true);
        };
        match self.default_text(row) {
            None => Ok(true),
            Some(text) => self.is_default(alloc, base, text.as_str()),
        }
    }

    // Whether a row has a default itself, or takes one over from a typedef that takes it.
    #[tactic(auto, unfolding(crate::specs::Misfit::is_meant))]
    fn is_meant(&self, alloc: Global, row: usize) -> Result<bool, NoMemory>
        ensures { IfOk result (λ is. is ≡ spec.is_meant self.now.rows row) }
    {
        if self.names.rows().first_below(row, Word::Default).is_some() {
            return Ok(true);
        }
        self.base_takes(alloc, self.base_of(row), row)
    }

    // Whether a node has a default that doesn't fit its type.
    #[tactic(auto, unfolding(crate::specs::Misfit::is_misfit))]
    fn is_misfit(&self, alloc: Global, number: usize, node: Instance) -> Result<bool, NoMemory>
        requires { slice_get self.now.facts.nodes number ≡ Some node }
        ensures { IfOk result (λ is. is ≡ spec.is_misfit self.now.rows self.now.facts number) }
    {
        if !self.is_leaf(node.row) {
            return Ok(false);
        }
        if self.is_key_node(node) {
            return Ok(false);
        }
        if !self.is_meant(alloc, node.row)? {
            return Ok(false);
        }
        Ok(!self.suits(alloc, node.row, number)?)
    }

    // The row at which a misfit of a leaf is told.
    fn told(&self, row: usize) -> usize
        ensures { result ≡ unwrap_or (first_below self.now.rows row word.Default) row }
    {
        match self.names.rows().first_below(row, Word::Default) {
            None => row,
            Some(at) => at,
        }
    }

    // Marks the row at which a node is told, if it is a misfit.
    fn mark(
        &self,
        alloc: Global,
        marks: &mut Vec<bool>,
        number: usize,
        node: Instance,
    ) -> Result<(), NoMemory>
        requires node { slice_get self.now.facts.nodes number ≡ Some node }
        ensures size { length marks.new.items ≡ length marks.old.items }
        ensures marked { IfOk result (λ _. (at : ℕ) → at < length marks.old.items → slice_index_or marks.new.items at false
            ≡ (slice_index_or marks.old.items at false || spec.is_misfit_told self.now.rows self.now.facts at number)) }
    {
        if !self.is_misfit(alloc, number, node)? {
            return Ok(());
        }
        let told = self.told(node.row);
        if told < marks.len() {
            marks[told] = true;
        }
        Ok(())
    }

    /// For each row whether a misfit is told there.
    pub(crate) fn misfits(&self, alloc: Global) -> Result<Vec<bool>, NoMemory>
        ensures { IfOk result (λ marks. spec.AreMisfits self.now.rows self.now.facts marks.items) }
    {
        let mut marks = vec![in alloc; false; self.names.rows().len()]?;
        let nodes = self.expansion.nodes();
        for number in 0..nodes.len() {
            match self.mark(alloc, &mut marks, number, nodes[number]) {
                Ok(()) => {}
                Err(error) => return Err(error),
            }
        }
        Ok(marks)
    }
}

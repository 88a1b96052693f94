//! What each row leads to.

ghost use Rattle.std.specs.Prelude.{◌≡◌, IfOk};
ghost use Rattle.nm_schema_names.specs.Graph as spec;

use crate::names::RowNames;
use nm_base::NoMemory;
use nm_schema_statements::Word;
use std::alloc::Global;

fn is_part(word: Word) -> bool
    ensures { result ≡ spec.is_part word }
{
    match word {
        Word::Container => true,
        Word::List => true,
        Word::Leaf => true,
        Word::LeafList => true,
        Word::Uses => true,
        Word::Choice => true,
        Word::Case => true,
        _ => false,
    }
}

fn listed(alloc: Global, number: Option<usize>) -> Result<Vec<usize>, NoMemory>
    ensures { IfOk result (λ list. list.items ≡ spec.listed number) }
{
    let mut list = Vec::new(alloc);
    if let Some(number) = number {
        list.push(number)?;
    }
    Ok(list)
}

impl<'a> RowNames<'a> {
    fn is_part_at(&self, at: usize) -> bool
        ensures { result ≡ spec.is_part_at self.now at }
    {
        match self.rows().row(at) {
            None => false,
            Some(row) => is_part(row.word),
        }
    }

    // The rows directly in a row that make nodes.
    #[tactic(auto, unfolding(crate::specs::Graph::parts))]
    fn parts(&self, alloc: Global, at: usize) -> Result<Vec<usize>, NoMemory>
        ensures { IfOk result (λ list. list.items ≡ spec.parts self.now at) }
    {
        Ok(
            self.rows()
                .below(at)
                .iter()
                .copied()
                .filter(|row| self.is_part_at(*row))
                .collect(alloc)?,
        )
    }

    /// What a row leads to: a module, a container, a list, a grouping, a choice and a case to the rows directly in it that make
    /// nodes, a leaf, a leaf-list and a typedef to its type, and a uses and a type to what its name leads to.
    #[tactic(auto, unfolding(crate::specs::Graph::leading))]
    pub fn leading(&self, alloc: Global, at: usize) -> Result<Vec<usize>, NoMemory>
        ensures { IfOk result (λ list. list.items ≡ spec.leading self.now at) }
    {
        let Some(row) = self.rows().row(at) else {
            return Ok(Vec::new(alloc));
        };
        match row.word {
            Word::Module => self.parts(alloc, at),
            Word::Container => self.parts(alloc, at),
            Word::List => self.parts(alloc, at),
            Word::Grouping => self.parts(alloc, at),
            Word::Choice => self.parts(alloc, at),
            Word::Case => self.parts(alloc, at),
            Word::Leaf => listed(alloc, self.rows().first_below(at, Word::Type)),
            Word::LeafList => listed(alloc, self.rows().first_below(at, Word::Type)),
            Word::Typedef => listed(alloc, self.rows().first_below(at, Word::Type)),
            Word::Uses => listed(alloc, self.leads_to(at)),
            Word::Type => listed(alloc, self.leads_to(at)),
            _ => Ok(Vec::new(alloc)),
        }
    }

    /// The graph of what each row leads to, in which no row may lead to itself.
    pub fn successors(&self, alloc: Global) -> Result<Vec<Vec<usize>>, NoMemory>
        ensures { IfOk result (λ graph. spec.IsGraphOf self.now graph.items) }
    {
        let mut graph = Vec::new(alloc);
        for at in 0..self.rows().len() {
            match self.leading(alloc, at) {
                Ok(list) => graph.push(list)?,
                Err(error) => return Err(error),
            }
        }
        Ok(graph)
    }
}

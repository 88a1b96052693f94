//! The nodes and the least fault that were found so far.

ghost use Rattle.std.specs.Prelude.{◌≡◌, OnOk};
ghost use Rattle.nm_edit_json.specs.Noted as spec;
ghost use Rattle.nm_edit_json.specs.Findings.{named, wrong};

use crate::fault::{Fault, FaultKind, fault_at, note_lesser};
use crate::nodes::{Nodes, Told};
use nm_base::NoMemory;
use nm_edit::EditNode;
use nm_types::Path;
use std::alloc::Global;

/// The nodes that were found, and the least of the faults.
#[derive(Drop)]
pub struct Gathered {
    pub nodes: Nodes,
    pub least: Option<Fault>,
}

impl Gathered {
    /// No nodes and no fault.
    pub fn new(alloc: Global) -> Gathered
        ensures { result ≡ spec.nothing }
    {
        Gathered {
            nodes: Nodes::new(alloc),
            least: None,
        }
    }

    /// A fault more.
    pub fn note_fault(&mut self, alloc: Global, fault: Fault) -> Result<(), NoMemory>
        ensures { OnOk result (self.new ≡ spec.noted self.old (wrong fault)) }
    {
        note_lesser(alloc, &mut self.least, fault)
    }

    // A fault where there is a node with a path.
    fn note_repeated(&mut self, alloc: Global, path: &Path) -> Result<(), NoMemory>
        ensures nodes { OnOk result (self.new.nodes ≡ self.old.nodes) }
        ensures least { OnOk result (self.new.least ≡ spec.with_node self.old.nodes self.old.least path.now) }
    {
        if !self.nodes.has(path) {
            return Ok(());
        }
        let path = path.copy(alloc)?;
        note_lesser(alloc, &mut self.least, fault_at(path, FaultKind::Invalid))
    }

    /// A node more, which is a fault where there is one with its path.
    pub fn note_node(&mut self, alloc: Global, node: EditNode) -> Result<(), NoMemory>
        ensures { OnOk result (self.new ≡ spec.noted self.old (named node)) }
    {
        match self.note_repeated(alloc, &node.path) {
            Ok(()) => {
                let EditNode {
                    path,
                    operation,
                    value,
                } = node;
                self.nodes.put(path, Told { operation, value })
            }
            Err(error) => {
                drop(node);
                Err(error)
            }
        }
    }
}

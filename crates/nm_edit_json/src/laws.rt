//! What annotations say in terms of their whole JSON value, and what is read in terms of all faults and nodes. Each function
//! does nothing: its contract is the law.

ghost use Rattle.std.specs.Prelude.{◌≡◌, ◌↔◌, ◌⊎◌, List, Some, Ok, Err};
ghost use Rattle.serde_json.specs.Data.{Data};
ghost use Rattle.nm_proto.specs.Content.{Refusal};
ghost use Rattle.nm_schema_tree.specs.Nodes.{SchemaTree};
ghost use Rattle.nm_edit.specs.declared.operation.Operation.{Operation as AnyOperation};
ghost use Rattle.nm_edit.specs.declared.edit.EditNode.{EditNode as NamedNode};
ghost use Rattle.nm_edit_json.specs.Annotations as spec;
ghost use Rattle.nm_edit_json.specs.Whole.{edit_read};
ghost use Rattle.nm_edit_json.specs.Laws as law;

/// A JSON value says an operation exactly where it is the object with that annotation alone.
pub fn told()
    ensures { (d : Data) (operation : AnyOperation) → (spec.operation_in d ≡ Some operation) ↔ (d ≡ spec.annotation operation) }
{}

/// A refusal is the least of all faults, or there is none and there are too many nodes.
pub fn least_fault()
    ensures { (t : SchemaTree) (d : Data) (refusal : Refusal) → edit_read t d ≡ Err refusal
        → law.HasLeast t (law.all_faults t d) refusal ⊎ law.HasTooMany t d refusal }
{}

/// An edit is answered exactly where there is no fault: that of all nodes, which are at most 5,000.
pub fn all_nodes()
    ensures { (t : SchemaTree) (d : Data) (nodes : List NamedNode) → (edit_read t d ≡ Ok nodes) ↔ law.HasNodes t d nodes }
{}

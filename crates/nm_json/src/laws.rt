//! Laws of what is read. Each function does nothing: its contract is the law.

ghost use Rattle.std.specs.Prelude.{◌≡◌, ◌↔◌, ◌≤◌, ℕ, List, length, Some, Ok, Err};
ghost use Rattle.std.specs.FinMap.{get};
ghost use Rattle.serde_json.specs.Data.{Data, depth};
ghost use Rattle.serde_json.specs.Read.{max_depth};
ghost use Rattle.nm_types.specs.LeafType.{TypeOfLeaf};
ghost use Rattle.nm_types.specs.Path.{PathStep};
ghost use Rattle.nm_types.specs.declared.value.Value.{Value};
ghost use Rattle.nm_schema_tree.specs.Nodes.{SchemaTree};
ghost use Rattle.nm_path.specs.Sound.{IsSound, HaveHeldBounds};
ghost use Rattle.nm_config.specs.Rows.{Rows};
ghost use Rattle.nm_json.specs.declared.fault.JsonKind.{JsonKind as Kind};
ghost use Rattle.nm_json.specs.declared.fault.JsonFault.TheVariants.{Bad};
ghost use Rattle.nm_json.specs.Values.{leaf_value};
ghost use Rattle.nm_json.specs.Writing.{value_data, narrow_kind, config_data};
ghost use Rattle.nm_json.specs.Whole.{config_read};
ghost use Rattle.nm_json.specs.Configs.{IsConfigOf};
ghost use Rattle.nm_json.specs.Laws as spec;

/// A fault that is answered is the least of all faults of the value.
pub fn least_fault()
    ensures { (t : SchemaTree) (d : Data) (kind : Kind) (text : List ℕ) → config_read t d ≡ Err (Bad kind text)
        → spec.HasLeast t (spec.all_faults t d) kind text }
{}

/// A configuration is answered exactly where there is no fault: that of all rows, which are at most 20,000.
pub fn all_rows()
    ensures { (t : SchemaTree) (d : Data) (rows : Rows) → (config_read t d ≡ Ok rows) ↔ spec.HasRows t d rows }
{}

/// In which order the items of arrays stand changes nothing of what is read.
pub fn any_order()
    ensures { (t : SchemaTree) (d e : Data) → spec.Reordered d e → config_read t d ≡ config_read t e }
{}

/// The JSON value that is written for a value of a type is read as that value.
pub fn written_values()
    ensures { (t : TypeOfLeaf) (v : Value) → spec.IsYangType t → spec.IsOfType t v → leaf_value t (value_data (narrow_kind t.kind) v) ≡ Ok v }
{}

/// The JSON value that is written for a configuration of a schema is read as that configuration.
pub fn written_configs()
    ensures { (t : SchemaTree) (rows : Rows) → IsSound t.nodes → IsConfigOf t rows → config_read t (config_data t rows) ≡ Ok rows }
{}

/// What is read by a schema is a configuration of it. So what was read and is written is read the same.
pub fn configs_only()
    ensures { (t : SchemaTree) (d : Data) (rows : Rows) → HaveHeldBounds t.nodes → config_read t d ≡ Ok rows → IsConfigOf t rows }
{}

/// What was read and is written is read the same.
pub fn read_again()
    ensures { (t : SchemaTree) (d : Data) (rows : Rows) → IsSound t.nodes → config_read t d ≡ Ok rows → config_read t (config_data t rows) ≡ Ok rows }
{}

/// Where no path has more than 62 steps, the JSON value that is written nests at most 127 deep.
pub fn shallow_values()
    ensures { (t : SchemaTree) (rows : Rows) → ((path : List PathStep) (v : Value) → get rows path ≡ Some v → length path ≤ 62)
        → depth (config_data t rows) ≤ max_depth }
{}

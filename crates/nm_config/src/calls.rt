//! The calls on a configuration as functions, under the names that finite maps have for them.

ghost use Rattle.std.specs.Prelude.{◌≡◌, IfOk, OnOk, OnErr, option_copied};
ghost use Rattle.std.specs.FinMap as map;
ghost use Rattle.nm_config.specs.Under.{without_under};

use crate::config::Config;
use nm_base::NoMemory;
use nm_types::{Path, Value};

/// The value of the row at a path. It takes no memory.
pub fn get<'a>(config: &'a Config, path: &Path) -> Option<&'a Value>
    ensures { option_copied result ≡ map.get config.now path.now }
{
    config.value(path)
}

/// Gives the row at a path this value.
pub fn insert(config: &mut Config, path: Path, value: Value) -> Result<(), NoMemory>
    ensures ok { OnOk result (config.new ≡ map.insert config.old path value) }
    ensures err { OnErr result (config.new ≡ config.old) }
{
    config.put(path, value)?;
    Ok(())
}

/// Takes away the row at a node and each row below it. It needs no memory, though it is faster with some.
pub fn remove_under(config: &mut Config, node: &Path)
    ensures { config.new ≡ without_under config.old node.now }
{
    config.remove_under(node);
}

/// An equal configuration.
pub fn copy(config: &Config) -> Result<Config, NoMemory>
    ensures { IfOk result (λ copied. copied ≡ config.now) }
{
    config.copy()
}

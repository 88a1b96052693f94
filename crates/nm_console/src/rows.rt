//! How many rows running configurations have.

ghost use Rattle.std.specs.Prelude.{◌≡◌, IfOk, map};
ghost use Rattle.nm_console.specs.Rows.{data_rows_told, rows_told};

use nm_base::NoMemory;
use nm_config::Config;
use nm_content::outside_rows;
use nm_proto::Content;
use std::alloc::Global;

/// How many rows each configuration of a content has outside the marks of change sets.
pub fn rows_of<C: Content>(
    alloc: Global,
    content: &C,
    devices: &[C::Config],
) -> Result<Vec<u32>, NoMemory>
    ensures { IfOk result (λ rows. rows.items ≡ map (rows_told (C.meaning content.now)) devices.now) }
{
    let mut rows = Vec::new(alloc);
    for device in devices {
        rows.push(content.rows(device))?;
    }
    Ok(rows)
}

/// How many rows each configuration of YANG data has outside the marks of change sets.
pub fn data_rows_of(alloc: Global, devices: &[Config]) -> Result<Vec<u32>, NoMemory>
    ensures { IfOk result (λ rows. rows.items ≡ map data_rows_told devices.now) }
{
    let mut rows = Vec::new(alloc);
    for device in devices {
        rows.push(outside_rows(device))?;
    }
    Ok(rows)
}

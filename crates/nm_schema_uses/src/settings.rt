//! What is known of rows as configuration and state, and of their sizes.

ghost use Rattle.std.specs.Prelude.{◌≡◌, IfOk, length};
ghost use Rattle.nm_graph.specs.Graph.{IsGraph, successors_of};
ghost use Rattle.nm_schema_uses.specs.Settled.{AreSettings};

use crate::config::{below_state, kept_graph, rooted};
use crate::sizes::{COUNT_LIMIT, HEIGHT_LIMIT, counts, heights};
use nm_base::NoMemory;
use nm_graph::order;
use nm_schema_statements::Rows;
use std::alloc::Global;

/// What is known of rows as configuration and state, and of their sizes.
#[derive(Drop)]
pub(crate) struct Settings {
    /// Whether a module leads to the row through no state.
    pub configured: Vec<bool>,
    /// Whether the row is state, or state leads to it.
    pub in_state: Vec<bool>,
    /// How many nodes of configuration stand at and below the row, up to `COUNT_LIMIT`.
    pub counts: Vec<Option<usize>>,
    /// How many of them stand one in another, up to `HEIGHT_LIMIT`.
    pub heights: Vec<Option<usize>>,
}

pub(crate) fn settings_of(
    alloc: Global,
    rows: &Rows,
    graph: &[Vec<usize>],
) -> Result<Settings, NoMemory>
    requires graph { IsGraph graph.now }
    requires size { length graph.now ≡ length rows.now }
    ensures { IfOk result (AreSettings (successors_of graph.now) rows.now) }
{
    let kept = kept_graph(alloc, rows, graph)?;
    let ordered = order(alloc, &kept)?;
    let configured = rooted(alloc, rows, &kept)?;
    let in_state = below_state(alloc, rows, graph)?;
    let counts = counts(alloc, rows, &kept, &ordered.nodes)?;
    let heights = heights(alloc, rows, &kept, &ordered.nodes)?;
    Ok(Settings {
        configured,
        in_state,
        counts,
        heights,
    })
}

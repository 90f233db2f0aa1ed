//! The rows that are asked for, each once.

ghost use Rattle.std.specs.Prelude.{◌≡◌, ◌+◌, ◌*◌, ◌<◌, ◌≤◌, ◌^◌, All, IfOk, length};
ghost use Rattle.mono_dynamic.specs.LeastRows.{cost_slot, IsCostSource};
ghost use Rattle.mono_dynamic.specs.Sources.{AreApart, AreMore, HaveRows, IsRowTable, IsServed};

use crate::cost_source::CostSource;
use std::alloc::{AllocError, Global};

/// The sources of rows, one for each node and measure that is asked for, and for each that asks which row is its own.
#[derive(Drop)]
pub struct Sources {
    /// The sources of the rows.
    pub rows: Vec<CostSource>,
    /// By place of those that ask the row.
    pub row_of: Vec<u32>,
}

/// The row that serves what is wanted, which is a new one where the slot has none.
fn row_for(
    table: &mut Vec<Option<u32>>,
    rows: &mut Vec<CostSource>,
    nodes: u32,
    wanted: CostSource,
) -> Result<u32, AllocError>
    requires table { IsRowTable cost_slot table.old.items rows.old.items }
    requires size { length table.old.items ≡ nodes * 3 }
    requires wanted { IsCostSource nodes wanted }
    requires known { All (IsCostSource nodes) rows.old.items }
    requires few { length rows.old.items < 2 ^ 32 }
    ensures table { IfOk result (λ _. IsRowTable cost_slot table.new.items rows.new.items) }
    ensures size { IfOk result (λ _. length table.new.items ≡ length table.old.items) }
    ensures known { IfOk result (λ _. All (IsCostSource nodes) rows.new.items) }
    ensures few { IfOk result (λ _. length rows.new.items ≤ length rows.old.items + 1) }
    ensures more { IfOk result (λ _. AreMore cost_slot (λ s. s.cap) rows.old.items rows.new.items) }
    ensures served { IfOk result (IsServed cost_slot (λ s. s.cap) wanted rows.new.items) }
{
    let slot = wanted.slot(nodes);
    if let Some(row) = table[slot] {
        rows[row as usize] = rows[row as usize].joined(wanted);
        return Ok(row);
    }
    let row = rows.len() as u32;
    rows.push(wanted)?;
    table[slot] = Some(row);
    Ok(row)
}

impl Sources {
    /// The rows for all that is asked in a graph with so many nodes.
    pub fn of(alloc: Global, nodes: u32, asked: &[CostSource]) -> Result<Self, AllocError>
        requires known { All (IsCostSource nodes) asked.now }
        requires few { length asked.now < 2 ^ 32 }
        ensures known { IfOk result (λ s. All (IsCostSource nodes) s.rows.items) }
        ensures few { IfOk result (λ s. length s.rows.items ≤ length asked.now) }
        ensures apart { IfOk result (λ s. AreApart cost_slot s.rows.items) }
        ensures rows { IfOk result (λ s. HaveRows cost_slot (λ x. x.cap) asked.now (length asked.now) s.row_of.items s.rows.items) }
    {
        let mut table = vec![in alloc; None; CostSource::slots(nodes)]?;
        let mut rows = Vec::new(alloc);
        let mut row_of = Vec::new(alloc);
        for wanted in asked {
            let row = row_for(&mut table, &mut rows, nodes, *wanted)?;
            row_of.push(row)?;
        }
        Ok(Sources { rows, row_of })
    }
}

//! The aggregate of rows.

ghost use Rattle.std.specs.Prelude.{◌≡◌, IfOk};
ghost use Rattle.profile_rows.specs.Aggregate.{AreRowsOf, aggregates_of};
ghost use Rattle.profile_rows.specs.LentStacks.{lent_rows};

use crate::batch::Batch;
use crate::stack::Stack;
use crate::values::{Weights, Width};
use basics::NoMemory;
use std::alloc::Global;
use std::collections::BTreeMap;

/// The entries of a map as rows of this width, in the order of their stacks.
fn batch_of_weights(
    alloc: Global,
    width: Width,
    weights: &BTreeMap<&Stack, Weights>,
) -> Result<Batch, NoMemory>
    ensures width { IfOk result (λ batch. batch.width ≡ width) }
    ensures rows { IfOk result (λ batch. batch.rows ≡ lent_rows weights.now) }
{
    let mut batch = Batch::new(alloc, width);
    for (stack, weights) in weights.iter() {
        let stack = (*stack).clone()?;
        batch.push(stack, *weights).map_err(|_| NoMemory)?;
    }
    Ok(batch)
}

/// Each stack of some value above 0 once, with the sum of each value, in the order of stacks. Names are shared.
///
/// # Errors
///
/// `NoMemory`.
pub fn aggregate(alloc: Global, batch: &Batch) -> Result<Batch, NoMemory>
    ensures width { IfOk result (λ rows. rows.width ≡ batch.now.width) }
    ensures rows { IfOk result (λ result. AreRowsOf (aggregates_of batch.now.rows) result.rows) }
{
    let none = Weights::zero(batch.width());
    let mut weights = BTreeMap::new(alloc);
    for at in 0..batch.len() {
        let row = batch.row(at);
        if row.weights.weighs_something() {
            let held = weights.get(&row.stack).copied().unwrap_or(none);
            if let Err(_) = weights.insert(row.stack, held.plus(&row.weights)) {
                return Err(NoMemory);
            }
        }
    }
    batch_of_weights(alloc, batch.width(), &weights)
}

//! A law of audited logs, the contract of a function that does nothing. A caller calls it to use the law.

ghost use Rattle.std.specs.Prelude.{◌≡◌, ℕ, IsPermutation, List, map};
ghost use Rattle.std.specs.List.{filter};
ghost use Rattle.profile_rows.specs.Aggregate.{aggregate_of, aggregates_of};
ghost use Rattle.profile_rows.specs.Values.{rows_at};
ghost use Rattle.op_book.specs.Operations.{PlainOp, counting_from, is_change, profile_after};
ghost use Rattle.op_book.specs.Runs.{IsLegal};
ghost use Rattle.op_book.specs.declared.entry.SessionLog.{SessionLog};
ghost use Rattle.log_audit.specs.Logs.{rows_logged};
ghost use Rattle.log_audit.specs.Matching.{PlainStep, steps_in};

use profile_rows::laws::aggregate_is_by_weights;

/// What logs tell of is what counts: where an audit gave a run of them, the rows of their additions, from the place on
/// that is after the journal's last reset, add up to its profile, log after log. So a service knows from what its
/// sessions were told what the store has in the end, whatever the order was in which they came to it.
pub fn logs_add_up()
    ensures { (logs : List SessionLog) (run : List PlainStep) (operations : List PlainOp)
        → IsPermutation (steps_in logs) run → IsLegal (λ step. step.op) (λ step. step.reply) run
        → filter is_change (map (λ step. step.op) run) ≡ operations → (value : ℕ)
        → aggregate_of (rows_at value (rows_logged (counting_from operations) logs))
        ≡ aggregates_of (profile_after operations) value }
{
    aggregate_is_by_weights();
}

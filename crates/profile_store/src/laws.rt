//! Laws of the definitions that the contracts speak of, each the contract of a function that does nothing.

pub use flame_report::laws::{
    answers_are_by_the_aggregate, children_lie_inside, columns_keep_order, own_weight_lies_right,
    parents_are_shown, rectangles_come_in_order, siblings_meet,
};
pub use log_audit::laws::logs_add_up;
pub use op_book::laws::additions_count_since_the_last_reset;
pub use pprof_profile::laws::{
    canonical_bytes_spell_the_draft, draft_by_its_fields, gzip_spells_no_draft, one_profile,
    one_profile_or_fault,
};
pub use stack_text::laws::{
    a_text_has_one_first_fault, aggregate_has_weights, aggregate_is_by_weights,
    aggregate_of_its_rows, aggregate_of_more_rows, aggregates_of_parts_add_up, batch_of_one_value,
    export_reads_back, kept_rows_are_by_the_aggregate, one_first_fault,
    rectangles_are_by_the_aggregate, reports_of_parts_add_up, rows_at_of_more_rows,
    rows_of_aggregates_are_unique, rows_of_one_value, stack_texts_are_in_the_order_of_stacks,
    sums_are_those_of_the_aggregate, top_list_is_front_of_sorted, top_lists_are_by_the_aggregate,
    written_rows_read_back,
};

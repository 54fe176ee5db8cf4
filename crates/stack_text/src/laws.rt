//! Laws of the definitions that the contracts speak of, each the contract of a function that does nothing.

pub use folded_text::laws::{
    a_text_has_one_first_fault, reports_of_parts_add_up, written_rows_read_back,
};
pub use ordered_rows::laws::stack_texts_are_in_the_order_of_stacks;
pub use profile_rows::laws::{
    aggregate_has_weights, aggregate_is_by_weights, aggregate_of_its_rows, aggregate_of_more_rows,
    aggregates_of_parts_add_up, batch_of_one_value, kept_rows_are_by_the_aggregate,
    rectangles_are_by_the_aggregate, rows_at_of_more_rows, rows_of_aggregates_are_unique,
    sums_are_those_of_the_aggregate, top_list_is_front_of_sorted, top_lists_are_by_the_aggregate,
};
pub use profile_samples::laws::{export_reads_back, one_first_fault, rows_of_one_value};

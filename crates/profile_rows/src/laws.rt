//! Laws of the definitions in `specs/`, each the contract of a function that does nothing. A caller calls one to use
//! its law.
#![tactic(auto, using(crate::proofs::Steps::laws))]

ghost use Rattle.std.specs.Prelude.{ℕ, ◌≡◌, ◌++◌, All, Bool, List, Option, IsPermutation, IsSorted, length, take};
ghost use Rattle.profile_rows.specs.declared.weighted_stacks.WeightedStack.{WeightedStack};
ghost use Rattle.profile_rows.specs.declared.frame_totals.FrameTotal.{FrameTotal};
ghost use Rattle.profile_rows.specs.Rows.{kept_rows, weight_of, weight_where};
ghost use Rattle.profile_rows.specs.Aggregate.{AreRowsOf, Weighted, aggregate_of, rows_of, weight_in, with_rows};
ghost use Rattle.profile_rows.specs.Values.{BatchState, IsBatch, Row, rows_at, single_batch};
ghost use Rattle.profile_rows.specs.Layout.{rectangles_of};
ghost use Rattle.profile_rows.specs.TopList.{AreSumsOf, Ranking, top_cmp, top_list_of};

/// However the weights of the names were sorted by a top list's order, the front of what came out is the top list.
pub fn top_list_is_front_of_sorted()
    ensures { (ranking : Ranking) (count : ℕ) (rows : List WeightedStack) (sums ranked : List FrameTotal)
        → AreSumsOf rows sums → IsPermutation sums ranked → IsSorted (top_cmp ranking) ranked
        → take count ranked ≡ top_list_of ranking count rows }
{}

/// The aggregate has each stack's weight.
pub fn aggregate_has_weights()
    ensures { (rows : List WeightedStack) (stack : List (List ℕ))
        → weight_in (aggregate_of rows) stack ≡ weight_of rows stack }
{}

/// Rows in which each stack weighs as much have one aggregate: so it is the same in every order of the rows.
pub fn aggregate_is_by_weights()
    ensures { (rows others : List WeightedStack)
        → ((stack : List (List ℕ)) → weight_of rows stack ≡ weight_of others stack)
        → aggregate_of rows ≡ aggregate_of others }
{}

/// More rows are added to the aggregate of those before.
pub fn aggregate_of_more_rows()
    ensures { (rows more : List WeightedStack) → aggregate_of (rows ++ more) ≡ with_rows (aggregate_of rows) more }
{}

/// The rows of aggregates, put together, add up to the aggregate of all rows: so parts can be added up by themselves.
pub fn aggregates_of_parts_add_up()
    ensures { (rows more : List WeightedStack)
        → aggregate_of (rows_of (aggregate_of rows) ++ rows_of (aggregate_of more)) ≡ aggregate_of (rows ++ more) }
{}

/// A sum over rows, each once, depends on their aggregate alone: total, flat and cumulative weight, widths and starts
/// of paths.
pub fn sums_are_those_of_the_aggregate()
    ensures rows { (test : List (List ℕ) → Bool) (rows : List WeightedStack)
        → weight_where test (rows_of (aggregate_of rows)) ≡ weight_where test rows }
    ensures same { (test : List (List ℕ) → Bool) (rows others : List WeightedStack)
        → aggregate_of rows ≡ aggregate_of others
        → weight_where test rows ≡ weight_where test others }
{}

/// One value of more rows is that of the rows and of those after them.
pub fn rows_at_of_more_rows()
    ensures { (value : ℕ) (rows more : List Row)
        → rows_at value (rows ++ more) ≡ rows_at value rows ++ rows_at value more }
{}

/// A batch of one value is that of its rows by this value.
pub fn batch_of_one_value()
    ensures { (batch : BatchState) → IsBatch batch → batch.width ≡ 1
        → single_batch (rows_at 0 batch.rows) ≡ batch }
{}

/// Rows of one width that are those of the same maps are equal: an aggregate has one form.
pub fn rows_of_aggregates_are_unique()
    ensures { (width : ℕ) (weights : ℕ → Weighted) (rows others : List Row)
        → All (λ row. length row.weights ≡ width) rows → All (λ row. length row.weights ≡ width) others
        → AreRowsOf weights rows → AreRowsOf weights others → rows ≡ others }
{}

/// The aggregate's rows add up to the aggregate.
pub fn aggregate_of_its_rows()
    ensures { (rows : List WeightedStack) → aggregate_of (rows_of (aggregate_of rows)) ≡ aggregate_of rows }
{}

/// What is kept of the rows of one aggregate has one aggregate.
pub fn kept_rows_are_by_the_aggregate()
    ensures { (focus ignored : Option (List ℕ)) (rows others : List WeightedStack)
        → aggregate_of rows ≡ aggregate_of others
        → aggregate_of (kept_rows focus ignored rows) ≡ aggregate_of (kept_rows focus ignored others) }
{}

/// Top lists depend on the aggregate of the rows alone.
pub fn top_lists_are_by_the_aggregate()
    ensures { (ranking : Ranking) (count : ℕ) (rows others : List WeightedStack)
        → aggregate_of rows ≡ aggregate_of others
        → top_list_of ranking count rows ≡ top_list_of ranking count others }
{}

/// The rectangles of a flame graph depend on the aggregate of the rows alone.
pub fn rectangles_are_by_the_aggregate()
    ensures { (columns : ℕ) (rows others : List WeightedStack) → aggregate_of rows ≡ aggregate_of others
        → rectangles_of columns rows ≡ rectangles_of columns others }
{}

//! Laws of layouts and answers, each the contract of a function that does nothing. A caller calls one to use its law.

ghost use Rattle.std.specs.Prelude.{ℕ, ◌≡◌, ◌≤◌, ◌<◌, ◌↔◌, ◌+◌, ◌++◌, ◌∷◌, [], AllPairs, List, Contains, filter, map};
ghost use Rattle.std.specs.Prelude.{true};
ghost use Rattle.std.specs.declared.cmp.Ordering.TheVariants.{Less};
ghost use Rattle.profile_rows.specs.declared.weighted_stacks.WeightedStack.{WeightedStack};
ghost use Rattle.profile_rows.specs.Aggregate.{aggregate_of, rows_of};
ghost use Rattle.flame_report.specs.Answers.{answer_of};
ghost use Rattle.flame_report.specs.declared.query.Query.{Query};
ghost use Rattle.profile_rows.specs.Layout.{is_shown, rectangle_at, rectangles_of};
ghost use Rattle.profile_rows.specs.Names.{name_cmp};
ghost use Rattle.profile_rows.specs.Paths.{path_start, path_weight, paths_of};
ghost use Rattle.profile_rows.specs.Rows.{stack_cmp, weight_of};

/// The children of a path stand side by side, in the order of their names: the first starts where the path does, and
/// each other where the one before it ends. Between two neighbours no name has weight.
pub fn siblings_meet()
    ensures first { (rows : List WeightedStack) (path : List (List ℕ)) (child : List ℕ)
        → ((name : List ℕ) → name_cmp name child ≡ Less → path_weight rows (path ++ name ∷ []) ≡ 0)
        → path_start rows (path ++ child ∷ []) ≡ path_start rows path }
    ensures next { (rows : List WeightedStack) (path : List (List ℕ)) (child following : List ℕ)
        → name_cmp child following ≡ Less
        → ((name : List ℕ) → name_cmp child name ≡ Less → name_cmp name following ≡ Less
        → path_weight rows (path ++ name ∷ []) ≡ 0)
        → path_start rows (path ++ following ∷ [])
        ≡ path_start rows (path ++ child ∷ []) + path_weight rows (path ++ child ∷ []) }
{}

/// After the last child of a path there is the path's own weight, and nothing else; a path without children is its own
/// weight.
pub fn own_weight_lies_right()
    ensures last { (rows : List WeightedStack) (path : List (List ℕ)) (child : List ℕ)
        → ((name : List ℕ) → name_cmp child name ≡ Less → path_weight rows (path ++ name ∷ []) ≡ 0)
        → path_start rows (path ++ child ∷ []) + path_weight rows (path ++ child ∷ []) + weight_of rows path
        ≡ path_start rows path + path_weight rows path }
    ensures alone { (rows : List WeightedStack) (path : List (List ℕ))
        → ((name : List ℕ) → path_weight rows (path ++ name ∷ []) ≡ 0)
        → path_weight rows path ≡ weight_of rows path }
{}

/// A longer path lies inside its beginning, in weight and in columns.
pub fn children_lie_inside()
    ensures starts { (rows : List WeightedStack) (path rest : List (List ℕ))
        → path_start rows path ≤ path_start rows (path ++ rest) }
    ensures ends { (rows : List WeightedStack) (path rest : List (List ℕ))
        → path_start rows (path ++ rest) + path_weight rows (path ++ rest)
        ≤ path_start rows path + path_weight rows path }
    ensures left { (columns : ℕ) (rows : List WeightedStack) (path rest : List (List ℕ))
        → (rectangle_at columns rows path).left ≤ (rectangle_at columns rows (path ++ rest)).left }
    ensures right { (columns : ℕ) (rows : List WeightedStack) (path rest : List (List ℕ))
        → (rectangle_at columns rows (path ++ rest)).right ≤ (rectangle_at columns rows path).right }
{}

/// Of two siblings the one of the smaller name ends no later than the other starts, in weight and in columns.
pub fn columns_keep_order()
    ensures weights { (rows : List WeightedStack) (path : List (List ℕ)) (child later : List ℕ)
        → name_cmp child later ≡ Less
        → path_start rows (path ++ child ∷ []) + path_weight rows (path ++ child ∷ [])
        ≤ path_start rows (path ++ later ∷ []) }
    ensures columns { (columns : ℕ) (rows : List WeightedStack) (path : List (List ℕ)) (child later : List ℕ)
        → name_cmp child later ≡ Less
        → (rectangle_at columns rows (path ++ child ∷ [])).right
        ≤ (rectangle_at columns rows (path ++ later ∷ [])).left }
{}

/// The rectangles have that of every path that takes a column, and with a path's rectangle that of each of its
/// prefixes.
pub fn parents_are_shown()
    ensures shown { (columns : ℕ) (rows : List WeightedStack) (path : List (List ℕ))
        → is_shown (rectangle_at columns rows path) ≡ true
        → Contains (rectangles_of columns rows) (rectangle_at columns rows path) }
    ensures parents { (columns : ℕ) (rows : List WeightedStack) (path rest : List (List ℕ))
        → Contains (rectangles_of columns rows) (rectangle_at columns rows (path ++ rest))
        → Contains (rectangles_of columns rows) (rectangle_at columns rows path) }
{}

/// The paths of rows come in their order, each once: those that weigh something, and no others. The rectangles are
/// those of the paths that take a column, in the order of the paths.
pub fn rectangles_come_in_order()
    ensures ascending { (rows : List WeightedStack)
        → AllPairs (λ path after. stack_cmp path after ≡ Less) (paths_of rows) }
    ensures weighty { (rows : List WeightedStack) (path : List (List ℕ))
        → Contains (paths_of rows) path ↔ (0 < path_weight rows path) }
    ensures drawn { (columns : ℕ) (rows : List WeightedStack) → rectangles_of columns rows
        ≡ map (rectangle_at columns rows)
        (filter (λ path. is_shown (rectangle_at columns rows path)) (paths_of rows)) }
{}

/// The answer to a query depends on the aggregate of the rows alone (`same`), and is that over the rows in order
/// (`in_order`).
pub fn answers_are_by_the_aggregate()
    ensures same { (query : Query) (rows others : List WeightedStack) → aggregate_of rows ≡ aggregate_of others
        → answer_of rows query ≡ answer_of others query }
    ensures in_order { (query : Query) (rows : List WeightedStack)
        → answer_of (rows_of (aggregate_of rows)) query ≡ answer_of rows query }
{}

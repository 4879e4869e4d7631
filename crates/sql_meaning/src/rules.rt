//! Single rules of the meaning, each evaluated on its definition.

ghost use Rattle.std.specs.Prelude.{◌≡◌, List, [], ◌∷◌, false, pos, None, Some, Err, Ok};
ghost use Rattle.volt_value.specs.declared.value.Value.TheVariants.{Int, Null};
ghost use Rattle.expr_parse.specs.declared.expression.Comparison.TheVariants as compare;
ghost use Rattle.sql_plan.specs.declared.expression.Scalar.TheVariants.{Column};
ghost use Rattle.sql_plan.specs.declared.fault.Fault.{Fault};
ghost use Rattle.sql_plan.specs.declared.partial.Gathered.TheVariants as gathered;
ghost use Rattle.sql_plan.specs.declared.partial.Partial.TheVariants as partial;
ghost use Rattle.sql_plan.specs.declared.reply.Cause.TheVariants as cause;
ghost use Rattle.sql_plan.specs.declared.row_key.Directed.TheVariants.{Ascending};
ghost use Rattle.sql_plan.specs.declared.select.Aggregated.TheVariants.{Sum};
ghost use Rattle.sql_plan.specs.declared.select.SelectPlan.{SelectPlan};
ghost use Rattle.sql_plan.specs.Rows.{Cells};
ghost use Rattle.sql_meaning.specs.Database.{Database};
ghost use Rattle.sql_meaning.specs.Groups.{arguments_of};
ghost use Rattle.sql_meaning.specs.Parts.{part_of_total};
ghost use Rattle.sql_meaning.specs.Programs.{Aborts, Goes, Known, stepped};
ghost use Rattle.sql_meaning.specs.Selects.{all_kept, finished_rows, if_kept, is_kept, limit_of};
ghost use Rattle.sql_meaning.specs.Values.{comparison, is_true, opposite};

/// A comparison with NULL is unknown, that of NULL with NULL too. Neither it nor its NOT is true.
pub fn null_equals_nothing()
    ensures unknown { comparison compare.Equal Null Null ≡ None }
    ensures not_true { is_true (comparison compare.Equal Null Null) ≡ false }
    ensures not_false { is_true (opposite (comparison compare.Equal Null Null)) ≡ false }
{}

/// A row that WHERE drops has no fault of what it would give.
pub fn dropped_rows_have_no_fault()
    ensures { (select : SelectPlan) (row args : Cells) (fault : Fault) → is_kept select row args ≡ Ok false
        → if_kept {A = Cells} select (λ row args. Err fault) row args ≡ Ok None }
{}

/// Rows are put in order before LIMIT counts them.
pub fn first_rows_are_least()
    ensures { finished_rows (Some 1) ((Ascending (Int (pos 2)) ∷ [], Int (pos 2) ∷ [])
        ∷ (Ascending (Int (pos 1)) ∷ [], Int (pos 1) ∷ []) ∷ []) ≡ Ok ((Int (pos 1) ∷ []) ∷ []) }
{}

/// The sum of one part is exact: its range isn't judged there.
pub fn parts_judge_no_sum()
    ensures { (select : SelectPlan) (args : Cells) (db : Database)
        → all_kept select (arguments_of (Sum (Column 0) ∷ [])) args db
        ≡ Ok ((Int (pos 9223372036854775807) ∷ []) ∷ (Int (pos 1) ∷ []) ∷ [])
        → limit_of select.limit args ≡ Ok None
        → part_of_total select (Sum (Column 0) ∷ []) args db
        ≡ Ok (partial.Groups (record { key = []; gathered = gathered.Sum (Some (pos 9223372036854775808)) ∷ [] } ∷ []) None) }
{}

/// The 100,000th step is taken, and the one behind it is aborted.
pub fn steps_have_a_limit()
    ensures last { (known : Known) (go : Goes) → known.steps ≡ 99999
        → stepped known go ≡ go (record known { steps = 100000 }) }
    ensures beyond { (known : Known) (go : Goes) → known.steps ≡ 100000
        → stepped known go ≡ Aborts cause.Steps }
{}

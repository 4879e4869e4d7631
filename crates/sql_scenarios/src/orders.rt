//! The order of rows without groups, and two tables in one FROM.

ghost use Rattle.std.specs.Prelude.{◌≡◌, List, [], ◌∷◌, length, pos, Err, None, Ok, Some};
ghost use Rattle.expr_parse.specs.declared.expression.Comparison.TheVariants as compare;
ghost use Rattle.sql_plan.specs.declared.fault.Fault.TheVariants.{DivideByZero, TooManyRows};
ghost use Rattle.sql_plan.specs.declared.expression.Scalar.TheVariants.{Column as Col};
ghost use Rattle.sql_plan.specs.declared.expression.Cond.TheVariants.{And, Compare};
ghost use Rattle.sql_plan.specs.declared.select.RowLimit.TheVariants.{Number};
ghost use Rattle.sql_plan.specs.Rows.{Cells};
ghost use Rattle.sql_meaning.specs.Selects.{if_few};
ghost use Rattle.sql_meaning.specs.WellFormed.{ascending};
ghost use Rattle.sql_scenarios.specs.Builders.{Fails, Gives, PartsGive, divided, ids, int, num, too_great};
ghost use Rattle.sql_scenarios.specs.Pairs.{a, b, catalog, descending, every, grouped, ids_by, joined, with_zero};

/// NULL comes first, and last under DESC. Rows that are equal by ORDER BY come in the order of their keys.
pub fn order_of_rows()
    ensures by_b { Gives catalog (ids_by (ascending 2 ∷ []) None) grouped
        (ids (5 ∷ 6 ∷ 4 ∷ 2 ∷ 3 ∷ 1 ∷ [])) }
    ensures by_b_descending { Gives catalog (ids_by (descending 2 ∷ []) None) grouped
        (ids (1 ∷ 3 ∷ 2 ∷ 4 ∷ 5 ∷ 6 ∷ [])) }
    ensures by_both { Gives catalog (ids_by (descending 1 ∷ ascending 2 ∷ []) None) grouped
        (ids (3 ∷ 1 ∷ 5 ∷ 2 ∷ 6 ∷ 4 ∷ [])) }
    ensures first_three { Gives catalog (ids_by (ascending 1 ∷ []) (Some (Number (pos 3)))) grouped
        (ids (4 ∷ 6 ∷ 2 ∷ [])) }
    ensures two_in_parts { PartsGive 3 catalog (ids_by (ascending 1 ∷ []) (Some (Number (pos 2)))) grouped
        (ids (4 ∷ 6 ∷ [])) }
    ensures in_parts { PartsGive 3 catalog (ids_by (ascending 1 ∷ []) (Some (Number (pos 3)))) grouped
        (ids (4 ∷ 6 ∷ 2 ∷ [])) }
{}

/// Two tables: each row of the left one with each row of the right one, where ON is true and then WHERE.
/// A row whose ON isn't true has no fault of its WHERE.
pub fn rows_of_two_tables()
    ensures by_a { Gives catalog (joined (Compare compare.Equal a (Col 4)) every) grouped
        ((int 1 ∷ int 1 ∷ []) ∷ (int 1 ∷ int 3 ∷ []) ∷ (int 2 ∷ int 2 ∷ []) ∷ (int 2 ∷ int 5 ∷ [])
        ∷ (int 3 ∷ int 1 ∷ []) ∷ (int 3 ∷ int 3 ∷ []) ∷ (int 5 ∷ int 2 ∷ []) ∷ (int 5 ∷ int 5 ∷ []) ∷ []) }
    ensures by_id { Gives catalog (joined (Compare compare.Equal (Col 0) (Col 3))
        (Compare compare.Equal a (num 2))) grouped
        ((int 1 ∷ int 1 ∷ []) ∷ (int 3 ∷ int 3 ∷ []) ∷ []) }
    ensures in_parts { PartsGive 3 catalog (joined (Compare compare.Equal (Col 0) (Col 3))
        (Compare compare.Equal a (num 2))) grouped
        ((int 1 ∷ int 1 ∷ []) ∷ (int 3 ∷ int 3 ∷ []) ∷ []) }
    ensures on_hides { Gives catalog (joined (Compare compare.Equal a (num 7))
        (Compare compare.Equal too_great (num 1))) with_zero [] }
    ensures on_first { Fails catalog (joined (Compare compare.Equal (divided (num 10) a) (num 1))
        (Compare compare.Equal too_great (num 1))) with_zero DivideByZero }
{}

/// A result has at most 10,000 rows.
pub fn rows_of_a_result()
    ensures enough { (rows : List Cells) → length rows ≡ 10000 → if_few rows ≡ Ok rows }
    ensures too_many { (rows : List Cells) → length rows ≡ 10001 → if_few rows ≡ Err TooManyRows }
{}

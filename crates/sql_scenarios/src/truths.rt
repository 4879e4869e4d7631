//! Conditions over all choices of 1, 0 and NULL: which rows they hold for, and which ones their NOT
//! holds for. For all others they are unknown.

ghost use Rattle.std.specs.Prelude.{[], ◌∷◌, codes};
ghost use Rattle.volt_value.specs.declared.value.Value.TheVariants.{Text};
ghost use Rattle.expr_parse.specs.declared.expression.Comparison.TheVariants as compare;
ghost use Rattle.sql_plan.specs.declared.expression.Scalar.TheVariants.{Column as Col, Literal};
ghost use Rattle.sql_plan.specs.declared.expression.Cond.TheVariants.{And, Between, Compare, In, IsNull, Not, Or};
ghost use Rattle.sql_scenarios.specs.Builders.{Gives, ids, num, null};
ghost use Rattle.sql_scenarios.specs.Pairs.{a, b, a_holds, b_holds, catalog, ids_where, truths};
ghost use Rattle.sql_scenarios.specs.Notes.{four_notes, notes_where};
ghost use Rattle.sql_scenarios.specs.Notes as notes;

/// `a = 1` and `b = 1`, put together by AND, OR and NOT.
pub fn ands_and_ors()
    ensures both { Gives catalog (ids_where (And (a_holds ∷ b_holds ∷ []))) truths (ids (1 ∷ [])) }
    ensures not_both { Gives catalog (ids_where (Not (And (a_holds ∷ b_holds ∷ [])))) truths
        (ids (2 ∷ 4 ∷ 5 ∷ 6 ∷ 8 ∷ [])) }
    ensures either { Gives catalog (ids_where (Or (a_holds ∷ b_holds ∷ []))) truths
        (ids (1 ∷ 2 ∷ 3 ∷ 4 ∷ 7 ∷ [])) }
    ensures neither { Gives catalog (ids_where (Not (Or (a_holds ∷ b_holds ∷ [])))) truths (ids (5 ∷ [])) }
    ensures one { Gives catalog (ids_where a_holds) truths (ids (1 ∷ 2 ∷ 3 ∷ [])) }
    ensures not_one { Gives catalog (ids_where (Not a_holds)) truths (ids (4 ∷ 5 ∷ 6 ∷ [])) }
{}

/// Comparisons of `a` with `b`, and `a IS NULL`.
pub fn comparisons_with_null()
    ensures equal { Gives catalog (ids_where (Compare compare.Equal a b)) truths (ids (1 ∷ 5 ∷ [])) }
    ensures not_equal { Gives catalog (ids_where (Compare compare.NotEqual a b)) truths (ids (2 ∷ 4 ∷ [])) }
    ensures less { Gives catalog (ids_where (Compare compare.Less a b)) truths (ids (4 ∷ [])) }
    ensures not_less { Gives catalog (ids_where (Not (Compare compare.Less a b))) truths
        (ids (1 ∷ 2 ∷ 5 ∷ [])) }
    ensures less_or_equal { Gives catalog (ids_where (Compare compare.LessOrEqual a b)) truths
        (ids (1 ∷ 4 ∷ 5 ∷ [])) }
    ensures greater { Gives catalog (ids_where (Compare compare.Greater a b)) truths (ids (2 ∷ [])) }
    ensures greater_or_equal { Gives catalog (ids_where (Compare compare.GreaterOrEqual a b)) truths
        (ids (1 ∷ 2 ∷ 5 ∷ [])) }
    ensures is_null { Gives catalog (ids_where (IsNull a)) truths (ids (7 ∷ 8 ∷ 9 ∷ [])) }
    ensures is_not_null { Gives catalog (ids_where (Not (IsNull a))) truths
        (ids (1 ∷ 2 ∷ 3 ∷ 4 ∷ 5 ∷ 6 ∷ [])) }
{}

/// `1 IN (a, b)`, `NULL IN (a, b)`, `a IN (b, 2)` and `a IN (1, NULL)`.
pub fn lists_of_values()
    ensures one { Gives catalog (ids_where (In (num 1) (a ∷ b ∷ []))) truths
        (ids (1 ∷ 2 ∷ 3 ∷ 4 ∷ 7 ∷ [])) }
    ensures not_one { Gives catalog (ids_where (Not (In (num 1) (a ∷ b ∷ [])))) truths (ids (5 ∷ [])) }
    ensures of_null { Gives catalog (ids_where (In null (a ∷ b ∷ []))) truths (ids []) }
    ensures not_of_null { Gives catalog (ids_where (Not (In null (a ∷ b ∷ [])))) truths (ids []) }
    ensures among { Gives catalog (ids_where (In a (b ∷ num 2 ∷ []))) truths (ids (1 ∷ 5 ∷ [])) }
    ensures not_among { Gives catalog (ids_where (Not (In a (b ∷ num 2 ∷ [])))) truths (ids (2 ∷ 4 ∷ [])) }
    ensures among_null { Gives catalog (ids_where (In a (num 1 ∷ null ∷ []))) truths
        (ids (1 ∷ 2 ∷ 3 ∷ [])) }
    ensures not_among_null { Gives catalog (ids_where (Not (In a (num 1 ∷ null ∷ [])))) truths (ids []) }
{}

/// 0, 1 and NULL between `a` and `b`, and `a` between 2 and `b`.
pub fn ranges_of_values()
    ensures zero { Gives catalog (ids_where (Between (num 0) a b)) truths (ids (4 ∷ 5 ∷ [])) }
    ensures not_zero { Gives catalog (ids_where (Not (Between (num 0) a b))) truths (ids (1 ∷ 2 ∷ 3 ∷ [])) }
    ensures one { Gives catalog (ids_where (Between (num 1) a b)) truths (ids (1 ∷ 4 ∷ [])) }
    ensures not_one { Gives catalog (ids_where (Not (Between (num 1) a b))) truths (ids (2 ∷ 5 ∷ 8 ∷ [])) }
    ensures of_null { Gives catalog (ids_where (Between null a b)) truths (ids []) }
    ensures not_of_null { Gives catalog (ids_where (Not (Between null a b))) truths (ids []) }
    ensures above { Gives catalog (ids_where (Between a (num 2) b)) truths (ids []) }
    ensures not_above { Gives catalog (ids_where (Not (Between a (num 2) b))) truths
        (ids (1 ∷ 2 ∷ 3 ∷ 4 ∷ 5 ∷ 6 ∷ [])) }
{}

/// Texts compare by their bytes: the labels are `B`, `a`, `ab` and `b`.
pub fn texts_by_bytes()
    ensures less { Gives notes.catalog (notes_where (Compare compare.Less (Col 1)
        (Literal (Text (codes "a"))))) four_notes (ids (1 ∷ [])) }
    ensures between { Gives notes.catalog (notes_where (Between (Col 1) (Literal (Text (codes "a")))
        (Literal (Text (codes "ab"))))) four_notes (ids (2 ∷ 3 ∷ [])) }
    ensures among { Gives notes.catalog (notes_where (In (Col 1) (Literal (Text (codes "b"))
        ∷ Literal (Text (codes "B")) ∷ []))) four_notes (ids (1 ∷ 4 ∷ [])) }
{}

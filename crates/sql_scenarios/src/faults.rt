//! Which fault a SELECT has, where expressions and rows have several.

ghost use Rattle.std.specs.Prelude.{◌≡◌, [], ◌∷◌, negsuc, pos, Err, None, Some};
ghost use Rattle.volt_value.specs.declared.value.Value.TheVariants.{Int, Null};
ghost use Rattle.expr_parse.specs.declared.expression.Arithmetic.TheVariants.{Divide, Multiply, Subtract};
ghost use Rattle.expr_parse.specs.declared.expression.Comparison.TheVariants as compare;
ghost use Rattle.sql_plan.specs.declared.fault.Fault.TheVariants.{DivideByZero, OutOfRange, Overflow};
ghost use Rattle.sql_plan.specs.declared.expression.Scalar.TheVariants.{Chain, Literal};
ghost use Rattle.sql_plan.specs.declared.expression.Cond.TheVariants.{And, Between, Compare, In, Or};
ghost use Rattle.sql_plan.specs.declared.select.RowLimit.TheVariants.{Number, Param};
ghost use Rattle.sql_meaning.specs.Statements.{means};
ghost use Rattle.sql_scenarios.specs.Builders.{Fails, Gives, divided, ids, multiplied, num, null, too_great};
ghost use Rattle.sql_scenarios.specs.Pairs.{a, b, catalog, every, ids_where, last_overflows, selecting, values_of, with_zero};

/// Of the rows with `a` = 5, 0 and NULL. What stands behind a false part of an AND, behind a true part
/// of an OR, behind a false first half of BETWEEN and behind a match of IN isn't evaluated. What stands
/// behind an unknown part is.
pub fn conditions_stop_early()
    ensures false_and { Gives catalog (ids_where (And (Compare compare.NotEqual a (num 0)
        ∷ Compare compare.Greater (divided (num 10) a) (num 1) ∷ []))) with_zero (ids (1 ∷ [])) }
    ensures and_false { Fails catalog (ids_where (And (Compare compare.Greater (divided (num 10) a) (num 1)
        ∷ Compare compare.NotEqual a (num 0) ∷ []))) with_zero DivideByZero }
    ensures true_or { Gives catalog (ids_where (Or (Compare compare.Equal a (num 0)
        ∷ Compare compare.Greater (divided (num 10) a) (num 1) ∷ []))) with_zero (ids (1 ∷ 2 ∷ [])) }
    ensures or_true { Fails catalog (ids_where (Or (Compare compare.Greater (divided (num 10) a) (num 1)
        ∷ Compare compare.Equal a (num 0) ∷ []))) with_zero DivideByZero }
    ensures unknown_and { Fails catalog (ids_where (And (Compare compare.Equal a null
        ∷ Compare compare.Greater (divided (num 10) a) (num 1) ∷ []))) with_zero DivideByZero }
    ensures unknown_or { Fails catalog (ids_where (Or (Compare compare.Equal a null
        ∷ Compare compare.Greater (divided (num 10) a) (num 1) ∷ []))) with_zero DivideByZero }
    ensures not_between { Gives catalog (ids_where (Between a (num 6) (divided (num 10) a))) with_zero (ids []) }
    ensures between { Fails catalog (ids_where (Between a (num 0) (divided (num 10) a))) with_zero DivideByZero }
    ensures among { Gives catalog (ids_where (In a (num 5 ∷ num 0 ∷ divided (num 10) a ∷ []))) with_zero
        (ids (1 ∷ 2 ∷ [])) }
    ensures not_among { Fails catalog (ids_where (In a (num 5 ∷ divided (num 10) a ∷ []))) with_zero
        DivideByZero }
{}

/// An expression's fault is the first that its evaluation reaches, a row's the least of its outputs. A
/// fault of WHERE hides those of outputs. The range is judged at each operation.
pub fn least_fault_of_a_row()
    ensures first { Fails catalog (values_of (Chain (divided (num 1) (num 0))
        ((Multiply, too_great) ∷ []) ∷ []) None) with_zero DivideByZero }
    ensures least { Fails catalog (values_of (divided (num 1) (num 0) ∷ too_great ∷ []) None) with_zero
        Overflow }
    ensures hidden { Fails catalog (selecting [] (too_great ∷ [])
        (Compare compare.Equal (divided (num 1) (num 0)) (num 1)) [] None) with_zero DivideByZero }
    ensures unmet { Gives catalog (selecting [] (too_great ∷ []) (Compare compare.Equal a (num 7)) [] None)
        with_zero [] }
    ensures at_each { Fails catalog (values_of (Chain too_great ((Divide, num 2) ∷ []) ∷ []) None) with_zero
        Overflow }
    ensures least_number { Fails catalog (values_of (Chain (Literal (Int (negsuc 9223372036854775806)))
        ((Subtract, num 1) ∷ []) ∷ []) None) with_zero Overflow }
{}

/// A statement's fault is the least over all rows and its LIMIT, rows past the LIMIT too.
pub fn least_fault_over_rows()
    ensures rows { Fails catalog (values_of (divided (num 10) a ∷ multiplied b (num 2) ∷ []) None)
        last_overflows Overflow }
    ensures one { Fails catalog (values_of (divided (num 10) a ∷ []) None) last_overflows DivideByZero }
    ensures past_limit { Fails catalog (values_of (multiplied b (num 2) ∷ []) (Some (Number (pos 1))))
        last_overflows Overflow }
    ensures limit { Fails catalog (values_of (a ∷ []) (Some (Number (negsuc 0)))) last_overflows OutOfRange }
    ensures limit_null { means 3 catalog None (values_of (a ∷ []) (Some (Param 0))) (Null ∷ []) last_overflows
        ≡ Err OutOfRange }
    ensures row_and_limit { Fails catalog (values_of (divided (num 10) a ∷ []) (Some (Number (negsuc 0))))
        last_overflows DivideByZero }
    ensures no_rows { Gives catalog (values_of (a ∷ []) (Some (Number (pos 0)))) last_overflows [] }
{}

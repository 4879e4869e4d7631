//! Aggregates and groups: of no rows, with NULL, and their order.

ghost use Rattle.std.specs.Prelude.{[], ◌∷◌, false, pos, true, None, Some};
ghost use Rattle.volt_value.specs.declared.value.Value.TheVariants.{Null};
ghost use Rattle.sql_plan.specs.declared.fault.Fault.TheVariants.{Overflow};
ghost use Rattle.sql_plan.specs.declared.select.Aggregated.TheVariants.{CountRows, Sum};
ghost use Rattle.sql_plan.specs.declared.select.RowLimit.TheVariants.{Number};
ghost use Rattle.sql_scenarios.specs.Builders.{Fails, Gives, int};
ghost use Rattle.sql_scenarios.specs.Pairs.{b, by_a, catalog, grouped, in_order_of, none, second_overflows, totals};

/// Without GROUP BY there is one group, of no rows too; with it there is none.
pub fn groups_of_no_rows()
    ensures totals { Gives catalog totals none ((int 0 ∷ int 0 ∷ Null ∷ Null ∷ Null ∷ []) ∷ []) }
    ensures groups { Gives catalog by_a none [] }
{}

/// NULL is a value like others in GROUP BY. Aggregates skip it, but for `COUNT(*)`.
pub fn groups_with_null()
    ensures totals { Gives catalog totals grouped ((int 6 ∷ int 4 ∷ int 25 ∷ int 3 ∷ int 10 ∷ []) ∷ []) }
    ensures groups { Gives catalog by_a grouped
        ((Null ∷ int 2 ∷ int 1 ∷ int 3 ∷ int 3 ∷ int 3 ∷ [])
        ∷ (int 1 ∷ int 2 ∷ int 1 ∷ int 5 ∷ int 5 ∷ int 5 ∷ [])
        ∷ (int 2 ∷ int 2 ∷ int 2 ∷ int 17 ∷ int 7 ∷ int 10 ∷ []) ∷ []) }
{}

/// Groups come in the order of ORDER BY, and then of their columns. The sums of all groups are judged
/// before LIMIT.
pub fn order_over_groups()
    ensures sums { Gives catalog (in_order_of (Sum b) false None) grouped
        ((Null ∷ int 3 ∷ []) ∷ (int 1 ∷ int 5 ∷ []) ∷ (int 2 ∷ int 17 ∷ []) ∷ []) }
    ensures two_greatest { Gives catalog (in_order_of (Sum b) true (Some (Number (pos 2)))) grouped
        ((int 2 ∷ int 17 ∷ []) ∷ (int 1 ∷ int 5 ∷ []) ∷ []) }
    ensures equal { Gives catalog (in_order_of CountRows true None) grouped
        ((Null ∷ int 2 ∷ []) ∷ (int 1 ∷ int 2 ∷ []) ∷ (int 2 ∷ int 2 ∷ []) ∷ []) }
    ensures judged_first { Fails catalog (in_order_of (Sum b) false (Some (Number (pos 1)))) second_overflows
        Overflow }
{}

//! INSERT, UPDATE and DELETE: their faults, and when two rows have one key.

ghost use Rattle.std.specs.Prelude.{◌≡◌, [], ◌∷◌, codes, pos, Err, Ok, Some};
ghost use Rattle.volt_value.specs.declared.value.Value.TheVariants.{Null, Text};
ghost use Rattle.expr_parse.specs.declared.expression.Arithmetic.TheVariants.{Subtract};
ghost use Rattle.expr_parse.specs.declared.expression.Comparison.TheVariants as compare;
ghost use Rattle.sql_plan.specs.declared.fault.Fault.TheVariants.{DivideByZero, Duplicate, NullInColumn, TooLong, WrongPartition};
ghost use Rattle.sql_plan.specs.declared.expression.Scalar.TheVariants.{Chain, Column as Col, Literal};
ghost use Rattle.sql_plan.specs.declared.expression.Cond.TheVariants.{Compare};
ghost use Rattle.sql_meaning.specs.Starter as accounts;
ghost use Rattle.sql_meaning.specs.Starter.{put_row};
ghost use Rattle.sql_meaning.specs.Statements.{means};
ghost use Rattle.sql_scenarios.specs.Accounts.{accounts as accounts_of};
ghost use Rattle.sql_scenarios.specs.Builders.{Fails, Makes, counted, divided, int, null, num};
ghost use Rattle.sql_scenarios.specs.Notes.{catalog, drop_codes, label_drafts, new_code, new_note, note, set_codes, with_codes, with_notes};

/// A new row is judged as a whole: each value and each column, but for a column whose value faulted.
pub fn rows_that_fit()
    ensures fits { Makes catalog (new_note (num 1) (Literal (Text (codes "ab"))) null) (with_notes [])
        (with_notes (note 1 (Text (codes "ab")) Null ∷ [])) 1 }
    ensures too_long { Fails catalog (new_note (num 1) (Literal (Text (codes "abc"))) null) (with_notes []) TooLong }
    ensures no_label { Fails catalog (new_note (num 1) null null) (with_notes []) NullInColumn }
    ensures no_key { Fails catalog (new_note null (Literal (Text (codes "ab"))) null) (with_notes []) NullInColumn }
    ensures least { Fails catalog (new_note null (Literal (Text (codes "abc"))) null) (with_notes []) NullInColumn }
    ensures value_first { Fails catalog (new_note (divided (num 1) (num 0)) null null) (with_notes []) DivideByZero }
{}

/// A label is set to NULL in one row and to a text that is too long in another one.
pub fn least_fault_of_changes()
    ensures least { Fails catalog label_drafts
        (with_notes (note 1 (Text (codes "a")) (Text (codes "abc")) ∷ note 2 (Text (codes "b")) Null ∷ []))
        NullInColumn }
    ensures one { Fails catalog label_drafts
        (with_notes (note 1 (Text (codes "a")) (Text (codes "abc")) ∷ [])) TooLong }
    ensures fine { Makes catalog label_drafts
        (with_notes (note 1 (Text (codes "a")) (Text (codes "xy")) ∷ []))
        (with_notes (note 1 (Text (codes "xy")) (Text (codes "xy")) ∷ [])) 1 }
{}

/// Keys are judged on the whole table after the statement, and NULL agrees with NULL.
pub fn keys_of_whole_tables()
    ensures same_key { Fails catalog (new_code (num 1) (num 7)) (with_codes ((1, int 5) ∷ [])) Duplicate }
    ensures same_code { Fails catalog (new_code (num 2) (num 5)) (with_codes ((1, int 5) ∷ [])) Duplicate }
    ensures both_null { Fails catalog (new_code (num 2) null) (with_codes ((1, Null) ∷ [])) Duplicate }
    ensures in_order { Makes catalog (new_code (num 2) (num 7)) (with_codes ((1, int 5) ∷ (3, Null) ∷ []))
        (with_codes ((1, int 5) ∷ (2, int 7) ∷ (3, Null) ∷ [])) 1 }
    ensures swapped { Makes catalog (set_codes (Chain (num 3) ((Subtract, Col 1) ∷ [])))
        (with_codes ((1, int 1) ∷ (2, int 2) ∷ [])) (with_codes ((1, int 2) ∷ (2, int 1) ∷ [])) 2 }
    ensures made_equal { Fails catalog (set_codes (num 3)) (with_codes ((1, int 1) ∷ (2, int 2) ∷ [])) Duplicate }
    ensures dropped { Makes catalog (drop_codes (Compare compare.Less (Col 1) (num 2)))
        (with_codes ((1, int 1) ∷ (2, int 2) ∷ (3, Null) ∷ [])) (with_codes ((2, int 2) ∷ (3, Null) ∷ [])) 1 }
{}

/// In a procedure on one partition: account 1 lies in partition 1 of three.
pub fn rows_of_other_partitions()
    ensures here { means 3 accounts.catalog (Some 1) put_row (int 1 ∷ int 5 ∷ []) (accounts_of [])
        ≡ Ok (accounts_of ((1, pos 5) ∷ []), counted 1) }
    ensures elsewhere { means 3 accounts.catalog (Some 0) put_row (int 1 ∷ int 5 ∷ []) (accounts_of [])
        ≡ Err WrongPartition }
    ensures row_first { means 3 accounts.catalog (Some 0) put_row (int 1 ∷ Null ∷ []) (accounts_of [])
        ≡ Err NullInColumn }
{}

//! Calls of the example's procedures.

ghost use Rattle.std.specs.Prelude.{[], ◌∷◌, codes, negsuc, pos};
ghost use Rattle.volt_value.specs.declared.value.Value.TheVariants.{Null};
ghost use Rattle.sql_plan.specs.declared.fault.Fault.TheVariants.{Duplicate, NullInColumn, Overflow};
ghost use Rattle.sql_scenarios.specs.Accounts.{Answers, Ends, Faults, accounts, add, get, move, moved, put, total, two};
ghost use Rattle.sql_scenarios.specs.Builders.{ids, int};

/// Accounts are put, read and added to.
pub fn accounts_change()
    ensures account_put { Answers 1 (accounts []) (put 1 (int 10)) (accounts ((1, pos 10) ∷ [])) (ids (1 ∷ [])) }
    ensures put_again { Faults 1 (accounts ((1, pos 10) ∷ [])) (put 1 (int 10)) Duplicate }
    ensures put_null { Faults 1 (accounts []) (put 1 Null) NullInColumn }
    ensures account_read { Answers 1 (accounts ((1, pos 10) ∷ [])) (get 1) (accounts ((1, pos 10) ∷ [])) (ids (10 ∷ [])) }
    ensures account_added { Answers 3 (accounts ((1, pos 10) ∷ (2, pos 5) ∷ [])) (add 1 (pos 7))
        (accounts ((1, pos 17) ∷ (2, pos 5) ∷ [])) (ids (17 ∷ [])) }
{}

/// A program's ABORT leaves the database as it was.
pub fn overdrawn_accounts()
    ensures below_zero { Ends 1 (accounts ((1, pos 10) ∷ [])) (add 1 (negsuc 10)) (codes "below zero") }
    ensures no_account { Ends 1 (accounts ((1, pos 10) ∷ [])) (add 2 (pos 1)) (codes "no account") }
{}

/// A balance moves between accounts of two partitions, or there isn't enough of it.
pub fn balances_move()
    ensures enough { Answers 3 two (move 1 2 4) moved (ids (6 ∷ [])) }
    ensures read_behind { Answers 3 moved (get 1) moved (ids (6 ∷ [])) }
    ensures too_much { Ends 3 two (move 1 2 11) (codes "cannot move") }
    ensures no_account { Ends 3 two (move 1 3 4) (codes "cannot move") }
{}

/// Three partitions: the sum of all balances, and a balance too many.
pub fn sums_out_of_range()
    ensures third { Answers 3 (accounts ((1, pos 9223372036854775805) ∷ (2, pos 1) ∷ [])) (put 3 (int 1))
        (accounts ((1, pos 9223372036854775805) ∷ (2, pos 1) ∷ (3, pos 1) ∷ [])) (ids (1 ∷ [])) }
    ensures greatest { Answers 3 (accounts ((1, pos 9223372036854775805) ∷ (2, pos 1) ∷ (3, pos 1) ∷ [])) total
        (accounts ((1, pos 9223372036854775805) ∷ (2, pos 1) ∷ (3, pos 1) ∷ []))
        (ids (9223372036854775807 ∷ [])) }
    ensures beyond { Faults 3
        (accounts ((1, pos 9223372036854775805) ∷ (2, pos 1) ∷ (3, pos 1) ∷ (4, pos 1) ∷ [])) total Overflow }
{}

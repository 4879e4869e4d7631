//! Statements whose parts the partitions make, each on its share.

ghost use Rattle.std.specs.Prelude.{[], ◌∷◌, negsuc, pos};
ghost use Rattle.sql_plan.specs.declared.fault.Fault.TheVariants.{Duplicate, Overflow};
ghost use Rattle.sql_meaning.specs.Starter.{catalog, total_balance};
ghost use Rattle.sql_scenarios.specs.Accounts.{accounts, new_account, one_more, two_least};
ghost use Rattle.sql_scenarios.specs.Builders.{Fails, Gives, Makes, PartsFail, PartsGive, ids, int, num};
ghost use Rattle.sql_scenarios.specs.Notes as notes;

/// Sums are exact over all partitions before their range is judged, those of one partition too: accounts
/// 1 and 2 lie in the partitions 1 and 2 of three, and accounts 3 and 4 in partition 0.
pub fn sums_of_all()
    ensures greatest { PartsGive 3 catalog total_balance
        (accounts ((1, pos 9223372036854775805) ∷ (2, pos 1) ∷ (3, pos 1) ∷ []))
        (ids (9223372036854775807 ∷ [])) }
    ensures beyond { PartsFail 3 catalog total_balance
        (accounts ((1, pos 9223372036854775805) ∷ (2, pos 1) ∷ (3, pos 1) ∷ (4, pos 1) ∷ [])) Overflow }
    ensures back { PartsGive 3 catalog total_balance
        (accounts ((1, pos 1) ∷ (2, negsuc 0) ∷ (3, pos 9223372036854775807) ∷ []))
        (ids (9223372036854775807 ∷ [])) }
    ensures part_beyond { PartsGive 3 catalog total_balance
        (accounts ((1, negsuc 0) ∷ (3, pos 9223372036854775807) ∷ (4, pos 1) ∷ []))
        (ids (9223372036854775807 ∷ [])) }
    ensures whole_greatest { Gives catalog total_balance
        (accounts ((1, pos 9223372036854775805) ∷ (2, pos 1) ∷ (3, pos 1) ∷ []))
        (ids (9223372036854775807 ∷ [])) }
    ensures whole_back { Gives catalog total_balance
        (accounts ((1, pos 1) ∷ (2, negsuc 0) ∷ (3, pos 9223372036854775807) ∷ []))
        (ids (9223372036854775807 ∷ [])) }
    ensures whole_beyond { Fails catalog total_balance
        (accounts ((1, pos 9223372036854775805) ∷ (2, pos 1) ∷ (3, pos 1) ∷ (4, pos 1) ∷ [])) Overflow }
{}

/// LIMIT takes the first rows of all partitions: accounts 1, 2, 3 and 5 lie in the partitions 1, 3, 0
/// and 2 of four.
pub fn first_rows_of_all()
    ensures parts { PartsGive 4 catalog two_least
        (accounts ((1, pos 5) ∷ (2, pos 5) ∷ (3, pos 7) ∷ (5, pos 5) ∷ []))
        ((int 1 ∷ int 5 ∷ []) ∷ (int 2 ∷ int 5 ∷ []) ∷ []) }
    ensures whole { Gives catalog two_least
        (accounts ((1, pos 5) ∷ (2, pos 5) ∷ (3, pos 7) ∷ (5, pos 5) ∷ []))
        ((int 1 ∷ int 5 ∷ []) ∷ (int 2 ∷ int 5 ∷ []) ∷ []) }
{}

/// Counts are added over partitions; of tables that all partitions have, changes count once. A new row
/// counts in the partition where it lies.
pub fn counts_of_all()
    ensures added { PartsGive 3 catalog one_more
        (accounts ((1, pos 5) ∷ (2, pos 5) ∷ (3, pos 7) ∷ (4, pos 5) ∷ [])) (ids (4 ∷ [])) }
    ensures made { Makes catalog one_more
        (accounts ((1, pos 5) ∷ (2, pos 5) ∷ (3, pos 7) ∷ (4, pos 5) ∷ []))
        (accounts ((1, pos 6) ∷ (2, pos 6) ∷ (3, pos 8) ∷ (4, pos 6) ∷ [])) 4 }
    ensures once { PartsGive 3 notes.catalog (notes.set_codes (num 3))
        (notes.with_codes ((1, int 1) ∷ [])) (ids (1 ∷ [])) }
    ensures made_once { Makes notes.catalog (notes.set_codes (num 3))
        (notes.with_codes ((1, int 1) ∷ [])) (notes.with_codes ((1, int 3) ∷ [])) 1 }
    ensures one_row { PartsGive 3 catalog (new_account 5 8) (accounts ((1, pos 5) ∷ [])) (ids (1 ∷ [])) }
    ensures taken { PartsFail 3 catalog (new_account 1 8) (accounts ((1, pos 5) ∷ [])) Duplicate }
{}

//! Each law of what SQL means at the example of accounts: the laws hold of every plan and database, so
//! of these. Their premises are met here, so none of them speaks of nothing.
#![tactic(auto)]

ghost use Rattle.std.specs.Prelude.{◌≡◌, ◌<◌, ℕ, List, [], ◌∷◌, negsuc, pos};
ghost use Rattle.sql_plan.specs.declared.prepared.Scope.TheVariants.{OnePartition};
ghost use Rattle.sql_plan.specs.declared.reply.ProcReply.TheVariants as reply;
ghost use Rattle.sql_meaning.specs.Calls.{call};
ghost use Rattle.sql_meaning.specs.Database.{Database, IsDatabase, share};
ghost use Rattle.sql_meaning.specs.Plans.{IsPlan};
ghost use Rattle.sql_meaning.specs.Rounds.{call_in_rounds, serial_on_shares};
ghost use Rattle.sql_meaning.specs.Starter.{balance_of, catalog, plan, total_balance};
ghost use Rattle.sql_laws.specs.Alone.{OnOnePart};
ghost use Rattle.sql_laws.specs.InRounds.{InRounds, shares_of};
ghost use Rattle.sql_laws.specs.OnShares.{OnShares};
ghost use Rattle.sql_laws.specs.Parts.{HasShares, IsOfOnePart, IsOfParts};
ghost use Rattle.sql_scenarios.specs.Accounts.{accounts, add, get, move, moved, one_more, two};
ghost use Rattle.sql_scenarios.specs.Builders.{ids, int, num};
ghost use Rattle.sql_scenarios.specs.Notes as notes;
ghost use Rattle.sql_instances.specs.Instances.{code, four, four_more, one, three};

use sql_laws::{
    aborts_change_nothing, calls_in_rounds_give_what_they_mean, calls_keep_databases,
    calls_on_one_partition_are_of_its_share, databases_are_told_by_their_shares,
    runs_on_shares_give_what_they_mean, statements_are_of_their_parts,
    statements_on_one_partition_are_of_one_part,
};
use sql_scenarios::{
    accounts_change, balances_move, counts_of_all, overdrawn_accounts, sums_of_all,
};

/// The example's catalog, statements and programs are what the laws take.
pub fn example_is_a_plan()
    ensures { IsPlan (plan 3) }
{}

/// The sum over three partitions is what their parts come to, and each partition's share stays.
pub fn total_of_three_partitions()
    ensures parts { IsOfParts 3 catalog total_balance [] three }
    ensures share { HasShares 3 catalog total_balance [] three three }
{
    statements_are_of_their_parts();
    sums_of_all();
}

/// Each partition adds one to the balances of its share, and so does the whole.
pub fn update_of_three_partitions()
    ensures parts { IsOfParts 3 catalog one_more [] four }
    ensures shares { HasShares 3 catalog one_more [] four four_more }
{
    statements_are_of_their_parts();
    counts_of_all();
}

/// Each partition sets a code that all partitions have.
pub fn update_of_all_copies()
    ensures parts { IsOfParts 3 notes.catalog (notes.set_codes (num 3)) [] (code 1) }
    ensures shares { HasShares 3 notes.catalog (notes.set_codes (num 3)) [] (code 1) (code 3) }
{
    statements_are_of_their_parts();
    counts_of_all();
}

/// A balance is read on its partition, which has all there is for it.
pub fn balance_on_its_partition()
    ensures { IsOfOnePart 3 catalog 2 (balance_of OnePartition) (int 2 ∷ []) (share 3 catalog 2 three) }
{
    statements_on_one_partition_are_of_one_part();
}

/// A database of which each of three partitions has the accounts that it has here is this one.
pub fn accounts_told_by_their_shares()
    ensures { (other : Database) → IsDatabase catalog other
        → ((part : ℕ) → part < 3 → share 3 catalog part other ≡ share 3 catalog part three)
        → other ≡ three }
{
    databases_are_told_by_their_shares();
}

/// A balance moves from one partition to another one in rounds. What each round gives isn't evaluated:
/// the reply and the shares are those of the whole database.
pub fn move_in_rounds()
    ensures rounds { InRounds (plan 3) two (move 1 2 4) }
    ensures reply { (call_in_rounds (plan 3) (shares_of (plan 3) two) (move 1 2 4)).1
        ≡ reply.Ok (record { rows = ids (6 ∷ []) }) }
    ensures source { (call_in_rounds (plan 3) (shares_of (plan 3) two) (move 1 2 4)).0 1
        ≡ share 3 catalog 1 moved }
    ensures destination { (call_in_rounds (plan 3) (shares_of (plan 3) two) (move 1 2 4)).0 2
        ≡ share 3 catalog 2 moved }
{
    calls_in_rounds_give_what_they_mean();
    balances_move();
}

/// A balance moves and is read, where each of three partitions has its share alone.
pub fn move_and_get_on_shares()
    ensures run { OnShares (plan 3) two (move 1 2 4 ∷ get 1 ∷ []) }
    ensures replies { (serial_on_shares (plan 3) (shares_of (plan 3) two) (move 1 2 4 ∷ get 1 ∷ [])).1
        ≡ reply.Ok (record { rows = ids (6 ∷ []) }) ∷ reply.Ok (record { rows = ids (6 ∷ []) }) ∷ [] }
{
    runs_on_shares_give_what_they_mean();
    balances_move();
}

/// What is added to account 2 depends on partition 2 alone, and the shares of partitions 0 and 1 stay.
pub fn account_on_its_partition()
    ensures alone { OnOnePart (plan 3) three (add 2 (pos 4)) 2 }
    ensures first { share 3 catalog 0 (call (plan 3) three (add 2 (pos 4))).0 ≡ share 3 catalog 0 three }
    ensures second { share 3 catalog 1 (call (plan 3) three (add 2 (pos 4))).0 ≡ share 3 catalog 1 three }
{
    calls_on_one_partition_are_of_its_share();
}

/// More is taken from an account than there is.
pub fn overdrawn_account_stays()
    ensures { (call (plan 1) one (add 1 (negsuc 10))).0 ≡ one }
{
    aborts_change_nothing();
    overdrawn_accounts();
}

/// What an account was put into is a database.
pub fn database_behind_a_put()
    ensures { IsDatabase catalog one }
{
    calls_keep_databases();
    accounts_change();
}

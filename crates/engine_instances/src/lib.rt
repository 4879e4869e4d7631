//! Each law of what engines over SQL do, at the example of accounts: its premises are met here, so none
//! of them speaks of nothing.
#![tactic(auto)]

ghost use Rattle.std.specs.Prelude.{◌≡◌, [], ◌∷◌, pos};
ghost use Rattle.volt_base.specs.declared.entry.Entry.TheVariants.{Sp};
ghost use Rattle.sql_meaning.specs.Starter.{plan};
ghost use Rattle.sql_scenarios.specs.Accounts.{accounts, put};
ghost use Rattle.sql_scenarios.specs.Builders.{int};
ghost use Rattle.sql_instances.specs.Instances.{three};
ghost use Rattle.sql_wire.specs.Bodies.{call_bytes};
ghost use Rattle.engine_meaning.specs.Bodies.{body_of};
ghost use Rattle.engine_meaning.specs.State.{nothing_in};
ghost use Rattle.engine_meaning.specs.Entries.{after};
ghost use Rattle.engine_meaning.specs.Coordinator.{asks, as_step, next};
ghost use Rattle.engine_meaning.specs.Rounds.{IsCalled, IsCarriedOut, Runs};
ghost use Rattle.engine_instances.specs.Instances.{greatest, shared, summed, total};

use engine_meaning::{
    calls_in_rounds_end_as_they_mean, calls_on_one_partition_are_carried_out,
    coordinators_read_their_call,
};

/// Account 1 is put into partition 1 of three.
pub fn put_on_its_partition()
    ensures called { IsCalled (plan 3) (nothing_in (plan 3) 1) 1 1 4 (put 1 (int 10)) }
    ensures tables { (after (plan 3) (nothing_in (plan 3) 1) (Sp 1 1 4 (call_bytes (body_of (put 1 (int 10)))))).tables
        ≡ accounts ((1, pos 10) ∷ []) }
{
    calls_on_one_partition_are_carried_out();
}

/// The sum of all balances is asked of three partitions in one round, and is what it means on all of them.
pub fn total_in_a_round()
    ensures reads { asks (plan 3) (call_bytes (body_of total)) [] ≡ as_step (next (plan 3) total []) }
    ensures runs { Runs (plan 3) total 1 [] shared summed greatest }
    ensures carried { IsCarriedOut (plan 3) three total 1 summed greatest }
{
    coordinators_read_their_call();
    calls_in_rounds_end_as_they_mean();
}

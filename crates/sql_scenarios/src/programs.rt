//! Programs: results, FOR, and the limits on steps and statements.

ghost use Rattle.std.specs.Prelude.{◌≡◌, ℕ, List, [], ◌∷◌, length, pos, None, Some};
ghost use Rattle.volt_value.specs.declared.value.Value.TheVariants.{Null};
ghost use Rattle.sql_plan.specs.declared.program.ProgramStep.TheVariants.{Let, Sql};
ghost use Rattle.sql_plan.specs.declared.reply.Cause.TheVariants as cause;
ghost use Rattle.sql_plan.specs.declared.reply.ProcReply.TheVariants as reply;
ghost use Rattle.sql_meaning.specs.Calls.{ran};
ghost use Rattle.sql_meaning.specs.Programs.{Aborts, Goes, does};
ghost use Rattle.sql_meaning.specs.Replies.{sized};
ghost use Rattle.sql_meaning.specs.Starter.{catalog};
ghost use Rattle.sql_scenarios.specs.Accounts.{accounts, behind, sum_in_program, two};
ghost use Rattle.sql_scenarios.specs.Builders.{int, num};

/// FOR goes over the rows of a result. The first row of a result without rows is of NULLs.
pub fn results_and_loops()
    ensures sum { ran 3 catalog None sum_in_program [] two
        ≡ (two, reply.Ok (record { rows = (int 15 ∷ int 2 ∷ int 2 ∷ []) ∷ [] })) }
    ensures none { ran 3 catalog None sum_in_program [] (accounts [])
        ≡ (accounts [], reply.Ok (record { rows = (int 0 ∷ int 0 ∷ Null ∷ []) ∷ [] })) }
{}

/// The step behind the 100,000th is aborted by Steps, the statement behind the 200th by Statements. A
/// step is counted before its statement.
pub fn limits_of_programs()
    ensures steps { (go : Goes) → does (Let 0 [] (num 1)) (behind 100000 0) go ≡ Aborts cause.Steps }
    ensures statements { (go : Goes) → does (Sql 0 [] None) (behind 99999 200) go ≡ Aborts cause.Statements }
    ensures both { (go : Goes) → does (Sql 0 [] None) (behind 100000 200) go ≡ Aborts cause.Steps }
{}

/// A reply has at most 262,144 bytes: one for its kind, one and four before a text.
pub fn replies_too_long()
    ensures fits { (text : List ℕ) → length text ≡ 262138
        → sized (reply.Abort (cause.User text)) ≡ reply.Abort (cause.User text) }
    ensures too_long { (text : List ℕ) → length text ≡ 262139
        → sized (reply.Abort (cause.User text)) ≡ reply.Abort cause.Size }
{}

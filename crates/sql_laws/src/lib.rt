//! Laws of what SQL means. A statement on the whole database is its parts on the partitions, put
//! together, and a call that runs so in rounds gives what it means. A call on one partition reads and
//! changes that partition's share alone, and an abort changes nothing. Each is a function without a
//! body; the clause is the law.
#![tactic(auto)]

ghost use Rattle.std.specs.Prelude.{◌≡◌, ◌<◌, ℕ, List, None, Some};
ghost use Rattle.volt_catalog.specs.Rules.{Contents};
ghost use Rattle.volt_catalog.specs.Catalog.{IsCatalog};
ghost use Rattle.sql_plan.specs.declared.plan.Plan.{Plan};
ghost use Rattle.sql_plan.specs.declared.prepared.Prepared.{Prepared};
ghost use Rattle.sql_plan.specs.declared.prepared.Scope.TheVariants.{OnePartition};
ghost use Rattle.sql_plan.specs.declared.reply.Cause.{Cause};
ghost use Rattle.sql_plan.specs.declared.reply.ProcReply.TheVariants as reply;
ghost use Rattle.sql_plan.specs.Rows.{Cells};
ghost use Rattle.sql_meaning.specs.Calls.{Call, call, part_of_call};
ghost use Rattle.sql_meaning.specs.Database.{Database, IsDatabase, share};
ghost use Rattle.sql_meaning.specs.Plans.{IsPlan};
ghost use Rattle.sql_meaning.specs.WellFormed.{IsPrepared};
ghost use Rattle.sql_laws.specs.Alone.{OnOnePart};
ghost use Rattle.sql_laws.specs.InRounds.{InRounds};
ghost use Rattle.sql_laws.specs.OnShares.{OnShares};
ghost use Rattle.sql_laws.specs.Parts.{IsOfOnePart, IsOfParts};

/// A statement on the whole database gives what its parts on the partitions come to: rows in one order
/// under one LIMIT, exact sums, or the least fault of all. The new database is the one whose shares
/// the partitions make of theirs.
pub fn statements_are_of_their_parts()
    ensures { (parts : ℕ) (catalog : Contents) (statement : Prepared) (args : Cells) (db : Database)
        → 0 < parts → IsCatalog catalog → IsDatabase catalog db → IsPrepared catalog statement
        → (statement.scope ≡ OnePartition → ⊥) → IsOfParts parts catalog statement args db }
{}

/// In a procedure on one partition a statement gives what its one part comes to.
pub fn statements_on_one_partition_are_of_one_part()
    ensures { (parts : ℕ) (catalog : Contents) (part : ℕ) (statement : Prepared) (args : Cells)
        (own : Database) → statement.scope ≡ OnePartition
        → IsOfOnePart parts catalog part statement args own }
{}

/// Two databases that have the same share in each partition are the same.
pub fn databases_are_told_by_their_shares()
    ensures { (parts : ℕ) (catalog : Contents) (a b : Database) → 0 < parts → IsCatalog catalog
        → IsDatabase catalog a → IsDatabase catalog b
        → ((part : ℕ) → part < parts → share parts catalog part a ≡ share parts catalog part b)
        → a ≡ b }
{}

/// A call on all partitions that runs in rounds gives what it means on the whole database: its reply,
/// and the share of each partition.
pub fn calls_in_rounds_give_what_they_mean()
    ensures { (plan : Plan) (db : Database) (c : Call) → IsPlan plan → IsDatabase plan.catalog db
        → part_of_call plan c ≡ None → InRounds plan db c }
{}

/// Calls one after another give the same replies and leave the same shares on one database and where
/// each partition has its share alone: there a call on one partition runs on that partition's share,
/// and any other call in rounds.
pub fn runs_on_shares_give_what_they_mean()
    ensures { (plan : Plan) (db : Database) (calls : List Call) → IsPlan plan
        → IsDatabase plan.catalog db → OnShares plan db calls }
{}

/// A call that aborts leaves the database as it was.
pub fn aborts_change_nothing()
    ensures { (plan : Plan) (db : Database) (c : Call) (cause : Cause)
        → (call plan db c).1 ≡ reply.Abort cause → (call plan db c).0 ≡ db }
{}

/// Behind a call the tables are those of a database: rows fit their columns, and no two agree on a key.
pub fn calls_keep_databases()
    ensures { (plan : Plan) (db : Database) (c : Call) → IsPlan plan → IsDatabase plan.catalog db
        → IsDatabase plan.catalog (call plan db c).0 }
{}

/// What a call on one partition answers, and what it leaves of that partition's share, depends on the
/// share alone; the shares of the other partitions stay.
pub fn calls_on_one_partition_are_of_its_share()
    ensures { (plan : Plan) (db : Database) (c : Call) (part : ℕ) → IsPlan plan → IsDatabase plan.catalog db
        → part_of_call plan c ≡ Some part → OnOnePart plan db c part }
{}

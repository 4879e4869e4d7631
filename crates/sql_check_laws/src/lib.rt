//! What checking gives is well formed: each statement that is accepted is one that the laws of what SQL
//! means take, with numbers in range and classes that fit. Each law is a function without a body; the
//! clause is the law.
#![tactic(auto)]

ghost use Rattle.std.specs.Prelude.{◌≡◌, Bool, true, Option, None, Some, Ok};
ghost use Rattle.volt_catalog.specs.Rules.{Contents};
ghost use Rattle.volt_catalog.specs.Catalog.{IsCatalog};
ghost use Rattle.sql_parse.specs.declared.statement.Stmt.{Stmt};
ghost use Rattle.sql_plan.specs.declared.prepared.Prepared.{Prepared};
ghost use Rattle.sql_plan.specs.declared.prepared.Scope.TheVariants.{OnePartition};
ghost use Rattle.sql_resolve.specs.declared.bound.Bound.{Bound};
ghost use Rattle.sql_check.specs.declared.examined.Examined.{Examined};
ghost use Rattle.sql_check.specs.Checked.{checked, examined};
ghost use Rattle.sql_meaning.specs.Starter.{balance_of, catalog, put_row};
ghost use Rattle.sql_meaning.specs.WellFormed.{IsPrepared};
ghost use Rattle.sql_check_laws.specs.Examples.{get, put};
ghost use Rattle.sql_check_laws.specs.Numbers.{statement_has_bigints};

/// A statement that `prepare` accepts is well formed against its catalog. Its numbers are those of
/// BIGINT, as the reader of SQL gives them.
pub fn accepted_is_well_formed()
    ensures { (catalog : Contents) (statement : Stmt) (single : Bool) (prepared : Prepared)
        → IsCatalog catalog → statement_has_bigints statement ≡ true
        → checked catalog statement single ≡ Ok prepared → IsPrepared catalog prepared }
{}

/// So is a statement without a fault that stands in a program which has bound this before.
pub fn faultless_is_well_formed()
    ensures { (catalog : Contents) (program : Option Bound) (statement : Stmt) (single : Bool)
        (found : Examined) → IsCatalog catalog → statement_has_bigints statement ≡ true
        → examined catalog program statement single ≡ Some found → found.fault ≡ None
        → IsPrepared catalog found.prepared }
{}

/// The statement of `Put`, as it is read, gives the plan on which the meaning of SQL is tried; so this
/// is well formed.
pub fn put_is_well_formed()
    ensures accepted { checked catalog put true ≡ Ok put_row }
    ensures formed { IsPrepared catalog put_row }
{
    accepted_is_well_formed();
}

/// So does the statement of `Get`.
pub fn get_is_well_formed()
    ensures accepted { checked catalog get true ≡ Ok (balance_of OnePartition) }
    ensures formed { IsPrepared catalog (balance_of OnePartition) }
{
    accepted_is_well_formed();
}

//! Laws of procedures that are compiled. Each is a function without a body; the clause is the law.

ghost use Rattle.std.specs.Prelude.{◌≡◌, is_some, Ok};
ghost use Rattle.std.specs.List.{AllByRecursion};
ghost use Rattle.volt_catalog.specs.declared.procedure.ProcDef.{ProcDef};
ghost use Rattle.volt_catalog.specs.Rules.{Contents};
ghost use Rattle.ddl_parse.specs.declared.procedure.ProcText.{ProcText};
ghost use Rattle.sql_plan.specs.declared.program.Program.{Program};
ghost use Rattle.proc_lang.specs.Compiled.{compiled};
ghost use Rattle.proc_lang.specs.Laws.{Suits};

/// Each statement of a procedure that is compiled, wherever it stands in the text, keeps to where the
/// procedure runs: on one partition it has the scope of one partition and changes no table that all
/// partitions have, and elsewhere it has another scope.
pub fn statements_keep_to_their_partition()
    ensures { (catalog : Contents) (text : ProcText) (answer : ProcDef × Program) → compiled catalog text ≡ Ok answer
        → AllByRecursion (Suits catalog (is_some text.partition)) answer.1.statements }
{}

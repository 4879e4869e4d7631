//! Procedures, as they are written.

use crate::ddl::TypeName;
use expr_parse::Expr;
use sql_parse::Stmt;
use sqlite_items::Items;
use volt_value::Text;

/// `CREATE PROCEDURE name partition AS body`.
#[derive(Debug, Drop)]
pub struct ProcText {
    pub name: Text,
    /// Where the procedure runs on one partition.
    pub partition: Option<ProcPartition>,
    pub body: ProcBody,
}

/// `PARTITION ON TABLE table COLUMN column PARAMETER parameter`.
#[derive(Debug, Drop)]
pub struct ProcPartition {
    pub table: Text,
    pub column: Text,
    /// The parameter's number, from 0: 0 where none is written. 0 to 9223372036854775807.
    pub parameter: i64,
}

/// What a procedure does.
#[derive(Debug, Drop)]
pub enum ProcBody {
    Statement(Stmt),
    Program(ProgramText),
}

/// `PROGRAM (parameters) BEGIN steps END`.
#[derive(Debug, Drop)]
pub struct ProgramText {
    pub parameters: Items<ParameterText>,
    pub steps: Items<StepText>,
}

/// `name kind`.
#[derive(Debug, Drop)]
pub struct ParameterText {
    pub name: Text,
    pub kind: TypeName,
}

/// A step of a program.
#[derive(Debug, Drop)]
pub enum StepText {
    /// `LET variable = value;`.
    Let {
        variable: Text,
        value: Expr,
    },
    /// `SQL result = statement;`, where the result's name may lack.
    Sql {
        result: Option<Text>,
        statement: Stmt,
    },
    /// `IF condition THEN steps ELSE otherwise END;`. Without ELSE there are no other steps.
    If {
        condition: Expr,
        steps: Items<StepText>,
        otherwise: Items<StepText>,
    },
    /// `FOR row IN result DO steps END;`.
    For {
        row: Text,
        result: Text,
        steps: Items<StepText>,
    },
    /// `ABORT message;`.
    Abort(Text),
    /// `RETURN values;`.
    Return(ReturnText),
}

/// What a program gives.
#[derive(Debug, Drop)]
pub enum ReturnText {
    /// Nothing is written.
    Nothing,
    /// A name alone: a result of the program.
    Result(Text),
    /// One or more expressions, and not a name alone.
    Values(Items<Expr>),
}

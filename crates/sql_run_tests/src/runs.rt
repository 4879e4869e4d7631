//! Programs by hand, run to their end: the statements that they ask for and what they come to, as one text.

use expr_parse::{Arithmetic, Comparison};
use proc_run::*;
use sql_plan::{Cond, Fault, Program, ProgramStep, ProgramValue, Returned, Row, Rows, Scalar};
use sqlite_items::{Boxed, Items};
use std::alloc::{AllocError, Global};
use std::process::Abort;
use std::test::Fail;
use volt_value::{Class, Text, Value};

// ---- programs

/// A program of one parameter, the variable 0, a variable 1, and two results.
fn program(alloc: Global, steps: Items<ProgramStep>) -> Result<Program, AllocError> {
    let mut results = Items::new(alloc);
    results.push(Items::new(alloc))?;
    results.push(Items::new(alloc))?;
    Ok(Program {
        variables: Items::from_slice(alloc, &[Class::Int, Class::Int])?,
        results,
        rows: 2,
        statements: Items::new(alloc),
        steps,
    })
}

/// A statement whose rows are kept as a result.
fn ask(
    alloc: Global,
    statement: u16,
    args: &[ProgramValue],
    kept: Option<usize>,
) -> Result<ProgramStep, AllocError> {
    Ok(ProgramStep::Sql {
        statement,
        args: Items::from_slice(alloc, args)?,
        result: kept,
    })
}

/// Variable 1 is set to a value and 1.
fn set(alloc: Global, from: ProgramValue) -> Result<ProgramStep, AllocError> {
    let mut rest = Items::new(alloc);
    rest.push((Arithmetic::Add, Scalar::Literal(Value::Int(1))))?;
    Ok(ProgramStep::Let {
        variable: 1,
        args: Items::from_slice(alloc, &[from])?,
        value: Scalar::Chain {
            first: Boxed::new(alloc, Scalar::Param(0))?,
            rest,
        },
    })
}

/// Where a value is 2, these steps, and else the others.
fn if_two(
    alloc: Global,
    value: ProgramValue,
    steps: Items<ProgramStep>,
    otherwise: Items<ProgramStep>,
) -> Result<ProgramStep, AllocError> {
    Ok(ProgramStep::If {
        args: Items::from_slice(alloc, &[value])?,
        condition: Cond::Compare(
            Comparison::Equal,
            Scalar::Param(0),
            Scalar::Literal(Value::Int(2)),
        ),
        steps,
        otherwise,
    })
}

fn one(alloc: Global, step: ProgramStep) -> Result<Items<ProgramStep>, AllocError> {
    let mut steps = Items::new(alloc);
    steps.push(step)?;
    Ok(steps)
}

fn two(
    alloc: Global,
    first: ProgramStep,
    second: ProgramStep,
) -> Result<Items<ProgramStep>, AllocError> {
    let mut steps = one(alloc, first)?;
    steps.push(second)?;
    Ok(steps)
}

/// One row of these values.
fn give(alloc: Global, values: &[ProgramValue]) -> Result<ProgramStep, AllocError> {
    let mut expressions = Items::new(alloc);
    for place in 0..values.len() {
        expressions.push(Scalar::Param(place))?;
    }
    Ok(ProgramStep::Return(Returned::Values {
        args: Items::from_slice(alloc, values)?,
        values: expressions,
    }))
}

// ---- a database

/// Statement 9 faults. Another one has as many rows as its number, which have the numbers from 1 as
/// their values.
fn answer(alloc: Global, statement: u16) -> Result<Result<Rows, Fault>, AllocError> {
    if statement == 9 {
        return Ok(Err(Fault::TooLong));
    }
    let mut rows = Items::new(alloc);
    for number in 0..statement {
        let mut row = Vec::new(alloc);
        row.push(Value::Int(i64::from(number) + 1))?;
        rows.push(Row::from_vec(row))?;
    }
    Ok(Ok(Rows { rows }))
}

/// What a run comes to, once it has ended.
fn end(alloc: Global, step: Step) -> Result<String, AllocError> {
    match step {
        Step::NeedSql { statement, .. } => format!(in alloc; "asks {statement}"),
        Step::Return(rows) => format!(in alloc; "{:?}", rows.rows.as_slice()),
        Step::Abort(why) => format!(in alloc; "{why:?}"),
    }
}

/// The statements that a program asks for, and its end. It is fed the answers of the database.
fn talk(alloc: Global, program: &Program, parameter: i64) -> Result<String, AllocError> {
    let mut told = String::new(alloc);
    let mut run = ProcRun::start(alloc, program, vec![in alloc; Value::Int(parameter)]?)?;
    let mut fed = None;
    for _number in 0..1000 {
        match run.feed(program, fed)? {
            Step::NeedSql { statement, args } => {
                let asked = format!(in alloc; "{statement}{:?}; ", args.as_slice())?;
                told.push_str(asked.as_str())?;
                fed = Some(answer(alloc, statement)?);
            }
            other => {
                told.push_str(end(alloc, other)?.as_str())?;
                return Ok(told);
            }
        }
    }
    Ok(told)
}

// ---- runs

/// The first value of the row of the outer FOR.
const FIRST: ProgramValue = ProgramValue::Column { row: 0, column: 0 };

/// The second row makes the rows of the other statement a further result.
fn asked_for_two(alloc: Global) -> Result<Items<ProgramStep>, AllocError> {
    let first = ProgramValue::First {
        result: 0,
        column: 0,
    };
    let args = [FIRST, ProgramValue::Rows(0), first];
    one(alloc, ask(alloc, 1, &args, Some(1))?)
}

/// For the others variable 1 is one more than the row.
fn branch(alloc: Global) -> Result<ProgramStep, AllocError> {
    let steps = asked_for_two(alloc)?;
    let otherwise = one(alloc, set(alloc, FIRST)?)?;
    if_two(alloc, FIRST, steps, otherwise)
}

/// A FOR over result 0.
fn each_row(alloc: Global, step: ProgramStep) -> Result<ProgramStep, AllocError> {
    Ok(ProgramStep::For {
        row: 0,
        result: 0,
        steps: one(alloc, step)?,
    })
}

/// The first result has three rows.
fn first_steps(alloc: Global) -> Result<Items<ProgramStep>, AllocError> {
    let given = set(alloc, ProgramValue::Variable(0))?;
    two(
        alloc,
        given,
        ask(alloc, 3, &[ProgramValue::Variable(1)], Some(0))?,
    )
}

fn loop_and_branch(alloc: Global) -> Result<Items<ProgramStep>, AllocError> {
    let mut steps = first_steps(alloc)?;
    steps.push(each_row(alloc, branch(alloc)?)?)?;
    let shown = [
        ProgramValue::Variable(1),
        ProgramValue::Rows(0),
        ProgramValue::Rows(1),
    ];
    steps.push(give(alloc, &shown)?)?;
    Ok(steps)
}

#[test]
fn program_is_run(rt: HostRuntime) -> Result<(), Fail> {
    let alloc = rt.alloc();
    let told = talk(alloc, &program(alloc, loop_and_branch(alloc)?)?, 6)?;
    assert_eq!(rt;
        told.as_str(),
        "3[Int(7)]; 1[Int(2), Int(3), Int(1)]; [Row { held: [Int(4), Int(3), Int(1)] }]"
    );
    Ok(())
}

/// The rows of a FOR are those that the result has when it is reached.
fn changed_result(alloc: Global) -> Result<Program, AllocError> {
    let row = ProgramValue::Column { row: 0, column: 0 };
    let mut steps = one(alloc, ask(alloc, 2, &[], Some(0))?)?;
    steps.push(ProgramStep::For {
        row: 0,
        result: 0,
        steps: one(alloc, ask(alloc, 0, &[row], Some(0))?)?,
    })?;
    steps.push(ProgramStep::Return(Returned::Result(0)))?;
    program(alloc, steps)
}

#[test]
fn rows_of_a_loop_stay(rt: HostRuntime) -> Result<(), Fail> {
    let alloc = rt.alloc();
    let told = talk(alloc, &changed_result(alloc)?, 6)?;
    assert_eq!(rt; told.as_str(), "2[]; 0[Int(1)]; 0[Int(2)]; []");
    Ok(())
}

/// A result is returned, also where a FOR holds its rows.
fn returned_in_loop(alloc: Global) -> Result<Program, AllocError> {
    let mut steps = one(alloc, ask(alloc, 2, &[], Some(1))?)?;
    steps.push(ProgramStep::For {
        row: 0,
        result: 1,
        steps: one(alloc, ProgramStep::Return(Returned::Result(1)))?,
    })?;
    program(alloc, steps)
}

#[test]
fn result_is_returned(rt: HostRuntime) -> Result<(), Fail> {
    let alloc = rt.alloc();
    let told = talk(alloc, &returned_in_loop(alloc)?, 6)?;
    assert_eq!(rt;
        told.as_str(),
        "2[]; [Row { held: [Int(1)] }, Row { held: [Int(2)] }]"
    );
    Ok(())
}

/// A step, with a statement behind it that is never asked.
fn check_aborts(
    rt: &impl Abort,
    alloc: Global,
    step: ProgramStep,
    parameter: i64,
    wanted: &str,
) -> Result<(), Fail> {
    let steps = two(alloc, step, ask(alloc, 1, &[], None)?)?;
    let told = talk(alloc, &program(alloc, steps)?, parameter)?;
    assert_eq!(rt; told.as_str(), wanted);
    Ok(())
}

#[test]
fn abort_ends_a_call(rt: HostRuntime) -> Result<(), Fail> {
    let alloc = rt.alloc();
    let step = ProgramStep::Abort(Text::of(alloc, "no")?);
    check_aborts(&rt, alloc, step, 1, "User(Text { held: \"no\" })")
}

#[test]
fn fault_of_a_statement_aborts(rt: HostRuntime) -> Result<(), Fail> {
    let step = ask(rt.alloc(), 9, &[], None)?;
    check_aborts(&rt, rt.alloc(), step, 1, "9[]; Fault(TooLong)")
}

#[test]
fn fault_of_an_expression_aborts(rt: HostRuntime) -> Result<(), Fail> {
    let step = set(rt.alloc(), ProgramValue::Variable(0))?;
    check_aborts(&rt, rt.alloc(), step, i64::MAX, "Fault(Overflow)")
}

#[test]
fn return_of_nothing_ends_a_call(rt: HostRuntime) -> Result<(), Fail> {
    let step = ProgramStep::Return(Returned::Nothing);
    check_aborts(&rt, rt.alloc(), step, 1, "[]")
}

/// So many rows, and a statement for each.
fn many(alloc: Global, rows: u16) -> Result<Program, AllocError> {
    let mut steps = one(alloc, ask(alloc, rows, &[], Some(0))?)?;
    steps.push(ProgramStep::For {
        row: 0,
        result: 0,
        steps: one(alloc, ask(alloc, 0, &[], None)?)?,
    })?;
    program(alloc, steps)
}

/// How a run ends that asks for so many statements and one more.
fn ends_of_many(alloc: Global, rows: u16) -> Result<(usize, bool), AllocError> {
    let told = talk(alloc, &many(alloc, rows)?, 1)?;
    let asked = told.as_str().matches(';').count();
    Ok((asked, told.as_str().ends_with("Statements")))
}

/// 200 statements are asked, and not one more.
#[test]
fn statements_are_counted(rt: HostRuntime) -> Result<(), Fail> {
    assert_eq!(rt; ends_of_many(rt.alloc(), 199)?, (200, false));
    assert_eq!(rt; ends_of_many(rt.alloc(), 200)?, (200, true));
    Ok(())
}

/// Rounds of one step that does nothing.
fn empty_rounds(alloc: Global) -> Result<ProgramStep, AllocError> {
    let variable = ProgramValue::Variable(0);
    let empty = if_two(alloc, variable, Items::new(alloc), Items::new(alloc))?;
    each_row(alloc, empty)
}

fn rows_and_rounds(alloc: Global, rows: u16) -> Result<Items<ProgramStep>, AllocError> {
    let asked = ask(alloc, rows, &[], Some(0))?;
    two(alloc, asked, empty_rounds(alloc)?)
}

fn rounds_and_let(alloc: Global) -> Result<Items<ProgramStep>, AllocError> {
    let rounds = empty_rounds(alloc)?;
    two(alloc, rounds, set(alloc, ProgramValue::Variable(0))?)
}

/// So many rows, their empty rounds twice, and a LET.
fn many_steps(alloc: Global, rows: u16) -> Result<Program, AllocError> {
    let mut steps = rows_and_rounds(alloc, rows)?;
    steps.append(rounds_and_let(alloc)?)?;
    program(alloc, steps)
}

/// 100,000 steps are run, and not one more: 49,998 rows take 4 and twice 49,998.
#[test]
fn steps_are_counted(rt: HostRuntime) -> Result<(), Fail> {
    let alloc = rt.alloc();
    assert_eq!(rt;
        talk(alloc, &many_steps(alloc, 49998)?, 1)?.as_str(),
        "49998[]; []"
    );
    assert_eq!(rt;
        talk(alloc, &many_steps(alloc, 49999)?, 1)?.as_str(),
        "49999[]; Steps"
    );
    Ok(())
}

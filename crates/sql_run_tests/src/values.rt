//! What operators give, by hand. A case takes its operands as the values of a row.

use expr_eval::*;
use expr_parse::{Arithmetic, Comparison};
use sql_plan::{Cond, Fault, RunFault, Scalar};
use sqlite_items::{Boxed, Items};
use std::alloc::{AllocError, Global};
use std::process::Abort;
use std::test::Fail;
use volt_value::{Text, Value};

const MOST: i64 = i64::MAX;

/// A number, or what no number gives.
fn seen(n: Option<i64>) -> Value {
    match n {
        Some(n) => Value::Int(n),
        None => Value::Null,
    }
}

/// Column 0, and then an operation with each further column.
fn calculation(alloc: Global, operations: &[Arithmetic]) -> Result<Scalar, AllocError> {
    let mut rest = Items::new(alloc);
    let mut column = 1;
    for operation in operations {
        rest.push((*operation, Scalar::Column(column)))?;
        column = 2;
    }
    Ok(Scalar::Chain {
        first: Boxed::new(alloc, Scalar::Column(0))?,
        rest,
    })
}

fn check_calculations(
    rt: &impl Abort,
    alloc: Global,
    told: &[(
        Option<i64>,
        Arithmetic,
        Option<i64>,
        Result<Option<i64>, Fault>,
    )],
) -> Result<(), Fail> {
    for (a, operation, b, wanted) in told {
        let e = calculation(alloc, &[*operation])?;
        let row = [seen(*a), seen(*b)];
        let wanted = (*wanted).map(seen).map_err(RunFault::Fault);
        assert!(rt; value(alloc, &e, &row, &[]) == wanted);
    }
    Ok(())
}

/// From BIGINT's least to its greatest, each beyond it by one, and toward zero.
#[test]
fn numbers_are_calculated(rt: HostRuntime) -> Result<(), Fail> {
    let (over, zero) = (Err(Fault::Overflow), Err(Fault::DivideByZero));
    let told = [
        (Some(MOST - 1), Arithmetic::Add, Some(1), Ok(Some(MOST))),
        (Some(MOST), Arithmetic::Add, Some(1), over),
        (
            Some(1 - MOST),
            Arithmetic::Subtract,
            Some(1),
            Ok(Some(-MOST)),
        ),
        (Some(-MOST), Arithmetic::Subtract, Some(1), over),
        (
            Some(3037000500),
            Arithmetic::Multiply,
            Some(3037000500),
            over,
        ),
        (Some(-MOST), Arithmetic::Multiply, Some(-1), Ok(Some(MOST))),
        (Some(-7), Arithmetic::Divide, Some(2), Ok(Some(-3))),
        (Some(7), Arithmetic::Divide, Some(-2), Ok(Some(-3))),
        (Some(7), Arithmetic::Divide, Some(0), zero),
        (None, Arithmetic::Divide, Some(0), Ok(None)),
        (Some(1), Arithmetic::Add, None, Ok(None)),
    ];
    check_calculations(&rt, rt.alloc(), &told)
}

/// The value of column 0 times column 1, and of column 1 divided by column 2, which is 0.
fn two(alloc: Global) -> Result<[Scalar; 2], AllocError> {
    let product = calculation(alloc, &[Arithmetic::Multiply, Arithmetic::Divide])?;
    let quotient = calculation(alloc, &[Arithmetic::Divide, Arithmetic::Divide])?;
    Ok([quotient, product])
}

/// The first fault from the left.
#[test]
fn first_fault_counts(rt: HostRuntime) -> Result<(), Fail> {
    let row = [Value::Int(MOST), Value::Int(2), Value::Int(0)];
    let e = calculation(rt.alloc(), &[Arithmetic::Multiply, Arithmetic::Divide])?;
    assert_eq!(rt; scalar(&e, &row, &[]).err(), Some(Fault::Overflow));
    Ok(())
}

/// The least fault of several expressions.
#[test]
fn least_fault_counts(rt: HostRuntime) -> Result<(), Fail> {
    let alloc = rt.alloc();
    let row = [Value::Int(MOST), Value::Int(2), Value::Int(0)];
    let both = two(alloc)?;
    let found = values(alloc, &both, &row, &[]).err();
    assert_eq!(rt; found, Some(RunFault::Fault(Fault::Overflow)));
    Ok(())
}

/// Texts, parameters, NULL past the end, and minus.
fn read(alloc: Global, args: &[Value]) -> Result<Vec<Value>, RunFault> {
    let minus = Scalar::Negate(Boxed::new(alloc, Scalar::Param(1))?);
    let word = Scalar::Literal(Value::Text(Text::of(alloc, "a\u{f1}o")?));
    let all = [word, Scalar::Param(0), minus, Scalar::Column(7)];
    values(alloc, &all, &[], args)
}

#[test]
fn values_are_read(rt: HostRuntime) -> Result<(), Fail> {
    let alloc = rt.alloc();
    let args = [Value::Text(Text::of(alloc, "b")?), Value::Int(5)];
    let all = read(alloc, &args)?;
    let shown = format!(in alloc; "{:?}", all.as_slice())?;
    assert_eq!(rt;
        shown.as_str(),
        "[Text(Text { held: \"a\u{f1}o\" }), Text(Text { held: \"b\" }), Int(-5), Null]"
    );
    Ok(())
}

#[test]
fn seen_value_is_owned(rt: HostRuntime) -> Result<(), Fail> {
    let alloc = rt.alloc();
    let word = Value::Text(Text::of(alloc, "b")?);
    assert!(rt; Seen::of(&word).owned(alloc)? == word);
    Ok(())
}

/// 1 / 0 = 1, which faults.
fn faulty(alloc: Global) -> Result<Cond, AllocError> {
    let mut rest = Items::new(alloc);
    rest.push((Arithmetic::Divide, Scalar::Literal(Value::Int(0))))?;
    let one = Boxed::new(alloc, Scalar::Literal(Value::Int(1)))?;
    let quotient = Scalar::Chain { first: one, rest };
    Ok(Cond::Compare(Comparison::Equal, quotient, Scalar::Literal(Value::Int(1))))
}

/// A condition that is true, false or unknown, or faults.
fn leaf(alloc: Global, letter: char) -> Result<Cond, AllocError> {
    match letter {
        't' => Ok(Cond::And(Items::new(alloc))),
        'f' => Ok(Cond::Or(Items::new(alloc))),
        'u' => Ok(Cond::Unknown),
        _ => faulty(alloc),
    }
}

fn leaves(alloc: Global, letters: &str) -> Result<Items<Cond>, AllocError> {
    let mut all = Items::new(alloc);
    for letter in letters.chars() {
        all.push(leaf(alloc, letter)?)?;
    }
    Ok(all)
}

fn letter_of(truth: Result<Option<bool>, Fault>) -> char {
    match truth {
        Ok(Some(true)) => 't',
        Ok(Some(false)) => 'f',
        Ok(None) => 'u',
        Err(_) => 'x',
    }
}

fn letter(e: &Cond) -> char {
    letter_of(condition(e, &[], &[]))
}

fn all(alloc: Global, letters: &str) -> Result<char, AllocError> {
    Ok(letter(&Cond::And(leaves(alloc, letters)?)))
}

fn some(alloc: Global, letters: &str) -> Result<char, AllocError> {
    Ok(letter(&Cond::Or(leaves(alloc, letters)?)))
}

fn not_all(alloc: Global, letters: &str) -> Result<char, AllocError> {
    let all = Boxed::new(alloc, Cond::And(leaves(alloc, letters)?))?;
    Ok(letter(&Cond::Not(all)))
}

/// What AND, OR, and NOT of the AND make of conditions.
fn joined(alloc: Global, letters: &str) -> Result<[char; 3], AllocError> {
    Ok([
        all(alloc, letters)?,
        some(alloc, letters)?,
        not_all(alloc, letters)?,
    ])
}

fn check_joined(rt: &impl Abort, alloc: Global, told: &[(&str, [char; 3])]) -> Result<(), Fail> {
    for (letters, wanted) in told {
        assert_eq!(rt; joined(alloc, *letters)?, *wanted, "{letters}");
    }
    Ok(())
}

/// What stands behind a false one in AND, behind a true one in OR, isn't evaluated.
#[test]
fn truth_has_three_values(rt: HostRuntime) -> Result<(), Fail> {
    let told = [
        ("", ['t', 'f', 'f']),
        ("tt", ['t', 't', 'f']),
        ("tf", ['f', 't', 't']),
        ("tu", ['u', 't', 'u']),
        ("fu", ['f', 'u', 't']),
        ("uf", ['f', 'u', 't']),
        ("ut", ['u', 't', 'u']),
        ("uu", ['u', 'u', 'u']),
        ("ux", ['x', 'x', 'x']),
        ("ufx", ['f', 'x', 't']),
        ("utx", ['x', 't', 'x']),
        ("fx", ['f', 'x', 't']),
        ("tx", ['x', 't', 'x']),
        ("xf", ['x', 'x', 'x']),
    ];
    check_joined(&rt, rt.alloc(), &told)
}

#[test]
fn only_truth_holds(rt: HostRuntime) -> Result<(), Fail> {
    assert_eq!(rt; holds(&Cond::Unknown, &[], &[]), Ok(false));
    assert_eq!(rt;
        holds(&faulty(rt.alloc())?, &[], &[]),
        Err(Fault::DivideByZero)
    );
    Ok(())
}

/// The six comparisons of the first two values, in the order of their signs `= <> < <= > >=`, as letters.
fn compared(alloc: Global, row: &[Value]) -> Result<String, AllocError> {
    let mut letters = String::new(alloc);
    for comparison in [
        Comparison::Equal,
        Comparison::NotEqual,
        Comparison::Less,
        Comparison::LessOrEqual,
        Comparison::Greater,
        Comparison::GreaterOrEqual,
    ] {
        let e = Cond::Compare(comparison, Scalar::Column(0), Scalar::Column(1));
        letters.push(letter_of(condition(&e, row, &[])))?;
    }
    Ok(letters)
}

fn check_pairs(
    rt: &impl Abort,
    alloc: Global,
    told: &[(Option<i64>, Option<i64>, &str)],
) -> Result<(), Fail> {
    for (a, b, wanted) in told {
        assert_eq!(rt; compared(alloc, &[seen(*a), seen(*b)])?.as_str(), *wanted);
    }
    Ok(())
}

#[test]
fn numbers_are_compared(rt: HostRuntime) -> Result<(), Fail> {
    let told = [
        (Some(-1), Some(2), "ftttff"),
        (Some(2), Some(2), "tfftft"),
        (Some(2), Some(-1), "ftfftt"),
        (None, Some(2), "uuuuuu"),
        (None, None, "uuuuuu"),
    ];
    check_pairs(&rt, rt.alloc(), &told)
}

#[test]
fn texts_are_compared(rt: HostRuntime) -> Result<(), Fail> {
    let alloc = rt.alloc();
    let texts = [
        Value::Text(Text::of(alloc, "a")?),
        Value::Text(Text::of(alloc, "aa")?),
    ];
    assert_eq!(rt; compared(alloc, &texts)?.as_str(), "ftttff");
    Ok(())
}

/// BETWEEN, IN and IS NULL of the first value, the first two with the others, as letters.
fn examined(alloc: Global, row: &[Value]) -> Result<String, AllocError> {
    let mut items = Items::new(alloc);
    items.push(Scalar::Column(1))?;
    items.push(Scalar::Column(2))?;
    let between = Cond::Between {
        value: Scalar::Column(0),
        low: Scalar::Column(1),
        high: Scalar::Column(2),
    };
    let among = Cond::In {
        value: Scalar::Column(0),
        items,
    };
    let mut letters = String::new(alloc);
    for e in [between, among, Cond::IsNull(Scalar::Column(0))] {
        letters.push(letter_of(condition(&e, row, &[])))?;
    }
    Ok(letters)
}

fn check_examined(
    rt: &impl Abort,
    alloc: Global,
    told: &[([Option<i64>; 3], &str)],
) -> Result<(), Fail> {
    for (row, wanted) in told {
        let row = [seen(row[0]), seen(row[1]), seen(row[2])];
        assert_eq!(rt; examined(alloc, &row)?.as_str(), *wanted);
    }
    Ok(())
}

#[test]
fn values_are_examined(rt: HostRuntime) -> Result<(), Fail> {
    let told = [
        ([Some(2), Some(2), Some(3)], "ttf"),
        ([Some(3), Some(2), Some(3)], "ttf"),
        ([Some(1), Some(2), Some(3)], "fff"),
        ([Some(4), Some(2), Some(3)], "fff"),
        ([Some(2), None, Some(3)], "uuf"),
        ([Some(4), None, Some(3)], "fuf"),
        ([Some(3), None, Some(3)], "utf"),
        ([None, Some(2), Some(3)], "uut"),
    ];
    check_examined(&rt, rt.alloc(), &told)
}

fn noted(alloc: Global, met: &[Result<i64, Fault>]) -> Result<Vec<i64>, RunFault> {
    let mut collector = Collector::new(alloc);
    for one in met {
        collector.note(*one)?;
    }
    collector.finish()
}

#[test]
fn least_fault_is_collected(rt: HostRuntime) -> Result<(), Fail> {
    let alloc = rt.alloc();
    assert_eq!(rt; noted(alloc, &[Ok(3), Ok(1)])?.as_slice(), &[3, 1][..]);
    let faults = [
        Ok(3),
        Err(Fault::TooLong),
        Ok(1),
        Err(Fault::NullInColumn),
        Err(Fault::Duplicate),
    ];
    assert_eq!(rt;
        noted(alloc, &faults).err(),
        Some(RunFault::Fault(Fault::NullInColumn))
    );
    Ok(())
}

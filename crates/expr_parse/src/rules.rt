//! The rules of expressions.

ghost use Rattle.std.specs.Prelude.{◌≡◌};
ghost use Rattle.sql_grammar.specs.Grammar.{parse, at, skip};
ghost use Rattle.expr_parse.specs.Reads.{Reads, applied};
ghost use Rattle.expr_parse.specs.Nests.{Nests};
ghost use Rattle.expr_parse.specs.Expressions as spec;

use crate::atoms::{begins_literal, literal, named};
use crate::cursor::Tokens;
use crate::expression::Expr;
use crate::fault::Fault;
use crate::levels::Level;
use crate::lists::comma_list;
use crate::operators::{
    adding, between, both, calculate, compare, comparing, either, invert, is_in, is_null, negate,
    parenthesize, scaling,
};
use sql_grammar::Kind;
use sqlite_items::Items;
use std::alloc::Global;

/// The rules where so many nestings are left. They take the function that reads what nests in them
/// as a value, so that each is proved by itself.
#[derive(Clone, Copy)]
pub struct Rules<F> {
    pub alloc: Global,
    pub depth: usize,
    pub level: F,
}

impl<F: Fn(Global, &mut Tokens<'_>, usize, Level) -> Result<Expr, Fault>> Rules<F> {
    /// What nests one further in.
    fn inner(&self, tokens: &mut Tokens<'_>, level: Level) -> Result<Expr, Fault>
        requires { Nests self.now.depth (F.pre self.now.level) (F.post self.now.level) }
        ensures { Reads (parse (spec.deeper self.now.depth level) tokens.old) result tokens.new }
    {
        if self.depth == 0 {
            return Err(Fault::Syntax);
        }
        (self.level)(self.alloc, tokens, self.depth - 1, level)
    }

    /// `"(" expr ")"`.
    #[tactic(auto, using(crate::proofs::Steps::steps), unfolding(crate::specs::Expressions::parenthesized))]
    fn parenthesized(&self, tokens: &mut Tokens<'_>) -> Result<Expr, Fault>
        requires { Nests self.now.depth (F.pre self.now.level) (F.post self.now.level) }
        ensures { Reads (parse (spec.parenthesized self.now.depth (spec.deeper self.now.depth)) tokens.old) result tokens.new }
    {
        tokens.open(self.depth, Kind::LeftParen)?;
        let inner = self.inner(tokens, Level::Whole)?;
        match tokens.expect(Kind::RightParen) {
            Ok(()) => Ok(parenthesize(self.alloc, inner)?),
            Err(fault) => Err(fault.after(inner)),
        }
    }

    /// An expression in parentheses, a literal, or what begins with a name, `":"`, ROWS or FIRST.
    #[tactic(auto, using(crate::proofs::Steps::steps), unfolding(crate::specs::Expressions::atom, crate::specs::Expressions::parenthesized))]
    fn atom(&self, tokens: &mut Tokens<'_>) -> Result<Expr, Fault>
        requires { Nests self.now.depth (F.pre self.now.level) (F.post self.now.level) }
        ensures { Reads (parse (spec.atom self.now.depth (spec.deeper self.now.depth)) tokens.old) result tokens.new }
    {
        if tokens.begins(self.depth, Kind::LeftParen) {
            return self.parenthesized(tokens);
        }
        if begins_literal(tokens) {
            return literal(self.alloc, tokens);
        }
        named(self.alloc, tokens, self.depth)
    }

    /// `"-" signed`.
    #[tactic(auto, using(crate::proofs::Steps::steps), unfolding(crate::specs::Expressions::minus))]
    fn minus(&self, tokens: &mut Tokens<'_>) -> Result<Expr, Fault>
        requires { Nests self.now.depth (F.pre self.now.level) (F.post self.now.level) }
        ensures { Reads (parse (spec.minus self.now.depth (spec.deeper self.now.depth)) tokens.old) result tokens.new }
    {
        tokens.open(self.depth, Kind::Minus)?;
        let operand = self.inner(tokens, Level::Sign)?;
        Ok(negate(self.alloc, operand)?)
    }

    /// Unary `-` over atoms.
    #[tactic(auto, using(crate::proofs::Steps::steps), unfolding(crate::specs::Expressions::signed, crate::specs::Expressions::minus))]
    fn signed(&self, tokens: &mut Tokens<'_>) -> Result<Expr, Fault>
        requires { Nests self.now.depth (F.pre self.now.level) (F.post self.now.level) }
        ensures { Reads (parse (spec.signed self.now.depth (spec.deeper self.now.depth)) tokens.old) result tokens.new }
    {
        if tokens.begins(self.depth, Kind::Minus) {
            return self.minus(tokens);
        }
        self.atom(tokens)
    }

    /// `*` and `/` over unary `-`.
    #[tactic(auto, using(crate::proofs::Steps::steps), unfolding(crate::specs::Expressions::product))]
    fn product(&self, tokens: &mut Tokens<'_>) -> Result<Expr, Fault>
        requires { Nests self.now.depth (F.pre self.now.level) (F.post self.now.level) }
        ensures { Reads (parse (spec.product self.now.depth (spec.deeper self.now.depth)) tokens.old) result tokens.new }
    {
        let mut left = self.signed(tokens)?;
        for _turn in 0..tokens.left() {
            let Some(operator) = scaling(tokens) else {
                return Ok(left);
            };
            let right = match self.signed(tokens) {
                Ok(right) => right,
                Err(fault) => return Err(fault.after(left)),
            };
            left = calculate(self.alloc, operator, left, right)?;
        }
        Ok(left)
    }

    /// `+` and `-` over `*` and `/`.
    #[tactic(auto, using(crate::proofs::Steps::steps), unfolding(crate::specs::Expressions::sum))]
    fn sum(&self, tokens: &mut Tokens<'_>) -> Result<Expr, Fault>
        requires { Nests self.now.depth (F.pre self.now.level) (F.post self.now.level) }
        ensures { Reads (parse (spec.sum self.now.depth (spec.deeper self.now.depth)) tokens.old) result tokens.new }
    {
        let mut left = self.product(tokens)?;
        for _turn in 0..tokens.left() {
            let Some(operator) = adding(tokens) else {
                return Ok(left);
            };
            let right = match self.product(tokens) {
                Ok(right) => right,
                Err(fault) => return Err(fault.after(left)),
            };
            left = calculate(self.alloc, operator, left, right)?;
        }
        Ok(left)
    }

    /// `[NOT] NULL`, behind IS.
    #[tactic(auto, using(crate::proofs::Steps::steps), unfolding(crate::specs::Expressions::null_test))]
    fn null_test(&self, tokens: &mut Tokens<'_>, value: Expr) -> Result<Expr, Fault>
        requires { Nests self.now.depth (F.pre self.now.level) (F.post self.now.level) }
        ensures { Reads (applied value (parse (spec.null_test self.now.depth (spec.deeper self.now.depth)) tokens.old)) result tokens.new }
    {
        let negated = tokens.eat(Kind::Not);
        match tokens.expect(Kind::Null) {
            Ok(()) => Ok(is_null(self.alloc, value, negated)?),
            Err(fault) => Err(fault.after(value)),
        }
    }

    /// `AND sum`.
    #[tactic(auto, using(crate::proofs::Steps::steps))]
    fn high(&self, tokens: &mut Tokens<'_>) -> Result<Expr, Fault>
        requires { Nests self.now.depth (F.pre self.now.level) (F.post self.now.level) }
        ensures { Reads (parse (skip Kind.And (spec.sum self.now.depth (spec.deeper self.now.depth))) tokens.old) result tokens.new }
    {
        tokens.expect(Kind::And)?;
        self.sum(tokens)
    }

    /// `sum AND sum`.
    #[tactic(auto, using(crate::proofs::Steps::steps))]
    fn range(&self, tokens: &mut Tokens<'_>) -> Result<(Expr, Expr), Fault>
        requires { Nests self.now.depth (F.pre self.now.level) (F.post self.now.level) }
        ensures { Reads (parse (spec.range self.now.depth (spec.deeper self.now.depth)) tokens.old) result tokens.new }
    {
        let low = self.sum(tokens)?;
        match self.high(tokens) {
            Ok(high) => Ok((low, high)),
            Err(fault) => Err(fault.after(low)),
        }
    }

    /// `sum AND sum`, behind BETWEEN.
    #[tactic(auto, using(crate::proofs::Steps::steps), unfolding(crate::specs::Expressions::between))]
    fn between(&self, tokens: &mut Tokens<'_>, value: Expr, negated: bool) -> Result<Expr, Fault>
        requires { Nests self.now.depth (F.pre self.now.level) (F.post self.now.level) }
        ensures { Reads (applied value (parse (spec.between self.now.depth (spec.deeper self.now.depth) negated) tokens.old)) result tokens.new }
    {
        match self.range(tokens) {
            Ok((low, high)) => Ok(between(self.alloc, value, low, high, negated)?),
            Err(fault) => Err(fault.after(value)),
        }
    }

    /// `sum {"," sum}`.
    #[tactic(auto, unfolding(crate::specs::Expressions::sums))]
    fn sums(&self, tokens: &mut Tokens<'_>) -> Result<Items<Expr>, Fault>
        requires { Nests self.now.depth (F.pre self.now.level) (F.post self.now.level) }
        ensures { Reads (parse (spec.sums self.now.depth (spec.deeper self.now.depth)) tokens.old) result tokens.new }
    {
        comma_list(
            self.alloc,
            tokens,
            |_alloc, tokens| self.inner(tokens, Level::Sum),
        )
    }

    /// `"(" sum {"," sum} ")"`.
    #[tactic(auto, using(crate::proofs::Steps::steps))]
    fn listed(&self, tokens: &mut Tokens<'_>) -> Result<Items<Expr>, Fault>
        requires { Nests self.now.depth (F.pre self.now.level) (F.post self.now.level) }
        ensures { Reads (parse (spec.parens self.now.depth (spec.sums self.now.depth (spec.deeper self.now.depth))) tokens.old) result tokens.new }
    {
        tokens.open(self.depth, Kind::LeftParen)?;
        let items = self.sums(tokens)?;
        match tokens.expect(Kind::RightParen) {
            Ok(()) => Ok(items),
            Err(fault) => Err(fault.after(items)),
        }
    }

    /// `"(" sum {"," sum} ")"`, behind IN.
    #[tactic(auto, using(crate::proofs::Steps::steps), unfolding(crate::specs::Expressions::among))]
    fn among(&self, tokens: &mut Tokens<'_>, value: Expr, negated: bool) -> Result<Expr, Fault>
        requires { Nests self.now.depth (F.pre self.now.level) (F.post self.now.level) }
        ensures { Reads (applied value (parse (spec.among self.now.depth (spec.deeper self.now.depth) negated) tokens.old)) result tokens.new }
    {
        match self.listed(tokens) {
            Ok(items) => Ok(is_in(self.alloc, value, items, negated)?),
            Err(fault) => Err(fault.after(value)),
        }
    }

    /// BETWEEN or IN with what follows it, behind NOT.
    #[tactic(auto, using(crate::proofs::Steps::steps), unfolding(crate::specs::Expressions::excluded))]
    fn excluded(&self, tokens: &mut Tokens<'_>, value: Expr) -> Result<Expr, Fault>
        requires { Nests self.now.depth (F.pre self.now.level) (F.post self.now.level) }
        ensures { Reads (applied value (parse (spec.excluded self.now.depth (spec.deeper self.now.depth)) tokens.old)) result tokens.new }
    {
        if tokens.eat(Kind::Between) {
            return self.between(tokens, value, true);
        }
        match tokens.expect(Kind::In) {
            Ok(()) => self.among(tokens, value, true),
            Err(fault) => Err(fault.after(value)),
        }
    }

    /// `[cmp sum]`.
    #[tactic(auto, using(crate::proofs::Steps::steps), unfolding(crate::specs::Expressions::compared))]
    fn compared(&self, tokens: &mut Tokens<'_>, value: Expr) -> Result<Expr, Fault>
        requires { Nests self.now.depth (F.pre self.now.level) (F.post self.now.level) }
        ensures { Reads (applied value (parse (spec.compared self.now.depth (spec.deeper self.now.depth)) tokens.old)) result tokens.new }
    {
        let Some(operator) = comparing(tokens) else {
            return Ok(value);
        };
        match self.sum(tokens) {
            Ok(right) => Ok(compare(self.alloc, operator, value, right)?),
            Err(fault) => Err(fault.after(value)),
        }
    }

    /// BETWEEN or IN with what follows it, or a comparison, or nothing.
    #[tactic(auto, using(crate::proofs::Steps::steps), unfolding(crate::specs::Expressions::contained))]
    fn contained(&self, tokens: &mut Tokens<'_>, value: Expr) -> Result<Expr, Fault>
        requires { Nests self.now.depth (F.pre self.now.level) (F.post self.now.level) }
        ensures { Reads (applied value (parse (spec.contained self.now.depth (spec.deeper self.now.depth)) tokens.old)) result tokens.new }
    {
        if tokens.eat(Kind::Between) {
            return self.between(tokens, value, false);
        }
        if tokens.eat(Kind::In) {
            return self.among(tokens, value, false);
        }
        self.compared(tokens, value)
    }

    /// What a predicate says of the sum before it, where it says something.
    #[tactic(auto, using(crate::proofs::Steps::steps), unfolding(crate::specs::Expressions::tested))]
    fn tested(&self, tokens: &mut Tokens<'_>, value: Expr) -> Result<Expr, Fault>
        requires { Nests self.now.depth (F.pre self.now.level) (F.post self.now.level) }
        ensures { Reads (applied value (parse (spec.tested self.now.depth (spec.deeper self.now.depth)) tokens.old)) result tokens.new }
    {
        if tokens.eat(Kind::Is) {
            return self.null_test(tokens, value);
        }
        if tokens.eat(Kind::Not) {
            return self.excluded(tokens, value);
        }
        self.contained(tokens, value)
    }

    /// A sum, compared or tested.
    #[tactic(auto, using(crate::proofs::Steps::steps), unfolding(crate::specs::Expressions::predicate))]
    fn predicate(&self, tokens: &mut Tokens<'_>) -> Result<Expr, Fault>
        requires { Nests self.now.depth (F.pre self.now.level) (F.post self.now.level) }
        ensures { Reads (parse (spec.predicate self.now.depth (spec.deeper self.now.depth)) tokens.old) result tokens.new }
    {
        let value = self.sum(tokens)?;
        self.tested(tokens, value)
    }

    /// `NOT negation`.
    #[tactic(auto, using(crate::proofs::Steps::steps), unfolding(crate::specs::Expressions::inverted))]
    fn inverted(&self, tokens: &mut Tokens<'_>) -> Result<Expr, Fault>
        requires { Nests self.now.depth (F.pre self.now.level) (F.post self.now.level) }
        ensures { Reads (parse (spec.inverted self.now.depth (spec.deeper self.now.depth)) tokens.old) result tokens.new }
    {
        tokens.open(self.depth, Kind::Not)?;
        let operand = self.inner(tokens, Level::Negation)?;
        Ok(invert(self.alloc, operand)?)
    }

    /// NOT over tests.
    #[tactic(auto, using(crate::proofs::Steps::steps), unfolding(crate::specs::Expressions::negation, crate::specs::Expressions::inverted))]
    fn negation(&self, tokens: &mut Tokens<'_>) -> Result<Expr, Fault>
        requires { Nests self.now.depth (F.pre self.now.level) (F.post self.now.level) }
        ensures { Reads (parse (spec.negation self.now.depth (spec.deeper self.now.depth)) tokens.old) result tokens.new }
    {
        if tokens.begins(self.depth, Kind::Not) {
            return self.inverted(tokens);
        }
        self.predicate(tokens)
    }

    /// AND over NOT.
    #[tactic(auto, using(crate::proofs::Steps::steps), unfolding(crate::specs::Expressions::conjunction))]
    fn conjunction(&self, tokens: &mut Tokens<'_>) -> Result<Expr, Fault>
        requires { Nests self.now.depth (F.pre self.now.level) (F.post self.now.level) }
        ensures { Reads (parse (spec.conjunction self.now.depth (spec.deeper self.now.depth)) tokens.old) result tokens.new }
    {
        let mut left = self.negation(tokens)?;
        for _turn in 0..tokens.left() {
            if !tokens.eat(Kind::And) {
                return Ok(left);
            }
            let right = match self.negation(tokens) {
                Ok(right) => right,
                Err(fault) => return Err(fault.after(left)),
            };
            left = both(self.alloc, left, right)?;
        }
        Ok(left)
    }

    /// OR over AND.
    #[tactic(auto, using(crate::proofs::Steps::steps), unfolding(crate::specs::Expressions::disjunction))]
    fn disjunction(&self, tokens: &mut Tokens<'_>) -> Result<Expr, Fault>
        requires { Nests self.now.depth (F.pre self.now.level) (F.post self.now.level) }
        ensures { Reads (parse (spec.disjunction self.now.depth (spec.deeper self.now.depth)) tokens.old) result tokens.new }
    {
        let mut left = self.conjunction(tokens)?;
        for _turn in 0..tokens.left() {
            if !tokens.eat(Kind::Or) {
                return Ok(left);
            }
            let right = match self.conjunction(tokens) {
                Ok(right) => right,
                Err(fault) => return Err(fault.after(left)),
            };
            left = either(self.alloc, left, right)?;
        }
        Ok(left)
    }

    /// The rule of this level.
    pub fn at_level(&self, tokens: &mut Tokens<'_>, level: Level) -> Result<Expr, Fault>
        requires { Nests self.now.depth (F.pre self.now.level) (F.post self.now.level) }
        ensures { Reads (parse (spec.by_level self.now.depth (spec.deeper self.now.depth) level) tokens.old) result tokens.new }
    {
        match level {
            Level::Whole => self.disjunction(tokens),
            Level::Negation => self.negation(tokens),
            Level::Sum => self.sum(tokens),
            Level::Sign => self.signed(tokens),
        }
    }
}

//! A cursor over the tokens of a text.

ghost use Rattle.std.specs.Prelude.{◌≡◌, ◌≤◌, All, length, take, drop};
ghost use Rattle.volt_text.specs.Tokens.{slice_of, Reads as Lexes, Tokens as Lexed};
ghost use Rattle.sql_grammar.specs.Grammar.{next_is, take_tok, parse};
ghost use Rattle.expr_parse.specs.Expressions.{number, text};
ghost use Rattle.expr_parse.specs.Reads.{Reads};
ghost use Rattle.expr_parse.specs.Cursor as spec;

use crate::fault::Fault;
use crate::quoted::text_of;
use sql_grammar::{Kind, kind_of, number_value};
use std::alloc::Global;
use std::marker::Model;
use volt_text::Token;
use volt_value::Text;

/// What is left of a text's tokens. It is seen as the list of them, each with its kind and what
/// stands there.
#[derive(Drop)]
pub struct Tokens<'a> {
    text: &'a str,
    left: &'a [Token],
    /// The kind of the next token.
    next: Option<Kind>,
}

impl<'a> Model for Tokens<'a> {
    ghost use Rattle.std.specs.Prelude.{List};
    ghost use Rattle.sql_grammar.specs.Grammar.{Tok};
    ghost use Rattle.expr_parse.specs.Cursor.{left_of, IsReady};

    ghost Value = { List Tok };

    ghost view = { left_of };

    ghost invariant = { IsReady };
}

/// What stands in the text at a token.
fn slice_of<'a>(text: &'a str, token: &Token) -> &'a str
    requires { spec.Stands text.now token.now }
    ensures { result.now ≡ slice_of text.now token.now }
{
    let from = token.at as usize;
    let to = from + token.len as usize;
    &text[from..to]
}

/// The kind of the first token.
fn prefix_kind(text: &str, tokens: &[Token]) -> Option<Kind>
    requires { All (spec.Stands text.now) tokens.now }
    ensures { result ≡ spec.prefix_kind (spec.toks text.now tokens.now) }
{
    match tokens {
        [token, ..] => Some(kind_of(token.kind, slice_of(text, token).as_bytes())),
        [] => None,
    }
}

impl<'a> Tokens<'a> {
    /// A cursor at the token of this number, from 0, of those that `lex` gives of the text; at the
    /// end, where the number is how many there are.
    pub fn at(text: &'a str, tokens: &'a [Token], from: usize) -> Tokens<'a>
        requires lexed { Lexes text.now (Lexed tokens.now) }
        requires within { from ≤ length tokens.now }
        ensures { result ≡ drop from (spec.toks text.now tokens.now) }
    {
        let (_, ahead) = tokens.split_at(from);
        Tokens::new(text, ahead)
    }

    /// A cursor at the first of these tokens.
    fn new(text: &'a str, tokens: &'a [Token]) -> Tokens<'a>
        requires { All (spec.Stands text.now) tokens.now }
        ensures { result ≡ spec.toks text.now tokens.now }
    {
        Tokens {
            text,
            left: tokens,
            next: prefix_kind(text, tokens),
        }
    }

    /// How many tokens are left.
    pub fn left(&self) -> usize
        ensures { result ≡ length self.now }
    {
        self.left.len()
    }

    /// Whether the next token is of this kind.
    pub fn sees(&self, kind: Kind) -> bool
        ensures { result ≡ next_is kind self.now }
    {
        match self.next {
            Some(next) => next.is(kind),
            None => false,
        }
    }

    /// Goes past so many tokens, or all where there are fewer.
    pub fn advance(&mut self, count: usize)
        ensures { self.new ≡ drop count self.old }
    {
        if count < self.left.len() {
            let (_, rest) = self.left.split_at(count);
            self.left = rest;
        } else {
            self.left = &[];
        }
        self.next = prefix_kind(self.text, self.left);
    }

    /// A cursor over so many of the tokens, or over all where there are fewer.
    pub fn prefix(&self, count: usize) -> Tokens<'a>
        ensures { result ≡ take count self.now }
    {
        if count < self.left.len() {
            let (prefix, _) = self.left.split_at(count);
            Tokens::new(self.text, prefix)
        } else {
            Tokens::new(self.text, self.left)
        }
    }

    /// Reads the next token if it is of this kind.
    pub fn eat(&mut self, kind: Kind) -> bool
        ensures { spec.Eats kind result self.old self.new }
    {
        if self.sees(kind) {
            self.advance(1);
            true
        } else {
            false
        }
    }

    /// Reads a token of this kind.
    pub fn expect(&mut self, kind: Kind) -> Result<(), Fault>
        ensures { spec.Expects kind result self.old self.new }
    {
        if self.eat(kind) {
            Ok(())
        } else {
            Err(Fault::Syntax)
        }
    }

    /// Reads a token of this kind, and answers what stands there.
    pub fn take(&mut self, kind: Kind) -> Result<&'a str, Fault>
        ensures { Reads (take_tok kind self.old) (spec.seen result) self.new }
    {
        match self.left {
            [token, ..] if self.sees(kind) => {
                let text = slice_of(self.text, token);
                self.advance(1);
                Ok(text)
            }
            _ => Err(Fault::Syntax),
        }
    }

    /// Reads a name.
    pub fn name(&mut self, alloc: Global) -> Result<Text, Fault>
        ensures { Reads (take_tok Kind.Name self.old) result self.new }
    {
        let name = self.take(Kind::Name)?;
        Ok(Text::of(alloc, name)?)
    }

    /// Reads a token of this kind, with which something nests, where so many may still nest.
    pub fn open(&mut self, depth: usize, kind: Kind) -> Result<(), Fault>
        ensures { spec.Opens depth kind result self.old self.new }
    {
        if depth == 0 {
            return Err(Fault::Syntax);
        }
        self.expect(kind)
    }

    /// Whether the next token is of this kind, with which something may nest.
    pub fn begins(&self, depth: usize, kind: Kind) -> bool
        ensures { result ≡ spec.begins depth kind self.now }
    {
        if depth == 0 {
            return false;
        }
        self.sees(kind)
    }

    /// Reads a number.
    #[tactic(auto, unfolding(crate::specs::Words::number_of))]
    pub fn number(&mut self) -> Result<i64, Fault>
        ensures { Reads (parse number self.old) result self.new }
    {
        let digits = self.take(Kind::Number)?;
        match number_value(digits.as_bytes()) {
            Some(value) => Ok(value as i64),
            None => Ok(0),
        }
    }

    /// Reads a quoted text.
    pub fn text(&mut self, alloc: Global) -> Result<Text, Fault>
        ensures { Reads (parse text self.old) result self.new }
    {
        let quoted = self.take(Kind::Text)?;
        Ok(text_of(alloc, quoted)?)
    }
}

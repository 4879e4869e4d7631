//! What is found out about a statement on the way through it.

ghost use Rattle.std.specs.Prelude.{◌≡◌, length, OnOk, IfOk};
ghost use Rattle.sql_resolve.specs.Expressions.{noted_alone};
ghost use Rattle.sql_resolve.specs.Notes as notes;

use crate::fault::CheckFault;
use crate::sort::Sort;
use sql_plan::ProgramValue;
use sqlite_items::Items;
use std::alloc::{AllocError, Global};
use volt_value::Class;

/// How many `?` there may be.
const MOST_QUESTIONS: usize = 32;

/// What was found out about a statement so far, from the left.
#[derive(Debug, Drop)]
pub struct Notes {
    /// The class of each parameter: of each `?`, and in a program of each place that takes a value of
    /// it.
    pub params: Items<Class>,
    /// The values of the program, one for each such place.
    pub args: Items<ProgramValue>,
    /// How many `?` there are in a program, where each is a fault.
    pub strays: usize,
    /// The fault of the least number.
    pub fault: Option<CheckFault>,
}

impl Notes {
    /// Nothing yet.
    pub fn new(alloc: Global) -> Notes
        ensures { result ≡ notes.nothing }
    {
        Notes {
            params: Items::new(alloc),
            args: Items::new(alloc),
            strays: 0,
            fault: None,
        }
    }

    /// Notes a fault.
    pub fn blame(&mut self, fault: CheckFault)
        ensures { self.new ≡ notes.blamed fault self.old }
    {
        self.fault = Some(fault.or_worse(self.fault));
    }

    /// Notes a value of a class where one of another is wanted.
    pub fn fit(&mut self, class: Class, wanted: Class)
        ensures { self.new ≡ notes.fitted class wanted self.old }
    {
        match (class, wanted) {
            (Class::Int, Class::Int) | (Class::Text, Class::Text) => {}
            _ => self.blame(CheckFault::TypeMismatch),
        }
    }

    /// Notes a number of things of which there may be so many.
    pub fn limit(&mut self, most: usize, count: usize)
        ensures { self.new ≡ notes.limited most count self.old }
    {
        if count > most {
            self.blame(CheckFault::TooMany);
        }
    }

    /// Notes a value that stands by itself.
    pub fn note_alone(&mut self, sort: Sort)
        ensures { self.new ≡ noted_alone sort self.old }
    {
        if !sort.stands_alone() {
            self.blame(CheckFault::TypeMismatch);
        }
    }

    /// Notes one more parameter, and answers its number.
    pub fn param(&mut self, class: Class) -> Result<usize, AllocError>
        ensures { IfOk result (λ number. (self.new, number) ≡ notes.with_param class self.old) }
    {
        let number = self.params.len();
        self.params.push(class)?;
        Ok(number)
    }

    /// Notes one more place that takes a value of the program, and answers its number.
    pub fn place(&mut self, value: ProgramValue, class: Class) -> Result<usize, AllocError>
        ensures { IfOk result (λ number. (self.new, number) ≡ notes.with_place value class self.old) }
    {
        let number = self.params.len();
        self.params.push(class)?;
        self.args.push(value)?;
        Ok(number)
    }

    /// Notes a `?` in a program.
    pub(crate) fn stray(&mut self)
        ensures { self.new ≡ notes.strayed self.old }
    {
        if self.strays < MOST_QUESTIONS {
            self.strays += 1;
            self.blame(CheckFault::UnboundName);
        } else {
            self.blame(CheckFault::TooMany);
        }
    }
}

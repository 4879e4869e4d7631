//! All values, or the least of all faults.

ghost use Rattle.std.specs.Prelude.{◌≡◌, ◌∷◌, [], List, Result, OnOk};
ghost use Rattle.sql_plan.specs.declared.fault.Fault.{Fault};
ghost use Rattle.sql_meaning.specs.Judged as spec;
ghost use Rattle.expr_eval.specs.Collected.{with_more};

use sql_plan::{Fault, RunFault};
use std::alloc::{AllocError, Global};

/// The values that were noted in their order or, where there was a fault, the least of the faults.
#[derive(Debug, Drop)]
pub struct Collector<T> {
    fault: Option<Fault>,
    values: Vec<T>,
}

/// The fault of the lesser number.
fn lesser(f: Fault, g: Fault) -> Fault
    ensures { result ≡ spec.lesser f g }
{
    if f.code() <= g.code() { f } else { g }
}

/// With one fault more.
fn least(before: Option<Fault>, fault: Fault) -> Fault
    ensures { spec.least before (Some fault) ≡ Some result }
{
    match before {
        Some(before) => lesser(before, fault),
        None => fault,
    }
}

impl<T: Drop> Collector<T> {
    /// Nothing is noted yet.
    pub fn new(alloc: Global) -> Collector<T>
        ensures { (rs : List (Result T Fault)) → with_more result rs ≡ spec.collected rs }
    {
        Collector {
            fault: None,
            values: Vec::new(alloc),
        }
    }

    /// Notes a value or a fault behind those before. A value behind a fault isn't kept.
    #[tactic(auto, using(crate::proofs::Collecting::one_value_more, crate::proofs::Collecting::one_fault_more))]
    pub fn note(&mut self, met: Result<T, Fault>) -> Result<(), AllocError>
        ensures { OnOk result ((rs : List (Result T Fault)) → with_more self.new rs ≡ with_more self.old (met ∷ rs)) }
    {
        match met {
            Ok(value) if self.fault.is_none() => self.values.push(value)?,
            Ok(_) => {}
            Err(fault) => self.fault = Some(least(self.fault, fault)),
        }
        Ok(())
    }

    /// All values, or the least fault.
    pub fn finish(self) -> Result<Vec<T>, RunFault>
        ensures { spec.Means result (λ values. values.items) (with_more self []) }
    {
        match self.fault {
            Some(fault) => Err(RunFault::Fault(fault)),
            None => Ok(self.values),
        }
    }
}

//! What went through a source or a sink whose bytes no value holds.
ghost use Rattle.std.specs.Prelude.{◌≡◌};
ghost use Rattle.std.specs.Borrow.{ftrue};
ghost use Rattle.volt_io.specs.Passed.{Passed, nothing_passed, then_passed};

use std::marker::Model;

/// The bytes that went through calls so far, for contracts alone: it takes no memory, and its
/// methods do nothing at run time.
#[derive(Drop)]
pub(crate) struct Trail {
    pub ghost passed: { Passed },
}

impl Model for Trail {
    ghost also_owns = { λ _. ftrue };
}

impl Trail {
    /// Before the first call.
    pub(crate) fn new() -> Trail
        ensures { result.passed ≡ nothing_passed }
    {
        Trail {}
    }

    /// One more call, with these bytes.
    pub(crate) fn note(&mut self, _bytes: &[u8])
        ensures { self.new.passed ≡ then_passed self.old.passed _bytes.now }
    {}
}

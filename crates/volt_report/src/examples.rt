//! What the lines of a small report are: the definitions of the spelling, at values written out.

ghost use Rattle.std.specs.Prelude.{◌≡◌, ◌++◌, codes};
ghost use Rattle.volt_report.specs.Spelling.{section, call_text, spelling};
ghost use Rattle.volt_report.specs.Examples.{ended_calls, faulted_calls, examples};

/// The line of a call for each kind of end, with the rows that it answered.
pub fn example_ends()
    ensures { section (codes "calls") call_text ended_calls ≡
        codes "calls 8\n1 2 3 21 ok 2\n NULL -5\n 10 'it''s'\n2 2 3 21 ok 0\n"
        ++ codes "3 2 3 21 abort user 'that''s all'\n4 2 3 21 abort Statements\n"
        ++ codes "5 2 3 21 abort Steps\n6 2 3 21 abort Size\n8 2 3 21 lost\n"
        ++ codes "9 2 3 21 down 0\n" }
{}

/// The line of a call for each fault.
pub fn example_faults()
    ensures { section (codes "calls") call_text faulted_calls ≡
        codes "calls 8\n1 2 3 21 abort fault Overflow\n2 2 3 21 abort fault DivideByZero\n"
        ++ codes "3 2 3 21 abort fault NullInColumn\n4 2 3 21 abort fault OutOfRange\n"
        ++ codes "5 2 3 21 abort fault TooLong\n6 2 3 21 abort fault WrongPartition\n"
        ++ codes "7 2 3 21 abort fault Duplicate\n8 2 3 21 abort fault TooManyRows\n" }
{}

/// A whole report.
pub fn example_report()
    ensures { spelling examples ≡
        codes "volt 1\nopening 1\n NOTES 10 'it''s'\n"
        ++ codes "calls 1\n1 2 3 21 abort fault DivideByZero\n"
        ++ codes "serial 2\n14 12\n203 1\n"
        ++ codes "copies 1\ncopy 1 4 1\n NOTES NULL -5\n"
        ++ codes "looks 1\nlook 1 4 1\n NOTES NULL -5\n"
        ++ codes "trace 8\nsubmit c1\ndeliver h0 c1\ndeliver d s13\nsync s0\n"
        ++ codes "scan x7\nrecover\nitem\nidle x31\nend\n" }
{}

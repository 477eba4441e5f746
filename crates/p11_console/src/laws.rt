// Laws of the console, each a function that does nothing, whose contract is the law.
ghost use Rattle.p11_console.specs.Once.{StepsHaveOneOutcome};

use std::alloc::Allocator;

/// A step has one outcome but for what is said, where memory refuses nothing.
pub fn a_step_has_one_outcome<A: Allocator>()
    ensures { StepsHaveOneOutcome A }
{}

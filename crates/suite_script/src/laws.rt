//! What words that do not fit have to do with the faults that are printed.

ghost use Rattle.suite_script.specs.Misfits.{OperationsAgree};

/// The first word of operations that does not fit has the fault that reading them tells, and where all words fit they
/// have none.
pub fn misfits_have_the_fault_of_operations()
    ensures { OperationsAgree }
{}

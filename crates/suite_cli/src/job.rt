//! A transaction of a script, and who asks for it.

use acl_core::Caller;
use file_ops::Op;
use std::marker::Model;

/// A transaction, and who asks for it.
#[derive(Drop)]
pub(crate) struct Job {
    caller: Caller,
    ops: Vec<Op>,
}

impl Model for Job {
    ghost use Rattle.suite_cli.specs.Scripts as scripts;

    ghost Value = { scripts.Job };

    ghost view = { λ job. record { caller = job.caller; ops = job.ops.items } };
}

impl Job {
    ghost use Rattle.std.specs.Prelude.{◌≡◌};

    pub(crate) fn new(caller: Caller, ops: Vec<Op>) -> Job
        ensures { result ≡ record { caller = caller; ops = ops.items } }
    {
        Job { caller, ops }
    }

    pub(crate) fn caller(&self) -> &Caller
        ensures { result.now ≡ self.now.caller }
    {
        &self.caller
    }

    pub(crate) fn ops(&self) -> &[Op]
        ensures { result.now ≡ self.now.ops }
    {
        &self.ops
    }
}

//! A service, with what each execution in it needs.

ghost use Rattle.std.specs.Prelude.{◌≡◌, IfOk};
ghost use Rattle.suite_prefix.specs.Absent.{absent_prefix};

use crate::empty::Empty;
use file_ops::Service;
use std::alloc::{AllocError, Global};
use std::marker::Model;
use suite_prefix::{Prefix, SharedPrefix};

/// A service, with what each execution in it needs and what never changes: it is made once.
#[derive(Drop)]
pub(crate) struct FixedParts {
    service: Service,
    /// The prefix of what was never made.
    absent: SharedPrefix,
    empty: Empty,
}

impl Model for FixedParts {
    ghost use Rattle.std.specs.Prelude.{◌≡◌};
    ghost use Rattle.file_ops.specs.declared.service.Service.{Service};
    ghost use Rattle.suite_prefix.specs.Absent.{absent_prefix};

    ghost Value = { Service };

    ghost view = { λ fields. fields.service };

    ghost invariant = { λ fields. fields.absent ≡ absent_prefix fields.service.c0 };
}

impl FixedParts {
    /// What the executions in a service need.
    pub(crate) fn new(alloc: Global, service: Service) -> Result<FixedParts, AllocError>
        ensures { IfOk result (λ made. made ≡ service) }
    {
        let prefix = Prefix::absent(alloc, service.c0)?;
        let absent = SharedPrefix::new(alloc, prefix)?;
        Ok(FixedParts {
            service,
            absent,
            empty: Empty::new(alloc),
        })
    }

    /// The same.
    pub(crate) fn copy(&self, alloc: Global) -> Result<FixedParts, AllocError>
        ensures { IfOk result (λ copy. copy ≡ self.now) }
    {
        let absent = self.absent.clone()?;
        Ok(FixedParts {
            service: self.service,
            absent,
            empty: Empty::new(alloc),
        })
    }

    /// The service.
    pub(crate) fn as_service(&self) -> &Service
        ensures { result.now ≡ self.now }
    {
        &self.service
    }

    /// How many servers there are.
    pub(crate) fn servers(&self) -> usize
        ensures { result ≡ self.now.servers }
    {
        self.service.servers
    }

    /// The prefix of what was never made.
    pub(crate) fn absent(&self) -> &SharedPrefix
        ensures { result.now ≡ absent_prefix self.now.c0 }
    {
        &self.absent
    }

    /// Contents with nothing in them.
    pub(crate) fn empty(&self) -> &Empty {
        &self.empty
    }
}

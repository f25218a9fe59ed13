//! What an agent is asked to do.

use acl_core::Caller;
use file_ops::Op;
use std::alloc::{AllocError, Global};
use std::marker::Model;
use std::ops::Deref;
use std::sync::{Arc, ArcSlice};

/// The caller of a transaction. A clone shares it.
#[derive(Debug, Drop)]
pub struct SharedCaller {
    caller: Arc<Caller, Global>,
}

impl Model for SharedCaller {
    ghost use Rattle.std.specs.Arc.{arc_value};
    ghost use Rattle.acl_core.specs.Identity.{Identity};

    ghost Value = { Identity };

    ghost view = { λ shared. arc_value shared.caller };
}

impl Clone for SharedCaller {
    ghost use Rattle.std.specs.Prelude.{◌≡◌};

    ghost is_clone = { λ caller copy. copy ≡ caller };

    fn clone(&self) -> Result<SharedCaller, AllocError> {
        let caller = self.caller.clone()?;
        Ok(SharedCaller { caller })
    }
}

impl Deref for SharedCaller {
    type Target = Caller;

    ghost use Rattle.std.specs.Prelude.{◌≡◌};

    ghost deref_gives = { λ shared caller. caller ≡ shared };

    fn deref(&self) -> &Caller
        ensures { result.now ≡ self.now }
    {
        &self.caller
    }
}

impl SharedCaller {
    ghost use Rattle.std.specs.Prelude.{◌≡◌, IfOk};

    /// A caller, to be shared.
    pub fn new(alloc: Global, caller: Caller) -> Result<SharedCaller, AllocError>
        ensures { IfOk result (λ shared. shared ≡ caller) }
    {
        let caller = Arc::new(alloc, caller)?;
        Ok(SharedCaller { caller })
    }
}

/// The operations of a transaction. A clone shares them.
#[derive(Debug, Drop)]
pub struct Ops {
    ops: ArcSlice<Op>,
}

impl Model for Ops {
    ghost use Rattle.std.specs.Prelude.{List};
    ghost use Rattle.std.specs.Arc.{arc_slice_items};
    ghost use Rattle.file_ops.specs.declared.operation.Op.{Op};

    ghost Value = { List Op };

    ghost view = { λ ops. arc_slice_items ops.ops };
}

impl Clone for Ops {
    ghost use Rattle.std.specs.Prelude.{◌≡◌};

    ghost is_clone = { λ ops copy. copy ≡ ops };

    fn clone(&self) -> Result<Ops, AllocError> {
        let ops = self.ops.clone()?;
        Ok(Ops { ops })
    }
}

impl Ops {
    ghost use Rattle.std.specs.Prelude.{◌≡◌, IfOk};

    /// The operations of a vector, which are not copied. Room that it has for more is given back.
    pub fn from_vec(ops: Vec<Op>) -> Result<Ops, AllocError>
        ensures { IfOk result (λ shared. shared ≡ ops.items) }
    {
        let mut kept = ops;
        kept.shrink_to_fit();
        let ops = ArcSlice::from_vec(kept)?;
        Ok(Ops { ops })
    }

    /// The operations.
    pub fn as_slice(&self) -> &[Op]
        ensures { result.now ≡ self.now }
    {
        &self.ops
    }
}

/// What an agent is asked to do.
#[derive(Clone, Debug, Drop)]
pub enum Job {
    /// To carry out a transaction of a caller, with the cache of a site.
    Transaction {
        caller: SharedCaller,
        site: u8,
        ops: Ops,
    },
    /// To end what others have left at a server.
    Sweep {
        server: u8,
    },
}

//! Prefixes that are shared.

ghost use Rattle.std.specs.Prelude.{◌≡◌, IfOk};

use crate::copies::Prefix;
use std::alloc::{AllocError, Global};
use std::marker::Model;
use std::ops::Deref;
use std::sync::Arc;

/// A prefix that whoever read it keeps, be it a server, a reply, a collector or a cache. A clone copies nothing.
#[derive(Debug, Drop)]
pub struct SharedPrefix {
    prefix: Arc<Prefix, Global>,
}

impl Model for SharedPrefix {
    ghost use Rattle.std.specs.Arc.{arc_value};
    ghost use Rattle.suite_prefix.specs.declared.copies.Prefix.{Prefix};

    ghost Value = { Prefix };

    ghost view = { λ shared. arc_value shared.prefix };
}

impl Clone for SharedPrefix {
    ghost use Rattle.std.specs.Prelude.{◌≡◌};

    ghost is_clone = { λ prefix copy. copy ≡ prefix };

    fn clone(&self) -> Result<SharedPrefix, AllocError> {
        let prefix = self.prefix.clone()?;
        Ok(SharedPrefix { prefix })
    }
}

impl Deref for SharedPrefix {
    type Target = Prefix;

    ghost use Rattle.std.specs.Prelude.{◌≡◌};

    ghost deref_gives = { λ shared prefix. prefix ≡ shared };

    fn deref(&self) -> &Prefix
        ensures { result.now ≡ self.now }
    {
        &self.prefix
    }
}

impl PartialEq for SharedPrefix {
    ghost use Rattle.suite_prefix.specs.code.Equality.{same_prefix, same_prefix_partial_laws};

    ghost eq = { same_prefix };

    ghost laws = { same_prefix_partial_laws };

    fn eq(&self, other: &SharedPrefix) -> bool {
        *self.prefix == *other.prefix
    }
}

impl Eq for SharedPrefix {
    ghost use Rattle.suite_prefix.specs.code.Equality.{same_prefix_laws};

    ghost laws = { same_prefix_laws };
}

impl SharedPrefix {
    /// A prefix, to be shared.
    pub fn new(alloc: Global, prefix: Prefix) -> Result<SharedPrefix, AllocError>
        ensures { IfOk result (λ shared. shared ≡ prefix) }
    {
        let prefix = Arc::new(alloc, prefix)?;
        Ok(SharedPrefix { prefix })
    }
}

//! The two lists of a file or a folder.

ghost use Rattle.std.specs.Prelude.{◌≡◌, None, Some};
ghost use Rattle.acl_core.specs.AccessLists.{IsAcl};

use crate::acl::Acl;
use std::alloc::AllocError;

/// The list that decides who may do what with a file or a folder, and the default list of a folder that has
/// one: what is made in it with a mode begins with that one's entries.
#[derive(Debug, Drop)]
pub struct Lists {
    pub access: Acl,
    pub default: Option<Acl>,
}

impl Clone for Lists {
    ghost is_clone = { λ lists copy. copy ≡ lists };

    fn clone(&self) -> Result<Lists, AllocError> {
        let access = self.access.clone()?;
        let default = match &self.default {
            Some(default) => Some(default.clone()?),
            None => None,
        };
        Ok(Lists { access, default })
    }
}

impl PartialEq for Lists {
    ghost use Rattle.acl_core.specs.Pairs.{same_lists};
    ghost use Rattle.acl_core.specs.code.ListsEquality.{same_lists_partial_laws};

    ghost eq = { same_lists };

    ghost laws = { same_lists_partial_laws };

    fn eq(&self, other: &Lists) -> bool {
        self.access == other.access && self.default == other.default
    }
}

impl Eq for Lists {
    ghost use Rattle.acl_core.specs.code.ListsEquality.{same_lists_laws};

    ghost laws = { same_lists_laws };
}

impl From<Acl> for Lists {
    ghost from_gives = { λ access lists. lists ≡ record { access = access; default = None } };

    fn from(access: Acl) -> Lists {
        Lists {
            access,
            default: None,
        }
    }
}

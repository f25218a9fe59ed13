//! The root folder that a script opens with.

use acl_core::Lists;

/// The root folder's owner, group and lists.
#[derive(Drop)]
pub struct Root {
    pub owner: u32,
    pub group: u32,
    pub acl: Lists,
}

//! The copies of a server as a service opens.

ghost use Rattle.std.specs.Prelude.{◌≡◌, ◌==◌, IfOk};
ghost use Rattle.std.specs.List.{list_any};
ghost use Rattle.suite_prefix.specs.SettingsRules.{form_of_root};
ghost use Rattle.rep_core.specs.code.Planning.{copies_in, forms_in};
ghost use Rattle.rep_core.specs.Store as store;

use file_ops::ROOT;
use sorted_map::RoomyMap;
use std::alloc::{AllocError, Global};
use suite_content::{Content, Kind};
use suite_prefix::{Prefix, PrefixKind, Replica, Settings, StoredCopy};
use vote_core::Votes;

/// The copies of a server as a service opens.
pub(crate) fn opening_copies(
    alloc: Global,
    index: u8,
    settings: &Settings,
) -> Result<RoomyMap<u64, StoredCopy>, AllocError>
    ensures copies { IfOk result (λ made. copies_in made.pairs ≡ (store.opening_store index settings.now).copies) }
    ensures forms { IfOk result (λ made. forms_in made.pairs ≡ (store.opening_store index settings.now).forms) }
{
    let mut copies = RoomyMap::new(alloc);
    if is_representative(settings.c0(), index) {
        let root = root_record(alloc, index, settings)?;
        copies.insert(ROOT, root)?;
    }
    Ok(copies)
}

/// Whether a server is a representative of some votes.
fn is_representative(votes: &Votes, index: u8) -> bool
    ensures { result ≡ list_any (λ rep. rep.0 == index) votes.now.reps }
{
    votes.reps().iter().any(|rep| rep.0 == index)
}

/// The root folder as a service opens.
fn root_copy(alloc: Global, settings: &Settings) -> Result<Replica, AllocError>
    ensures { IfOk result (λ root. root ≡ store.root_copy settings.now) }
{
    let acl = settings.root_acl().clone()?;
    Ok(Replica {
        prefix: Prefix {
            pver: 1,
            kind: PrefixKind::Folder,
            owner: settings.root_owner(),
            group: settings.root_group(),
            acl,
            votes: *settings.c0(),
        },
        dver: 1,
        content: Content::empty(alloc, Kind::Folder),
    })
}

/// The bytes of the root folder as a service opens at a server.
fn root_record(alloc: Global, index: u8, settings: &Settings) -> Result<StoredCopy, AllocError>
    ensures { IfOk result (λ root. root ≡ record { form = form_of_root settings.now index; copy = store.root_copy settings.now }) }
{
    let root = root_copy(alloc, settings)?;
    root.fits();
    settings.fits();
    StoredCopy::in_form(alloc, settings.form_of_root(index), &root)
}

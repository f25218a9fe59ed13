//! What the sites of one agent keep of files and folders: weak representatives, which have no votes and decide
//! nothing.
//!
//! A `WeakCache` keeps, for a site and a suite, a prefix that the suite had, and the content that it had at a
//! version. A caller takes a prefix as a hint where to begin (`hint`), and a content only at the version that a
//! read quorum told (`content_at`). So a cache saves the reading of contents.
//!
//! **Promises.** In a contract a cache is its limits and the list of its entries, the newest first; each call is
//! the function on that list (`specs/Cache.antt`).
//! - A put takes the place of what its site kept of the suite, in front. Then the site's oldest go while it is
//!   above the quota, and the oldest of all while the cache is above budget or slots (`put`; in words `oldest_go`).
//!   What has no room at all is not kept.
//! - By the type, entries are within these limits, and each suite of a site stands once (`WeakCache::is_within`).
//! - What is found was put for that site and suite, and nothing else was put there since (`found_was_put`). Only
//!   budget and slots reach across sites (`site_lists`).
//! - `content`, `hint_beside` and `content_beside` change nothing. The last two say what would be found once an
//!   entry was put: an agent plans with them.
//! - `keeps` says whether a site keeps anything. `entries` goes through all once; `version` says of which version
//!   a content is.
//! - Out of memory leaves the cache as it was. Beside `new`, only a put where the site kept nothing of the suite
//!   can be refused.
//!
//! **The caller owes** a site below `MAX_SITES` to `put`.
//!
//! The entries stand on a `recency::Shelf`, and an index has the slot of each site and suite. A call costs a
//! look-up, and constant work for each entry that moves or goes; the `_beside` calls may pass over all.
//!
//! **Files**: `entry`, `tally` (number and bytes), `kept` (shelf, index and tally), `stock` (the same, seen as a
//! list), `cache`, `laws`.
//!
//! **Definitions** (`specs/`): `Entries`, `Cache`, `NewEntry`, `Loans`, `LettingGo`, `SiteLists`, `Calls`, `Laws`.
#![tactic(auto)]

mod cache;
mod entry;
mod kept;
mod laws;
mod stock;
mod tally;

pub use cache::{MAX_SITES, NewEntry, WeakCache};
pub use laws::{a_search_keeps_all, entries_come_from_puts, found_was_put, oldest_go, site_lists};
pub use stock::Entries;

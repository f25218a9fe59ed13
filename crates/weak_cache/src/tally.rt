//! How many bytes the contents of entries take, and how many entries there are.

ghost use Rattle.std.specs.Prelude.{◌≡◌, ◌+◌, ◌<◌, ◌^◌, ◌∷◌, [], length};
ghost use Rattle.weak_cache.specs.Entries.{Cache, Entry, list_of, sum_of};
ghost use Rattle.weak_cache.specs.code.Counts.{Counts, IsEntry, IsTally, Uncounted};

/// As many as an agent has sites.
const SITES: usize = 16;

/// How many entries there are, and how many bytes the contents of all take together, and those of each site. The
/// sums have room for one entry more than there may be.
#[derive(Drop)]
pub(crate) struct Sums {
    pub(crate) count: usize,
    pub(crate) sum: u128,
    pub(crate) sites: [u128; SITES],
}

impl Sums {
    /// That of no entries.
    pub(crate) fn new() -> Sums
        ensures { IsTally result [] }
    {
        Sums {
            count: 0,
            sum: 0,
            sites: [0; SITES],
        }
    }

    /// How many bytes the contents of a site take.
    pub(crate) fn sum_at(&self, site: u8) -> u128
        requires sites { length self.now.sites ≡ 16 }
        requires site { site < 16 }
        ensures { (cache : Cache) → IsTally self.now cache → result ≡ sum_of (list_of site cache) }
    {
        self.sites[usize::from(site)]
    }

    /// One entry more.
    pub(crate) fn add(&mut self, site: u8, size: usize)
        requires site { site < 16 }
        requires room { (cache : Cache) × IsTally self.old cache × (sum_of cache + size < 2 ^ 128) × (length cache + 1 < 2 ^ 64) }
        ensures { (cache : Cache) (entry : Entry) → IsTally self.old cache → IsEntry entry site size → IsTally self.new (entry ∷ cache) }
    {
        self.count += 1;
        self.sum += size as u128;
        self.sites[usize::from(site)] += size as u128;
    }

    /// One entry less.
    pub(crate) fn sub(&mut self, site: u8, size: usize)
        requires site { site < 16 }
        requires counted { Counts self.old site size }
        ensures { Uncounted self.old self.new site size }
    {
        self.count -= 1;
        self.sum -= size as u128;
        self.sites[usize::from(site)] -= size as u128;
    }
}

//! A header of a script of events, line by line.

ghost use Rattle.std.specs.Prelude.{◌≡◌, codes};
ghost use Rattle.suite_script.specs.Readings.{Gives};
ghost use Rattle.suite_session.specs.Headings.{agents_line, cache_line, opens_with, root_line, servers_line, votes_line};
ghost use Rattle.suite_session.specs.Services.{heading_line};

use crate::open_service::opened;
use crate::play_service::PlayService;
use script_text::Words;
use std::alloc::Global;
use suite_play::{Places, caches_of, count_of, votes_of};
use suite_prefix::{MAX_AGENTS, Settings};
use suite_script::{LineError, LineFault, Root, misplaced, root_of};
use vote_core::{MAX_SERVERS, ServerSet, Votes};

/// What a header told so far, by its last line.
#[derive(Drop)]
pub enum Heading {
    /// Nothing: no line was read.
    Start,
    /// How many servers there are.
    Servers {
        servers: usize,
    },
    /// And how many agents.
    Agents {
        servers: usize,
        agents: usize,
    },
    /// And the opening votes.
    Votes {
        servers: usize,
        agents: usize,
        votes: Votes,
    },
    /// And the root folder.
    Root {
        servers: usize,
        agents: usize,
        votes: Votes,
        root: Root,
    },
}

/// That a line begins with this word.
fn opens_with(word: &[u8], first: &[u8]) -> Result<(), LineFault>
    ensures { result ≡ opens_with word.now first.now }
{
    if first == word {
        Ok(())
    } else {
        Err(misplaced::<Places>(first))
    }
}

impl Heading {
    /// What the next line of the header leaves, from its first word and the words after that.
    pub(crate) fn read(
        &self,
        alloc: Global,
        first: &[u8],
        mut words: Words<'_>,
    ) -> Result<PlayService, LineError>
        ensures { Gives result (heading_line self.now first.now words.entry) }
    {
        let next = match self {
            Heading::Start => read_servers(first, &mut words)?,
            Heading::Servers { servers } => read_agents(*servers, first, &mut words)?,
            Heading::Agents { servers, agents } => {
                read_votes((*servers, *agents), first, &mut words)?
            }
            Heading::Votes {
                servers,
                agents,
                votes,
            } => { read_root(alloc, (*servers, *agents), *votes, first, &mut words)? }
            Heading::Root {
                servers,
                agents,
                votes,
                root,
            } => {
                let settings = read_cache(
                    alloc,
                    ((*servers, *agents), *votes, root),
                    first,
                    &mut words,
                )?;
                return opened(alloc, settings);
            }
        };
        Ok(PlayService::Heading(next))
    }
}

fn read_servers(first: &[u8], words: &mut Words<'_>) -> Result<Heading, LineFault>
    ensures { result ≡ servers_line first.now words.old }
{
    opens_with(b"servers", first)?;
    let servers = count_of(words, MAX_SERVERS)?;
    Ok(Heading::Servers { servers })
}

fn read_agents(servers: usize, first: &[u8], words: &mut Words<'_>) -> Result<Heading, LineFault>
    ensures { result ≡ agents_line servers first.now words.old }
{
    opens_with(b"agents", first)?;
    let agents = count_of(words, MAX_AGENTS)?;
    Ok(Heading::Agents { servers, agents })
}

fn read_votes(
    counts: (usize, usize),
    first: &[u8],
    words: &mut Words<'_>,
) -> Result<Heading, LineFault>
    ensures { result ≡ votes_line counts.0 counts.1 first.now words.old }
{
    opens_with(b"votes", first)?;
    let (servers, agents) = counts;
    let votes = votes_of(words, servers)?;
    Ok(Heading::Votes {
        servers,
        agents,
        votes,
    })
}

fn read_root(
    alloc: Global,
    counts: (usize, usize),
    votes: Votes,
    first: &[u8],
    words: &mut Words<'_>,
) -> Result<Heading, LineError>
    ensures { Gives result (root_line counts.0 counts.1 votes first.now words.old) }
{
    opens_with(b"root", first)?;
    let (servers, agents) = counts;
    let root = root_of(alloc, words)?;
    Ok(Heading::Root {
        servers,
        agents,
        votes,
        root,
    })
}

/// The settings that the line with the limits of the caches completes.
fn read_cache(
    alloc: Global,
    told: ((usize, usize), Votes, &Root),
    first: &[u8],
    words: &mut Words<'_>,
) -> Result<Settings, LineError>
    ensures { Gives result (cache_line told.entry.0.0 told.entry.0.1 told.entry.1 told.entry.2.now first.now words.old) }
{
    opens_with(b"cache", first)?;
    let ((servers, agents), votes, root) = told;
    let caches = caches_of(words)?;
    let acl = root.acl.clone()?;
    let made = Settings::new(
        servers,
        agents,
        votes,
        root.owner,
        root.group,
        acl,
        caches.budget,
        caches.quota,
        caches.slots,
        ServerSet::empty(),
    );
    match made {
        Ok(settings) => Ok(settings),
        Err(fault) => Err(LineError::Faulty(LineFault::Settings(fault))),
    }
}

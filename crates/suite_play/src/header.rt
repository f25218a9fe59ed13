//! The header of a script of events, and the lines of it that the scripts of other commands share.

ghost use Rattle.std.specs.Prelude.{◌≡◌, ℕ, ◌≤◌, ◌<◌, ◌==◌, true, All, IfOk, codes};
ghost use Rattle.std.specs.FinSet.{contains, empty};
ghost use Rattle.std.specs.List.{slice_split};
ghost use Rattle.suite_play.specs.Headers.{among, caches_in, count, count_in, header, limit, old_in, opening_lines, opening_votes};
ghost use Rattle.suite_prefix.specs.Forms.{FitsOne};
ghost use Rattle.suite_script.specs.Progress.{Heads};
ghost use Rattle.suite_script.specs.Scripts.{headed, headed_if};

use crate::caches::Caches;
use crate::places::Places;
use acl_core::Lists;
use script_text::{WordParts, Words, read_number};
use std::alloc::Global;
use suite_prefix::{Form, MAX_AGENTS, MAX_CACHE, MAX_SLOTS, Settings, SettingsFault};
use suite_script::{
    Language, LineError, LineFault, Root, ScriptError, ScriptReader, at_end, next_word, read_root,
    read_votes,
};
use vote_core::{MAX_SERVERS, ServerSet, Votes};

/// The header of a script of events.
pub fn read_header(alloc: Global, script: &mut ScriptReader<'_>) -> Result<Settings, ScriptError>
    ensures { Heads result script.new (header script.old) }
{
    let servers = read_servers::<Places>(script)?;
    let agents = read_count::<Places>(script, b"agents", MAX_AGENTS)?;
    read_opening::<Places>(alloc, script, servers, agents)
}

/// The next line, which tells how many servers there are: 1 to [`MAX_SERVERS`].
pub fn read_servers<L: Language>(script: &mut ScriptReader<'_>) -> Result<usize, ScriptError>
    ensures count { Heads result script.new (headed L.is_known (codes "servers") (count_in MAX_SERVERS) script.old) }
    ensures range { IfOk result (λ count. (1 ≤ count) × (count ≤ MAX_SERVERS)) }
{
    read_count::<L>(script, b"servers", MAX_SERVERS)
}

/// The lines of a header after those that tell how many servers and agents there are: the opening votes, the root folder,
/// the limits of the caches, and the servers that open with their root in form 1, where there are any.
pub fn read_opening<L: Language>(
    alloc: Global,
    script: &mut ScriptReader<'_>,
    servers: usize,
    agents: usize,
) -> Result<Settings, ScriptError>
    requires servers { (1 ≤ servers) × (servers ≤ MAX_SERVERS) }
    requires agents { (1 ≤ agents) × (agents ≤ MAX_AGENTS) }
    ensures { Heads result script.new (opening_lines L.is_known servers agents script.old) }
{
    let c0 = read_opening_votes::<L>(script, servers)?;
    let root = read_root::<L>(alloc, script)?;
    let caches = read_caches::<L>(script)?;
    let old = read_old::<L>(script, servers, &root.acl, &c0)?;
    Ok(settings_of((servers, agents), c0, root, caches, old))
}

/// The settings that the lines of a header give, which keep to their limits.
pub fn settings_of(
    counts: (usize, usize),
    c0: Votes,
    root: Root,
    caches: Caches,
    old: ServerSet,
) -> Settings
    requires servers { (1 ≤ counts.0) × (counts.0 ≤ MAX_SERVERS) }
    requires agents { (1 ≤ counts.1) × (counts.1 ≤ MAX_AGENTS) }
    requires known { All (λ rep. rep.0 < counts.0) c0.reps }
    requires caches { (caches.budget ≤ MAX_CACHE) × (caches.quota ≤ MAX_CACHE) × (caches.slots ≤ MAX_SLOTS) }
    requires old_known { (server : ℕ) → contains old server ≡ true → server < counts.0 }
    requires old_fits { (server : ℕ) → contains old server ≡ true → FitsOne root.acl c0 }
    ensures { result ≡ record {
      servers = counts.0;
      agents = counts.1;
      c0 = c0;
      root_owner = root.owner;
      root_group = root.group;
      root_acl = root.acl;
      budget = caches.budget;
      quota = caches.quota;
      slots = caches.slots;
      old = old;
    } }
{
    let (servers, agents) = counts;
    Settings::new(
        servers,
        agents,
        c0,
        root.owner,
        root.group,
        root.acl,
        caches.budget,
        caches.quota,
        caches.slots,
        old,
    )
    .unwrap()
}

/// The next line, which begins with this word and tells how many there are.
fn read_count<L: Language>(
    script: &mut ScriptReader<'_>,
    word: &[u8],
    most: usize,
) -> Result<usize, ScriptError>
    ensures count { Heads result script.new (headed L.is_known word.now (count_in most) script.old) }
    ensures range { IfOk result (λ count. (1 ≤ count) × (count ≤ most)) }
{
    let mut line = script.header_line::<L>(word)?;
    count_of(&mut line.words, most).map_err(|fault| LineError::Faulty(fault).at(line.number))
}

/// How many there are, which is all that is left.
pub fn count_of(words: &mut Words<'_>, most: usize) -> Result<usize, LineFault>
    ensures count { result ≡ count_in most words.old }
    ensures range { IfOk result (λ count. (1 ≤ count) × (count ≤ most)) }
{
    let count = judged_count(next_word(words)?, most)?;
    at_end(words)?;
    Ok(count)
}

fn judged_count(word: &[u8], most: usize) -> Result<usize, LineFault>
    ensures count { result ≡ count most word.now }
    ensures range { IfOk result (λ count. (1 ≤ count) × (count ≤ most)) }
{
    match read_number(word, u64::MAX) {
        Some(given) if given == 0 || given > most as u64 => {
            Err(LineFault::Settings(SettingsFault::BadCount))
        }
        Some(given) => Ok(given as usize),
        None => Err(LineFault::Form),
    }
}

/// The next line, which has the opening votes.
fn read_opening_votes<L: Language>(
    script: &mut ScriptReader<'_>,
    servers: usize,
) -> Result<Votes, ScriptError>
    ensures votes { Heads result script.new (headed L.is_known (codes "votes") (opening_votes servers) script.old) }
    ensures known { IfOk result (λ votes. All (λ rep. rep.0 < servers) votes.reps) }
{
    let mut line = script.header_line::<L>(b"votes")?;
    votes_of(&mut line.words, servers).map_err(|fault| LineError::Faulty(fault).at(line.number))
}

/// The opening votes, which are all that is left.
pub fn votes_of(words: &mut Words<'_>, servers: usize) -> Result<Votes, LineFault>
    ensures votes { result ≡ opening_votes servers words.old }
    ensures known { IfOk result (λ votes. All (λ rep. rep.0 < servers) votes.reps) }
{
    let votes = read_votes(servers, next_word(words)?)?;
    at_end(words)?;
    Ok(votes)
}

/// The next line, which has the limits of the caches.
fn read_caches<L: Language>(script: &mut ScriptReader<'_>) -> Result<Caches, ScriptError>
    ensures caches { Heads result script.new (headed L.is_known (codes "cache") caches_in script.old) }
    ensures range { IfOk result (λ caches. (caches.budget ≤ MAX_CACHE) × (caches.quota ≤ MAX_CACHE) × (caches.slots ≤ MAX_SLOTS)) }
{
    let mut line = script.header_line::<L>(b"cache")?;
    caches_of(&mut line.words).map_err(|fault| LineError::Faulty(fault).at(line.number))
}

/// The limits of the caches, which are all that is left.
pub fn caches_of(words: &mut Words<'_>) -> Result<Caches, LineFault>
    ensures caches { result ≡ caches_in words.old }
    ensures range { IfOk result (λ caches. (caches.budget ≤ MAX_CACHE) × (caches.quota ≤ MAX_CACHE) × (caches.slots ≤ MAX_SLOTS)) }
{
    let budget = limit_of(next_word(words)?, MAX_CACHE)?;
    let quota = limit_of(next_word(words)?, MAX_CACHE)?;
    let slots = limit_of(next_word(words)?, MAX_SLOTS)?;
    at_end(words)?;
    Ok(Caches {
        budget,
        quota,
        slots,
    })
}

fn limit_of(word: &[u8], most: usize) -> Result<usize, LineFault>
    ensures limit { result ≡ limit most word.now }
    ensures range { IfOk result (λ given. given ≤ most) }
{
    match read_number(word, u64::MAX) {
        Some(given) if given > most as u64 => { Err(LineFault::Settings(SettingsFault::BadCache)) }
        Some(given) => Ok(given as usize),
        None => Err(LineFault::Form),
    }
}

/// The next line, where it names the servers that open with their root in form 1. Without it there are none.
fn read_old<L: Language>(
    script: &mut ScriptReader<'_>,
    servers: usize,
    acl: &Lists,
    votes: &Votes,
) -> Result<ServerSet, ScriptError>
    requires { (1 ≤ servers) × (servers ≤ MAX_SERVERS) }
    ensures old { Heads result script.new (headed_if L.is_known (codes "old") (old_in servers acl.now votes.now) empty script.old) }
    ensures known { IfOk result (λ old. (server : ℕ) → contains old server ≡ true → server < servers) }
    ensures held { IfOk result (λ old. (server : ℕ) → contains old server ≡ true → FitsOne acl.now votes.now) }
{
    if !script.next_begins(b"old") {
        return Ok(ServerSet::empty());
    }
    let mut line = script.header_line::<L>(b"old")?;
    let old = old_of(&mut line.words, servers, acl, votes);
    old.map_err(|fault| LineError::Faulty(fault).at(line.number))
}

/// The servers that open with their root in form 1, which are all that is left.
pub fn old_of(
    words: &mut Words<'_>,
    servers: usize,
    acl: &Lists,
    votes: &Votes,
) -> Result<ServerSet, LineFault>
    requires { (1 ≤ servers) × (servers ≤ MAX_SERVERS) }
    ensures old { result ≡ old_in servers acl.now votes.now words.old }
    ensures known { IfOk result (λ old. (server : ℕ) → contains old server ≡ true → server < servers) }
    ensures held { IfOk result (λ old. FitsOne acl.now votes.now) }
{
    let old = among(servers, next_word(words)?)?;
    if !Form::One.holds(acl, votes) {
        return Err(LineFault::Settings(SettingsFault::OldTooLarge));
    }
    at_end(words)?;
    Ok(old)
}

/// The servers that a word names, with commas between them.
fn among(servers: usize, word: &[u8]) -> Result<ServerSet, LineFault>
    requires { (1 ≤ servers) × (servers ≤ MAX_SERVERS) }
    ensures among { result ≡ among servers empty (slice_split (λ byte. byte == 44) word.now) }
    ensures known { IfOk result (λ found. (server : ℕ) → contains found server ≡ true → server < servers) }
{
    let mut found = ServerSet::empty();
    for field in WordParts::new(word, b',') {
        let server = read_number(field, servers as u64 - 1).ok_or(LineFault::Form)?;
        found.insert(server as u8);
    }
    Ok(found)
}

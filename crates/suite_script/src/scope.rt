//! Whether a word fits the place where it stands.

ghost use Rattle.std.specs.Prelude.{◌≡◌, ◌==◌, IfOk, None, Some, is_some, if◌then◌else◌};
ghost use Rattle.std.specs.List.{list_all, slice_split};
ghost use Rattle.acl_text.specs.Tables.{name_fault};
ghost use Rattle.script_text.specs.Numbers.{number_up_to};
ghost use Rattle.suite_script.specs.Forms.{IsFaultOf, beyond, fault_in, max_number, place_fault, wanting};
ghost use Rattle.suite_script.specs.Lists.{init_in, lists_in};
ghost use Rattle.suite_script.specs.Operations.{bytes_in};
ghost use Rattle.suite_script.specs.Scripts.{refused};
ghost use Rattle.suite_script.specs.Votes.{votes_in};
ghost use Rattle.suite_script.specs.Words.{caller_in};

use crate::fault::{LineError, LineFault};
use crate::form::Place;
use crate::votes::read_votes;
use crate::word::{read_bytes, read_caller, read_init, read_lists};
use acl_text::{NameError, Names};
use script_text::{WordParts, read_number};
use std::alloc::{AllocError, Global};
use suite_prefix::{MAX_AGENTS, MAX_CACHE, MAX_SLOTS, SettingsFault};
use vote_core::MAX_SERVERS;

/// The last site of an agent, which are numbered from 0.
pub const LAST_SITE: u8 = 15;

/// The most steps of a line.
pub const MAX_STEPS: u64 = 1_000_000;

/// What the lines above a line say: the last server and the last agent, which are numbered from 0, and the names.
#[derive(Drop)]
pub struct Scope {
    pub last_server: u8,
    pub last_agent: u8,
    pub names: Names,
}

impl LineError {
    /// The fault; or out of memory.
    fn fault(self) -> Result<Option<LineFault>, AllocError>
        ensures { IfOk result (λ fault. IsFaultOf self fault) }
    {
        match self {
            LineError::Faulty(fault) => Ok(Some(fault)),
            LineError::Memory => Err(AllocError),
        }
    }
}

/// What is wrong with a number up to a limit.
fn number_fault(word: &[u8], limit: u64) -> Option<LineFault>
    ensures { result ≡ wanting (number_up_to limit word.now) }
{
    match read_number(word, limit) {
        Some(_) => None,
        None => Some(LineFault::Form),
    }
}

/// What is wrong with a number of the header.
fn setting_fault(word: &[u8], least: u64, most: u64, fault: SettingsFault) -> Option<LineFault>
    ensures { result ≡ beyond least most fault (number_up_to max_number word.now) }
{
    match read_number(word, u64::MAX) {
        Some(number) if least <= number && number <= most => None,
        Some(_) => Some(LineFault::Settings(fault)),
        None => Some(LineFault::Form),
    }
}

/// What is wrong with the servers that a word lists.
fn servers_fault(word: &[u8], last: u8) -> Option<LineFault>
    ensures { result ≡ (if list_all (λ part. is_some (number_up_to last part)) (slice_split (λ byte. byte == 44) word.now)
        then None else Some LineFault.Form) }
{
    for part in WordParts::new(word, b',') {
        if read_number(part, u64::from(last)).is_none() {
            return Some(LineFault::Form);
        }
    }
    None
}

/// What is wrong with a name.
fn name_fault(error: Option<NameError>) -> Option<LineFault>
    ensures { result ≡ fault_in (refused error) }
{
    match error {
        Some(NameError::BadName) => Some(LineFault::BadName),
        Some(NameError::NameTwice) => Some(LineFault::NameTwice),
        Some(NameError::Memory) => Some(LineFault::Form),
        None => None,
    }
}

fn votes_fault(servers: usize, word: &[u8]) -> Option<LineFault>
    ensures { result ≡ fault_in (votes_in servers word.now) }
{
    read_votes(servers, word).err()
}

fn caller_fault(word: &[u8]) -> Option<LineFault>
    ensures { result ≡ fault_in (caller_in 0 word.now) }
{
    read_caller(0, word).err()
}

fn contents_fault(alloc: Global, word: &[u8]) -> Result<Option<LineFault>, AllocError>
    ensures { IfOk result (λ fault. fault ≡ wanting (bytes_in word.now)) }
{
    match read_bytes(alloc, word) {
        Ok(_) => Ok(None),
        Err(error) => error.fault(),
    }
}

impl Scope {
    fn init_fault(&self, alloc: Global, word: &[u8]) -> Result<Option<LineFault>, AllocError>
        ensures { IfOk result (λ fault. fault ≡ fault_in (init_in self.now.names word.now)) }
    {
        match read_init(alloc, &self.names, word) {
            Ok(_) => Ok(None),
            Err(error) => error.fault(),
        }
    }

    fn lists_fault(&self, alloc: Global, word: &[u8]) -> Result<Option<LineFault>, AllocError>
        ensures { IfOk result (λ fault. fault ≡ fault_in (lists_in self.now.names word.now)) }
    {
        match read_lists(alloc, &self.names, word) {
            Ok(_) => Ok(None),
            Err(error) => error.fault(),
        }
    }

    /// What is wrong with a word in its place.
    pub(crate) fn fault_of(
        &self,
        alloc: Global,
        place: Place,
        word: &[u8],
    ) -> Result<Option<LineFault>, AllocError>
        ensures { IfOk result (λ fault. fault ≡ place_fault self.now place word.now) }
    {
        let fault = match place {
            Place::Servers => setting_fault(word, 1, MAX_SERVERS as u64, SettingsFault::BadCount),
            Place::Agents => setting_fault(word, 1, MAX_AGENTS as u64, SettingsFault::BadCount),
            Place::OpeningVotes => votes_fault(usize::from(self.last_server) + 1, word),
            Place::Uid | Place::Gid => number_fault(word, u64::from(u32::MAX)),
            Place::Init => return self.init_fault(alloc, word),
            Place::Budget | Place::Quota => {
                setting_fault(word, 0, MAX_CACHE as u64, SettingsFault::BadCache)
            }
            Place::Slots => setting_fault(word, 0, MAX_SLOTS as u64, SettingsFault::BadCache),
            Place::Old => servers_fault(word, self.last_server),
            Place::UserName => name_fault(self.names.user_fault(word)),
            Place::GroupName => name_fault(self.names.group_fault(word)),
            Place::Agent => number_fault(word, u64::from(self.last_agent)),
            Place::Server => number_fault(word, u64::from(self.last_server)),
            Place::Site => number_fault(word, u64::from(LAST_SITE)),
            Place::Steps => number_fault(word, MAX_STEPS),
            Place::Gids => caller_fault(word),
            Place::Path => None,
            Place::Contents => return contents_fault(alloc, word),
            Place::Lists => return self.lists_fault(alloc, word),
            Place::Votes => votes_fault(MAX_SERVERS, word),
        };
        Ok(fault)
    }
}

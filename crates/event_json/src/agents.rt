//! What agents do, and what they gathered of suites.

ghost use Rattle.std.specs.Prelude.{◌≡◌, ◌++◌, OnOk, Some, codes};
ghost use Rattle.std.specs.List.{flat_map};
ghost use Rattle.std.specs.Option.{option_copied};
ghost use Rattle.event_json.specs.Agents.{first_text, held_letter, held_letters, held_text, known_text, newest_text, stage_word, suite_text, suites_text, told_text};
ghost use Rattle.event_json.specs.Strings.{listed};

use crate::copies::push_votes_member;
use crate::locks::mode_word;
use crate::strings::{push_member, truth};
use std::alloc::AllocError;
use suite_collect::ReadPoint;
use suite_prefix::SharedPrefix;
use txn_core::{GatheredSuite, Stage};

/// How far a job is, in a word.
pub fn stage_word(stage: Stage) -> &'static [u8]
    ensures { result.now ≡ stage_word stage }
{
    match stage {
        Stage::Idle => b"idle",
        Stage::Gathering => b"gathering",
        Stage::Fetching => b"fetching",
        Stage::Widening => b"widening",
        Stage::Preparing => b"preparing",
        Stage::Deciding => b"deciding",
        Stage::Finishing => b"finishing",
        Stage::Listing => b"listing",
        Stage::Resolving => b"resolving",
        Stage::Telling => b"telling",
        Stage::Breaking => b"breaking",
    }
}

/// What was gathered of suites, in a service of so many servers.
pub fn push_gathered(
    text: &mut Vec<u8>,
    suites: &[(u64, GatheredSuite)],
    servers: u8,
) -> Result<(), AllocError>
    ensures { OnOk result (text.new.items ≡ text.old.items ++ suites_text servers suites.now) }
{
    text.extend_from_slice(b"[")?;
    push_suites(text, suites, servers)?;
    text.extend_from_slice(b"]")
}

fn push_suites(
    text: &mut Vec<u8>,
    suites: &[(u64, GatheredSuite)],
    servers: u8,
) -> Result<(), AllocError>
    ensures { OnOk result (text.new.items ≡ text.old.items ++ listed (suite_text servers) suites.now) }
{
    let [first, more @ ..] = suites else {
        return Ok(());
    };
    push_suite(text, first, servers)?;
    push_more_suites(text, more, servers)
}

fn push_more_suites(
    text: &mut Vec<u8>,
    suites: &[(u64, GatheredSuite)],
    servers: u8,
) -> Result<(), AllocError>
    ensures { OnOk result (text.new.items ≡ text.old.items ++ flat_map (λ next. codes "," ++ suite_text servers next) suites.now) }
{
    for suite in suites {
        text.extend_from_slice(b",")?;
        push_suite(text, suite, servers)?;
    }
    Ok(())
}

fn push_suite(
    text: &mut Vec<u8>,
    suite: &(u64, GatheredSuite),
    servers: u8,
) -> Result<(), AllocError>
    ensures { OnOk result (text.new.items ≡ text.old.items ++ suite_text servers suite.now) }
{
    push_member(text, b"{\"suite\":", suite.0)?;
    push_told(text, &suite.1, servers)?;
    push_known(text, &suite.1)
}

/// What servers told of a suite.
fn push_told(text: &mut Vec<u8>, suite: &GatheredSuite, servers: u8) -> Result<(), AllocError>
    ensures { OnOk result (text.new.items ≡ text.old.items ++ told_text suite.now servers) }
{
    text.extend_from_slice(mode_word(suite.mode()))?;
    push_newest(text, suite.newest())?;
    push_held(text, suite, servers)
}

/// The version of a prefix, and its votes.
fn push_newest(text: &mut Vec<u8>, prefix: &SharedPrefix) -> Result<(), AllocError>
    ensures { OnOk result (text.new.items ≡ text.old.items ++ newest_text prefix.now) }
{
    push_member(text, b",\"newest\":", prefix.pver)?;
    push_votes_member(text, &prefix.votes)
}

/// Which locks servers hold.
fn push_held(text: &mut Vec<u8>, suite: &GatheredSuite, servers: u8) -> Result<(), AllocError>
    ensures { OnOk result (text.new.items ≡ text.old.items ++ held_text suite.now servers) }
{
    text.extend_from_slice(b",\"held\":\"")?;
    push_letters(text, suite, servers)?;
    text.extend_from_slice(b"\"")
}

fn push_letters(text: &mut Vec<u8>, suite: &GatheredSuite, servers: u8) -> Result<(), AllocError>
    ensures { OnOk result (text.new.items ≡ text.old.items ++ held_letters suite.now servers) }
{
    for server in 0..servers {
        text.extend_from_slice(held_letter(suite, server))?;
    }
    Ok(())
}

/// Which lock a server holds.
fn held_letter(suite: &GatheredSuite, server: u8) -> &'static [u8]
    ensures { result.now ≡ held_letter suite.now server }
{
    if suite.holds_exclusively(server) {
        b"x"
    } else if suite.holds_lock(server) {
        b"s"
    } else {
        b"-"
    }
}

/// What is known of a suite.
fn push_known(text: &mut Vec<u8>, suite: &GatheredSuite) -> Result<(), AllocError>
    ensures { OnOk result (text.new.items ≡ text.old.items ++ known_text suite.now) }
{
    push_first(text, suite.first())?;
    text.extend_from_slice(b",\"open\":")?;
    text.extend_from_slice(truth(suite.is_open()))?;
    text.extend_from_slice(b"}")
}

/// What a first quorum gave, where there was one.
fn push_first(text: &mut Vec<u8>, first: Option<&ReadPoint>) -> Result<(), AllocError>
    ensures { OnOk result (text.new.items ≡ text.old.items ++ first_text (option_copied first.entry)) }
{
    match first {
        Some(point) => push_point(text, point),
        None => Ok(()),
    }
}

fn push_point(text: &mut Vec<u8>, point: &ReadPoint) -> Result<(), AllocError>
    ensures { OnOk result (text.new.items ≡ text.old.items ++ first_text (Some point.now)) }
{
    push_member(text, b",\"prefix\":", point.prefix.pver)?;
    push_member(text, b",\"content\":", point.dver)?;
    push_member(text, b",\"source\":", u64::from(point.source))
}

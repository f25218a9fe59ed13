//! What the faults of scripts print.

use crate::checks::{had, printed, tells};
use acl_core::AclFault;
use acl_text::TextFault;
use std::process::Abort;
use suite_prefix::SettingsFault;
use suite_script::{LineError, LineFault, PlayError};
use vote_core::VotesFault;

/// A fault of line 3 prints this, in each type of error that it comes in.
fn at_line_3(rt: &(impl Abort + AllocGlobal), fault: LineFault, want: &str) {
    let of_line = LineError::Faulty(fault);
    let front = want.strip_prefix("line 3: ").unwrap_or_default();
    tells(rt, printed(rt, &of_line), front, want);
    let of_script = of_line.at(3);
    tells(rt, printed(rt, &of_script), want, want);
    tells(rt, printed(rt, PlayError::from(of_script)), want, want);
}

/// What a line of no form prints, and one of the header that is out of its place.
static FORM: &str =
    "line 3: the line is of no form that the command has, a number is out of its range, or an agent, a server or a site is not there";

static ORDER: &str =
    "line 3: a line of the header is missing, doubled or out of its place, or a name stands below the first transaction or event";

static DEFAULT: &str =
    "line 3: the entries of the default list are no valid list: there is no entry for all others";

static MANY: &str = "line 3: the entries are no valid list: there are more than 128 entries";

#[test]
fn faults_of_lines_are_told(rt: HostRuntime) {
    let (item, entries) = (TextFault::Syntax(2), TextFault::Invalid(AclFault::NoOther));
    let list = "line 3: the entries are no valid list: there is no entry for all others";
    let twice = "line 3: the name has a number already";
    at_line_3(&rt, LineFault::Form, FORM);
    at_line_3(&rt, LineFault::Order, ORDER);
    at_line_3(&rt, LineFault::BadName, "line 3: this is no name");
    at_line_3(&rt, LineFault::NameTwice, twice);
    at_line_3(&rt, LineFault::List(item), "line 3: item 2 is no entry");
    at_line_3(&rt, LineFault::List(entries), list);
    let default = TextFault::DefaultInvalid(AclFault::NoOther);
    at_line_3(&rt, LineFault::List(default), DEFAULT);
    let many = TextFault::Invalid(AclFault::TooMany);
    at_line_3(&rt, LineFault::List(many), MANY);
}

/// Votes with this fault print this behind what stands before all of them.
fn at_votes(rt: &(impl Abort + AllocGlobal), fault: VotesFault, want: &str) {
    let told = format!(in rt.alloc(); "line 3: the votes are not valid: {want}");
    at_line_3(rt, LineFault::Votes(fault), had(rt, told).as_str());
}

#[test]
fn faults_of_votes_are_told(rt: HostRuntime) {
    let unknown = "a server is listed that is not there";
    let range = "what a read or a write collects is 0, or more than all votes";
    let missed = "a read and a write need not meet in a vote";
    let apart = "two writes need not meet in a vote";
    at_votes(&rt, VotesFault::Empty, "no server is listed");
    at_votes(&rt, VotesFault::UnknownServer, unknown);
    at_votes(&rt, VotesFault::ListedTwice, "a server is listed twice");
    at_votes(&rt, VotesFault::NoVotes, "nobody has a vote");
    at_votes(&rt, VotesFault::ThresholdOutOfRange, range);
    at_votes(&rt, VotesFault::ReadMissesWrite, missed);
    at_votes(&rt, VotesFault::WritesDisjoint, apart);
}

#[test]
fn faults_of_settings_are_told(rt: HostRuntime) {
    let count = "line 3: there have to be 1 to 32 servers, and 1 to 64 agents";
    let unknown = "line 3: a server is listed that is not there";
    let cache =
        "line 3: a cache has at most 268,435,456 bytes, a site of it as many, and 4,096 entries";
    at_line_3(&rt, LineFault::Settings(SettingsFault::BadCount), count);
    at_line_3(
        &rt,
        LineFault::Settings(SettingsFault::UnknownServer),
        unknown,
    );
    at_line_3(&rt, LineFault::Settings(SettingsFault::BadCache), cache);
}

#[test]
fn other_errors_are_told(rt: HostRuntime) {
    let failed = printed(&rt, PlayError::WriteFailed);
    tells(&rt, failed, "a write failed", "a write failed");
    let memory = printed(&rt, PlayError::Memory);
    tells(&rt, memory, "out of memory", "out of memory");
}

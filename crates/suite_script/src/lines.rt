//! The lines of each command's scripts.

use crate::form::{FormEnding, Forms, LineForm, Place};

const SERVERS: LineForm = LineForm {
    word: b"servers",
    places: &[Place::Servers],
    ending: FormEnding::Whole,
    does: b"1 to 32 servers, numbered from 0",
};

const AGENTS: LineForm = LineForm {
    word: b"agents",
    places: &[Place::Agents],
    ending: FormEnding::Whole,
    does: b"1 to 64 agents, numbered from 0",
};

const VOTES: LineForm = LineForm {
    word: b"votes",
    places: &[Place::OpeningVotes],
    ending: FormEnding::Whole,
    does: b"the votes at first",
};

const ROOT: LineForm = LineForm {
    word: b"root",
    places: &[Place::Uid, Place::Gid, Place::Init],
    ending: FormEnding::Whole,
    does: b"the root folder's owner, group and list",
};

const CACHE: LineForm = LineForm {
    word: b"cache",
    places: &[Place::Budget, Place::Quota, Place::Slots],
    ending: FormEnding::Whole,
    does: b"the most bytes of an agent's cache, of a site's part of it, and the most entries",
};

const OLD: LineForm = LineForm {
    word: b"old",
    places: &[Place::Old],
    ending: FormEnding::Whole,
    does: b"servers whose root is first written in form 1",
};

const USER: LineForm = LineForm {
    word: b"user",
    places: &[Place::UserName, Place::Uid],
    ending: FormEnding::Whole,
    does: b"a user's name for the lists of the lines below",
};

const GROUP: LineForm = LineForm {
    word: b"group",
    places: &[Place::GroupName, Place::Gid],
    ending: FormEnding::Whole,
    does: b"a group's name for the lists of the lines below",
};

/// Scripts of events, which `play` plays.
pub const PLAY_LINES: Forms = Forms {
    header: &[SERVERS, AGENTS, VOTES, ROOT, CACHE],
    optional: &[OLD],
    names: &[USER, GROUP],
    own: &[BEGIN, SWEEP, STEP, RUN, CRASH, RETURN, FORGET, AUDIT],
};

const BEGIN: LineForm = LineForm {
    word: b"begin",
    places: &[Place::Agent, Place::Uid, Place::Gids, Place::Site],
    ending: FormEnding::Operations,
    does: b"agent A begins a transaction of a user, at one of its sites 0 to 15",
};

const SWEEP: LineForm = LineForm {
    word: b"sweep",
    places: &[Place::Agent, Place::Server],
    ending: FormEnding::Whole,
    does: b"agent A begins to end what others have left at server S",
};

const STEP: LineForm = LineForm {
    word: b"step",
    places: &[Place::Agent],
    ending: FormEnding::Perhaps(Place::Steps),
    does: b"one step of agent A, or N",
};

const RUN: LineForm = LineForm {
    word: b"run",
    places: &[Place::Agent],
    ending: FormEnding::Whole,
    does: b"steps of agent A until it has no job",
};

const CRASH: LineForm = LineForm {
    word: b"crash",
    places: &[Place::Server],
    ending: FormEnding::Whole,
    does: b"server S crashes",
};

const RETURN: LineForm = LineForm {
    word: b"return",
    places: &[Place::Server],
    ending: FormEnding::Whole,
    does: b"server S restarts",
};

const FORGET: LineForm = LineForm {
    word: b"forget",
    places: &[Place::Agent, Place::Site],
    ending: FormEnding::Whole,
    does: b"agent A forgets what its cache has for a site",
};

const AUDIT: LineForm = LineForm {
    word: b"audit",
    places: &[Place::Server],
    ending: FormEnding::Whole,
    does: b"the denials that server S recorded are printed",
};

/// Scripts of jobs, which `serve` has carried out.
pub const SERVE_LINES: Forms = Forms {
    header: &[SERVERS, VOTES, ROOT, CACHE],
    optional: &[OLD],
    names: &[USER, GROUP],
    own: &[JOB, SERVER_SWEEP, TOGETHER],
};

const JOB: LineForm = LineForm {
    word: b"do",
    places: &[Place::Uid, Place::Gids, Place::Site],
    ending: FormEnding::Operations,
    does: b"a transaction of a user, at one of an agent's sites 0 to 15",
};

const SERVER_SWEEP: LineForm = LineForm {
    word: b"sweep",
    places: &[Place::Server],
    ending: FormEnding::Whole,
    does: b"what others have left at server S is ended",
};

const TOGETHER: LineForm = LineForm {
    word: b"together",
    places: &[],
    ending: FormEnding::Whole,
    does: b"once: the jobs above it are done one after the other, by agent 0; those below it by all agents at once, each as one is free",
};

/// Scripts of transactions, which `table` plays.
pub const TABLE_LINES: Forms = Forms {
    header: &[ROOT],
    optional: &[],
    names: &[USER, GROUP],
    own: &[TRANSACTION],
};

const TRANSACTION: LineForm = LineForm {
    word: b"do",
    places: &[Place::Uid, Place::Gids],
    ending: FormEnding::Operations,
    does: b"a transaction of a user who is in these groups",
};

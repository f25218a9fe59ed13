//! The table of forms, as it is printed: the places, with their names and limits, the lines, and the operations.

ghost use Rattle.forms.specs.Reasons.{AreLimitsOf};

use crate::mend::{push_count, push_field};
use crate::reading::widest;
use std::alloc::{AllocError, Global};
use suite_prefix::{MAX_AGENTS, MAX_CACHE, MAX_SLOTS};
use suite_script::Place::{
    Agent, Agents, Budget, Contents, Gid, Gids, GroupName, Init, Lists, Old, OpeningVotes, Path,
    Quota, Server, Servers, Site, Slots, Steps, Uid, UserName, Votes,
};
use suite_script::{
    FormEnding, Forms, LAST_SITE, LineForm, MAX_STEPS, PLAY_LINES, Place, SERVE_LINES, Scope,
    TABLE_LINES, VERBS,
};
use vote_core::MAX_SERVERS;

/// The places, of those with one name one.
const PLACES: [Place; 19] = [
    Servers, Agents, Votes, Uid, Gid, Init, Budget, Quota, Slots, Old, UserName, Agent, Server,
    Site, Steps, Gids, Path, Contents, Lists,
];

/// The commands, with the lines of their scripts.
const COMMANDS: [(&[u8], Forms); 3] = [
    (b"play", PLAY_LINES),
    (b"serve", SERVE_LINES),
    (b"table", TABLE_LINES),
];

/// The name of a place, a word that fits there in a script with one server and one agent too, and what stands there.
pub(crate) fn about(place: Place) -> [&'static [u8]; 3] {
    match place {
        Servers => [b"SERVERS", b"32", b"how many servers there are"],
        Agents => [b"AGENTS", b"64", b"how many agents there are"],
        Votes | OpeningVotes => [b"VOTES", b"1/1/1", b"votes such as 1,1,1/2/2"],
        Uid => [b"UID", b"0", b"the number of a user"],
        Gid => [b"GID", b"0", b"the number of a group"],
        Init => [b"INIT", b"644", b"three octal digits or a list"],
        Budget => [b"BUDGET", b"0", b"the most bytes of a cache"],
        Quota => [b"QUOTA", b"0", b"the most bytes of a site's part of it"],
        Slots => [b"SLOTS", b"0", b"the most entries of a cache"],
        Old => [b"OLD", b"0", b"numbers of servers with commas between them"],
        UserName | GroupName => [b"NAME", b"~", b"a name"],
        Agent => [b"A", b"0", b"the number of an agent"],
        Server => [b"S", b"0", b"the number of a server"],
        Site => [b"SITE", b"0", b"a number from 0 to 15"],
        Steps => [b"N", b"0", b"how many steps"],
        Gids => [
            b"GIDS",
            b"0",
            b"the numbers of the user's groups with commas between them",
        ],
        Path => [b"PATH", b"/a", b"a path"],
        Contents => [
            b"HEX",
            b"00",
            b"hexadecimal digits, two a byte, or - for none",
        ],
        Lists => [b"LIST", b"u::r,g::r,o::r", b"a list"],
    }
}

/// The least and the most of a number in its place.
pub(crate) fn limits(scope: &Scope, place: Place) -> Option<(u64, u64)>
    ensures { AreLimitsOf scope.now place result }
{
    match place {
        Servers => Some((1, MAX_SERVERS as u64)),
        Agents => Some((1, MAX_AGENTS as u64)),
        Uid | Gid => Some((0, u64::from(u32::MAX))),
        Budget | Quota => Some((0, MAX_CACHE as u64)),
        Slots => Some((0, MAX_SLOTS as u64)),
        Agent => Some((0, u64::from(scope.last_agent))),
        Server => Some((0, u64::from(scope.last_server))),
        Site => Some((0, u64::from(LAST_SITE))),
        Steps => Some((0, MAX_STEPS)),
        _ => None,
    }
}

/// Adds the least and the most of a number in its place, and the code of one beyond; a hyphen for each where it is none.
fn push_limits(text: &mut Vec<u8>, scope: &Scope, place: Place) -> Result<(), AllocError> {
    let Some((least, most)) = limits(scope, place) else {
        return text.extend_from_slice(b"-\t-\t-\t");
    };
    push_count(text, Some(least))?;
    match place {
        Agent => push_field(text, b"agents")?,
        Server => push_field(text, b"servers")?,
        _ => push_count(text, Some(most))?,
    }
    match place {
        Servers | Agents => push_field(text, b"G1"),
        Budget | Quota | Slots => push_field(text, b"G3"),
        _ => push_field(text, b"S1"),
    }
}

/// The lines of a command's scripts, by the command's name.
pub(crate) fn lines_of(command: &[u8]) -> Option<Forms> {
    let row = COMMANDS.iter().find(|row| command == row.0)?;
    Some(row.1)
}

/// The table.
pub(crate) fn table(alloc: Global) -> Result<Vec<u8>, AllocError> {
    let mut text = Vec::new(alloc);
    let scope = widest(alloc);
    for place in PLACES {
        let [name, sample, meaning] = about(place);
        push_fields(&mut text, &[b"place", name])?;
        push_limits(&mut text, &scope, place)?;
        push_field(&mut text, meaning)?;
        text.extend_from_slice(sample)?;
        text.push(b'\n')?;
    }
    for (command, forms) in COMMANDS {
        let parts: [(&[u8], &[LineForm]); 4] = [
            (b"header", forms.header),
            (b"option", forms.optional),
            (b"name", forms.names),
            (b"own", forms.own),
        ];
        for (part, forms) in parts {
            for form in forms {
                push_form(&mut text, &[b"line", command, part], *form)?;
            }
        }
    }
    for verb in VERBS.iter() {
        push_form(&mut text, &[b"operation"], verb.form())?;
    }
    Ok(text)
}

/// A form with what it does, behind some fields.
fn push_form(text: &mut Vec<u8>, before: &[&[u8]], form: LineForm) -> Result<(), AllocError> {
    push_fields(text, before)?;
    push_fields(text, &[form.word])?;
    push_places(text, form)?;
    text.push(b'\t')?;
    text.extend_from_slice(form.does)?;
    text.extend_from_slice(b"\n")
}

/// Fields with a tab behind each.
fn push_fields(text: &mut Vec<u8>, fields: &[&[u8]]) -> Result<(), AllocError> {
    for field in fields {
        push_field(text, field)?;
    }
    Ok(())
}

/// The places of a form, with spaces between them.
pub(crate) fn push_places(text: &mut Vec<u8>, form: LineForm) -> Result<(), AllocError> {
    let mut gap: &[u8] = b"";
    for place in form.places {
        text.extend_from_slice(gap)?;
        text.extend_from_slice(about(*place)[0])?;
        gap = b" ";
    }
    match form.ending {
        FormEnding::Whole => Ok(()),
        FormEnding::Perhaps(place) => {
            text.extend_from_slice(gap)?;
            text.push(b'[')?;
            text.extend_from_slice(about(place)[0])?;
            text.extend_from_slice(b"]")
        }
        FormEnding::Operations => {
            text.extend_from_slice(gap)?;
            text.extend_from_slice(b"OPERATIONS")
        }
    }
}

//! Scripts of events, played as they are read.

ghost use Rattle.std.specs.Prelude.{◌≡◌, ◌<◌, ◌^◌, ◌++◌, length, OnOk};
ghost use Rattle.suite_play.specs.Outputs.{places_of, play_output};
ghost use Rattle.suite_play.specs.Playing.{of_event, steps};
ghost use Rattle.suite_play.specs.Promised.{PlayIsPromised};
ghost use Rattle.suite_play.specs.Texts.{audit_lines, outcome_text};
ghost use Rattle.suite_play.specs.code.Playing.{audit_head};
ghost use Rattle.run_core.specs.Worlds.{step};
ghost use Rattle.txn_core.specs.Agents.{fixed_of};
ghost use Rattle.suite_script.specs.Gathering.{Plays, Prints};

use crate::command::Command;
use crate::header::read_header;
use crate::outcome::{push_item, push_outcome};
use crate::places::Places;
use byte_streams::ByteOut;
use file_ops::AuditItem;
use run_core::{EndedJob, Event, Served, World};
use script_text::push_number;
use std::alloc::{AllocError, Global};
use suite_prefix::Settings;
use suite_script::{LineStage, PlayError, ScriptReader, play_lines, write_if_full};

/// How many denials an audit may tell that is no long line.
const FEW: usize = 1_024;

/// Plays a script of events, and writes what it prints; nothing, where it has a fault. What is played is promised: of the
/// run of its events, at each moment, all that `law_headline::promise` promises of a world. A script is played as it is
/// read (`play_lines`), and an audit of more than 1,024 denials is a long line.
pub fn play_events<O: ByteOut>(alloc: Global, text: &[u8], writer: &mut O) -> Result<(), PlayError>
    requires { length text.now < 2 ^ 60 }
    ensures plays { Plays result (play_output text.now) (O.written writer.old) (O.written writer.new)
        (O.failed_writes writer.old) (O.failed_writes writer.new) }
    ensures promised { OnOk result (PlayIsPromised text.now) }
{
    let mut script = ScriptReader::new(alloc, text);
    let settings = read_header(alloc, &mut script)?;
    settings.fits();
    let places = places_of(&settings);
    let mut world = World::opening(alloc, &settings)?;
    play_lines(alloc, &mut script, &places, &mut world, writer)
}

/// The servers and agents of a header.
pub fn places_of(settings: &Settings) -> Places
    ensures { result ≡ places_of settings.now }
{
    Places {
        last_server: (settings.servers() - 1) as u8,
        last_agent: (settings.agents() - 1) as u8,
    }
}

impl LineStage<Places> for World {
    ghost use Rattle.suite_play.specs.code.Playing.{after_line, is_long, line_of};

    ghost line = { line_of };

    ghost after = { after_line };

    ghost is_long = { is_long };

    fn is_long(&self, command: &Command) -> bool {
        match command {
            Command::Audit { server } => self.audit(*server).len() > FEW,
            _ => false,
        }
    }

    fn play_line(
        &mut self,
        alloc: Global,
        _number: u64,
        command: &Command,
        text: &mut Vec<u8>,
    ) -> Result<(), AllocError> {
        match command {
            Command::Event(event) => push_event(alloc, self, event, text),
            Command::Steps { agent, count } => push_steps(alloc, self, *agent, *count, text),
            Command::Run { agent } => push_steps(alloc, self, *agent, u64::MAX, text),
            Command::Audit { server } => push_audit(*server, self.audit(*server), text),
        }
    }

    fn write_line<O: ByteOut>(
        &mut self,
        alloc: Global,
        number: u64,
        command: &Command,
        text: &mut Vec<u8>,
        writer: &mut O,
    ) -> Result<(), PlayError> {
        if let Command::Audit { server } = command {
            return write_audit(*server, self.audit(*server), text, writer);
        }
        self.play_line(alloc, number, command, text)?;
        write_if_full(writer, text)?;
        Ok(())
    }
}

/// Plays an event, and adds the line of the job that ended in it, if one did.
fn push_event(
    alloc: Global,
    world: &mut World,
    event: &Event,
    text: &mut Vec<u8>,
) -> Result<(), AllocError>
    ensures printed { OnOk result (text.new.items ≡ text.old.items ++ (of_event (step (fixed_of world.old.given) world.old.world event.now)).text) }
    ensures world { OnOk result (world.new ≡ record world.old { world = (of_event (step (fixed_of world.old.given) world.old.world event.now)).world }) }
{
    let mut ended = None;
    world.advance(event, &mut Served::place(), &mut ended)?;
    push_ended(alloc, text, &ended)
}

/// Plays so many steps of an agent, as long as it has a job, and adds the line of the job if it ended.
fn push_steps(
    alloc: Global,
    world: &mut World,
    agent: u8,
    count: u64,
    text: &mut Vec<u8>,
) -> Result<(), AllocError>
    ensures printed { OnOk result (text.new.items ≡ text.old.items ++ (steps (fixed_of world.old.given) world.old.world agent count).text) }
    ensures world { OnOk result (world.new ≡ record world.old { world = (steps (fixed_of world.old.given) world.old.world agent count).world }) }
{
    if world.idle(agent) {
        return Ok(());
    }
    let event = Event::Step { agent };
    let mut served = Served::place();
    let mut ended = None;
    let mut left = count;
    while left > 0 && ended.is_none() {
        world.advance(&event, &mut served, &mut ended)?;
        left -= 1;
    }
    push_ended(alloc, text, &ended)
}

/// Adds the line of a job that has ended, if one has.
pub fn push_ended(
    alloc: Global,
    text: &mut Vec<u8>,
    ended: &Option<EndedJob>,
) -> Result<(), AllocError>
    ensures { OnOk result (text.new.items ≡ text.old.items ++ outcome_text ended.now) }
{
    match ended {
        Some(outcome) => push_outcome(alloc, text, outcome),
        None => Ok(()),
    }
}

/// Adds the denials that a server keeps.
pub fn push_audit(server: u8, items: &[AuditItem], text: &mut Vec<u8>) -> Result<(), AllocError>
    ensures { OnOk result (text.new.items ≡ text.old.items ++ audit_lines server items.now) }
{
    push_audit_head(server, items.len(), text)?;
    for item in items {
        push_item(text, item)?;
    }
    Ok(())
}

/// Adds the denials that a server keeps, and writes them in pieces.
fn write_audit<O: ByteOut>(
    server: u8,
    items: &[AuditItem],
    text: &mut Vec<u8>,
    writer: &mut O,
) -> Result<(), PlayError>
    ensures { Prints result (text.old.items ++ audit_lines server items.now) text.new.items
        (O.written writer.old) (O.written writer.new) (O.failed_writes writer.old) (O.failed_writes writer.new) }
{
    push_audit_head(server, items.len(), text)?;
    for item in items {
        push_item(text, item)?;
        write_if_full(writer, text)?;
    }
    Ok(())
}

/// Adds the line above the denials that a server keeps, which tells how many there are.
fn push_audit_head(server: u8, count: usize, text: &mut Vec<u8>) -> Result<(), AllocError>
    ensures { OnOk result (text.new.items ≡ text.old.items ++ audit_head server count) }
{
    text.extend_from_slice(b"audit ")?;
    push_number(text, u64::from(server))?;
    text.extend_from_slice(b" ")?;
    push_number(text, count as u64)?;
    text.extend_from_slice(b"\n")
}

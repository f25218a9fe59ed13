//! Worlds as their users meet them, event by event: what scripts of `play` cannot say.
//!
//! What memory was refused to is done again, so that each allocation can be refused in turn. What a test
//! itself lacks stops it.

use crate::events::event;
use crate::fixtures::{had, number, opening, push, same, settings, words};
use run_core::{EndedJob, Event, World};
use std::process::Abort;

/// Three servers, two of which are a quorum; two agents.
fn world(rt: &(impl Abort + AllocGlobal)) -> World {
    opening(rt, &settings(rt, 2))
}

/// A line of a text: behind an arrow stands what is to come of it, and behind a colon how often it is played.
fn parts(text: &str) -> (&str, &str, &str) {
    let (line, want) = text.split_once(" -> ").unwrap_or((text, ""));
    let (line, times) = line.split_once(": ").unwrap_or((line, "1"));
    (line, times, want)
}

/// The outcomes of events; or, where memory is refused, how many were played.
fn played(world: &mut World, events: &[Event]) -> Result<Vec<EndedJob>, usize> {
    match world.play(events) {
        Ok(outcomes) => Ok(outcomes),
        Err(stopped) => Err(stopped.done),
    }
}

/// From which place on events were played to the end, and their outcomes: from the first one on, or where memory was
/// refused once.
fn plays_on(rt: &impl Abort, world: &mut World, events: &[Event]) -> (usize, Vec<EndedJob>) {
    match played(world, events) {
        Ok(outcomes) => (0, outcomes),
        Err(done) => {
            let left = events.get(done..).expect(rt, "events");
            (done, had(rt, played(world, left)))
        }
    }
}

/// A writer stops before its deciding step, or behind it; another agent sweeps both servers that hold its locks; then the
/// writer goes on, and the file is read. Behind an arrow stands how a job ends.
static BEFORE: &str = "
begin 0 file /a; write /a hi
step 0: 10 -> 0.0 10 Answered(Answers { replies: [Made(1), Wrote] })
begin 0 write /a no
step 0: 7
begin 1 sweep 0
step 1: 3 -> 1.0 3 Swept { broken: 0, finished: 1, left: 0 }
begin 1 sweep 1
step 1: 3 -> 1.1 3 Swept { broken: 0, finished: 1, left: 0 }
step 0: 3 -> 0.1 10 Undecided(Overruled)
begin 1 read /a
step 1: 11 -> 1.2 11 Answered(Answers { replies: [Read(FileBytes { shared: Some([104, 105]) })] })";

static BEHIND: &str = "
begin 0 file /a; write /a hi
step 0: 10 -> 0.0 10 Answered(Answers { replies: [Made(1), Wrote] })
begin 0 write /a no
step 0: 8
begin 1 sweep 0
step 1: 3 -> 1.0 3 Swept { broken: 0, finished: 1, left: 0 }
begin 1 sweep 1
step 1: 3 -> 1.1 3 Swept { broken: 0, finished: 1, left: 0 }
step 0: 2 -> 0.1 10 Answered(Answers { replies: [Wrote] })
begin 1 read /a
step 1: 11 -> 1.2 11 Answered(Answers { replies: [Read(FileBytes { shared: Some([110, 111]) })] })";

/// Events, with the ends that they bring and the place of the event that brings each.
#[derive(Drop)]
struct EventsAndEnds {
    events: Vec<Event>,
    ends: Vec<(usize, &'static str)>,
}

/// Adds the events of a line, and the end that they bring.
fn add(rt: &(impl Abort + AllocGlobal), told: &mut EventsAndEnds, text: &'static str) {
    let (line, times, end) = parts(text);
    for _ in 0..number(rt, times) {
        push(rt, &mut told.events, event(rt, line));
    }
    if !end.is_empty() {
        let last = told.events.len().wrapping_sub(1);
        push(rt, &mut told.ends, (last, end));
    }
}

fn told_by(rt: &(impl Abort + AllocGlobal), text: &'static str) -> EventsAndEnds {
    let mut told = EventsAndEnds {
        events: Vec::new(rt.alloc()),
        ends: Vec::new(rt.alloc()),
    };
    for line in text.lines().skip(1) {
        add(rt, &mut told, line);
    }
    told
}

/// The outcome at this place is there, and is this.
fn ends_so(rt: &(impl Abort + AllocGlobal), outcomes: &[EndedJob], at: usize, want: &str) {
    let outcome = outcomes.get(at).expect(rt, "an end");
    same(rt, &words(rt, outcome), want, want);
}

/// Jobs end as those events say that are played from this place on.
fn ends(
    rt: &(impl Abort + AllocGlobal),
    wanted: &[(usize, &'static str)],
    from: usize,
    outcomes: &[EndedJob],
) {
    let mut next = 0usize;
    for (place, end) in wanted {
        if *place >= from {
            ends_so(rt, outcomes, next, end);
            next = next.wrapping_add(1);
        }
    }
    assert!(rt; next == outcomes.len());
}

/// Plays all events at once, and those that are left where memory was refused: these have the ends that they would have.
fn plays_at_once(rt: &(impl Abort + AllocGlobal), text: &'static str) {
    let told = told_by(rt, text);
    let mut world = world(rt);
    let (from, outcomes) = plays_on(rt, &mut world, &told.events);
    ends(rt, &told.ends, from, &outcomes);
}

/// A request is not served, because memory ran out: before the decision that ends a transaction, and after it changes
/// nothing. So it is where a server is full.
static LACKS: &str = "
begin 0 file /a; write /a hi
step 0: 10 -> 0.0 10 Answered(Answers { replies: [Made(1), Wrote] })
begin 0 write /a no
step 0: 4
lack 0
step 0: 2 -> 0.1 7 Undecided(Memory)
begin 0 write /a ho
step 0: 8
lack 0: 2 -> 0.2 10 Answered(Answers { replies: [Wrote] })
begin 1 sweep 0
step 1: 3 -> 1.0 3 Swept { broken: 0, finished: 1, left: 0 }
begin 1 sweep 1
step 1: 3 -> 1.1 3 Swept { broken: 0, finished: 1, left: 0 }
begin 0 read /a
step 0: 11 -> 0.3 11 Answered(Answers { replies: [Read(FileBytes { shared: Some([104, 111]) })] })
begin 0 write /a x
step 0: 5
full 0
step 0: 2 -> 0.4 8 Undecided(Full { server: 0 })";

#[test]
fn both_sides_of_the_deciding_step(rt: HostRuntime) {
    plays_at_once(&rt, BEFORE);
    plays_at_once(&rt, BEHIND);
    plays_at_once(&rt, LACKS);
}

//! Who opens a world and plays events on it is promised what holds of every run, and what is available from each of its
//! moments on: callers of `law_headline::promise` and `law_run_recovers::promise`, which are proved against their
//! contracts, and what came of the events of one; and a caller of laws of servers.

ghost use Rattle.std.specs.Prelude.{◌≡◌, ℕ, List, [], ◌∷◌, ◌++◌, Some, true, ◌||◌};
ghost use Rattle.rep_core.specs.Laws.{reached};
ghost use Rattle.rep_core.specs.ValidCopies.{HasValidCopies};
ghost use Rattle.law_headline.specs.Promises.{IsRunOf, Promises};
ghost use Rattle.run_core.specs.Opened.{Opened};
ghost use Rattle.run_core.specs.declared.done.EndedJob.{EndedJob as AnEnd};
ghost use Rattle.run_core.specs.TableOfRun.{table_of};
ghost use Rattle.run_core.specs.declared.event.Event.{Event as AnEvent};
ghost use Rattle.law_headline.specs.Worked.{with_caches};
ghost use Rattle.law_run_alone.specs.Undisturbed.{is_decided};
ghost use Rattle.law_run_recovers.specs.Clashing.{Begun};
ghost use Rattle.law_run_recovers.specs.Beside.{SideBySideAreDecidedAt, SideBySideEndInTimeAt};
ghost use Rattle.law_run_recovers.specs.BesideWorked.{two_made, two_write};
ghost use Rattle.law_run_recovers.specs.Ends.{EndsThen, ending_of, answer_on};
ghost use Rattle.law_run_recovers.specs.Meets.{OneThatMeetsIsDecidedAt};
ghost use Rattle.law_run_recovers.specs.MeetsWorked.{SomeRunsMeet};
ghost use Rattle.law_run_recovers.specs.Promises.{Lends};

use crate::events::events;
use crate::fixtures::{ended_by, same, settings};
use law_headline::{all_votes_are_valid, opens_a_run, plays_on, promise};
use law_run_recovers::{
    one_that_meets_is_decided, side_by_side_are_decided, some_runs_go_side_by_side, some_runs_meet,
};
use rep_core::{Request, Stamped, copies_are_valid, settings_fit};
use run_core::{Event, World};
use std::alloc::Global;
use std::process::Abort;
use suite_prefix::Settings;

/// A world on which these events were played, unless memory ran out: it promises what holds of their run, and lends
/// what is available.
fn promised(alloc: Global, settings: &Settings, events: &[Event]) -> Option<World>
    ensures { (world : Opened) → result ≡ Some world → Promises world × Lends world }
{
    settings.fits();
    let _reps = settings.c0().reps();
    all_votes_are_valid(events);
    opens_a_run();
    plays_on();
    let Ok(mut world) = World::opening(alloc, settings) else {
        return None;
    };
    let Ok(_) = world.play(events) else {
        return None;
    };
    promise(&world);
    law_run_recovers::promise(&world);
    Some(world)
}

#[test]
fn a_world_promises(rt: HostRuntime) {
    let settings = settings(&rt, 1);
    let events = events(&rt, "crash 0,begin 0 sweep 1,return 0");
    let mut world = promised(rt.alloc(), &settings, &events).expect(&rt, "memory");
    let ended = ended_by(&rt, &mut world, &Event::Step { agent: 0 });
    let wanted = "0.0 1 Swept { broken: 0, finished: 0, left: 0 }";
    same(&rt, &ended, wanted, "a sweep");
}

/// A world for users who want different things: from each of its moments on transactions that begin side by side are
/// decided when they end, and end in time.
pub fn shared_by_users(alloc: Global, settings: &Settings, events: &[Event]) -> Option<World>
    ensures decided { (world : Opened) → result ≡ Some world → (before later : List AnEvent) → IsRunOf world (before ++ later)
        → SideBySideAreDecidedAt world.given before }
    ensures in_time { (world : Opened) → result ≡ Some world → (before later : List AnEvent) → IsRunOf world (before ++ later)
        → SideBySideEndInTimeAt world.given before }
{
    promised(alloc, settings, events)
}

/// A world for users who want the same thing: from each of its moments on, of two that alone meet one is decided.
pub fn fought_over_by_users(alloc: Global, settings: &Settings, events: &[Event]) -> Option<World>
    ensures { (world : Opened) → result ≡ Some world → (before later : List AnEvent) → IsRunOf world (before ++ later)
        → OneThatMeetsIsDecidedAt world.given before }
{
    promised(alloc, settings, events)
}

/// What is lent, of a run: in one in which two users each write a file of their own, step by step in turn, each that ends
/// is decided as the table answers it. That they go side by side is all that is shown of the run.
pub fn users_of_a_run_are_decided()
    ensures { (one : Begun with_caches two_made two_write) (job : AnEnd)
        → EndsThen with_caches (two_made ++ one.before) one.after one.agent one.t one.caller one.site one.ops job
        → job.ending ≡ ending_of (answer_on (table_of with_caches (two_made ++ one.before)) one.t one.caller one.ops) }
{
    some_runs_go_side_by_side();
    side_by_side_are_decided();
}

/// And in one in which they write the same file one of both is decided: that they so meet is all that is shown of it.
pub fn one_user_of_a_run_is_decided()
    ensures { (run : SomeRunsMeet) × ((job outcome : AnEnd)
        → EndsThen with_caches (two_made ++ run.one.before) run.one.after run.one.agent run.one.t run.one.caller run.one.site run.one.ops job
        → EndsThen with_caches (two_made ++ run.other.before) run.other.after run.other.agent run.other.t run.other.caller run.other.site run.other.ops outcome
        → (is_decided job.ending || is_decided outcome.ending) ≡ true) }
{
    some_runs_meet();
    one_that_meets_is_decided();
}

/// Who has settings and requests meets what the law of valid copies asks: every server that was opened with these
/// settings and asked these two requests has valid copies. It does nothing.
pub fn asked_twice(settings: &Settings, first: &Stamped<Request>, second: &Stamped<Request>)
    ensures { (index : ℕ) → HasValidCopies (reached index settings.now (first.now ∷ second.now ∷ [])).store }
{
    settings_fit(settings);
    first.value.takes_fit();
    second.value.takes_fit();
    copies_are_valid();
}

//! What a world lends of what is available.

ghost use Rattle.law_headline.specs.Promises.{IsOfRun};
ghost use Rattle.law_run_recovers.specs.Promises.{Lends, WhatCanBeIsAvailable};

use law_agents::runs_keep_to_sites;
use run_core::World;

/// What a world lends that events made of accepted settings, of each moment of its run and from there on: what is decided
/// had its votes up, what sweeps leave, that none of it is lost, and how jobs end that nothing disturbs. It does nothing.
pub fn promise(world: &World)
    requires { IsOfRun world.now }
    ensures { Lends world.now }
{
    runs_keep_to_sites();
}

/// A law: all that `promise` lends of a world is so after any events that there can be, whoever made them. It does nothing.
pub fn what_can_be_is_available()
    ensures { WhatCanBeIsAvailable }
{
    runs_keep_to_sites();
}

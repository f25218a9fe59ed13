//! Whether agents can work with passes.

ghost use Rattle.std.specs.Prelude.{◌≢◌, ◌↔◌, [], IsTrue, Some};
ghost use Rattle.agent_pool.specs.Seats.{AreReady, IsOther, passes_for};

use crate::player::Player;
use server_lock::Pass;

/// Whether these agents can work with these passes: no two have one number, all are idle, and each has its pass.
pub fn are_ready(agents: &[Player], passes: &[Pass]) -> bool
    ensures { IsTrue result ↔ AreReady passes.now agents.now }
{
    let mut rest = agents;
    while let Some((player, later)) = rest.split_first() {
        let number = player.number();
        if !player.is_idle() || !has_pass(passes, number) || !is_other(later, number) {
            return false;
        }
        rest = later;
    }
    true
}

/// Whether there is a pass of this agent.
fn has_pass(passes: &[Pass], agent: u8) -> bool
    ensures { IsTrue result ↔ (passes_for agent passes.now ≢ []) }
{
    let mut rest = passes;
    while let Some((pass, later)) = rest.split_first() {
        if pass.agent() == Some(agent) {
            return true;
        }
        rest = later;
    }
    false
}

/// Whether it is the number of none of these agents.
fn is_other(agents: &[Player], number: u8) -> bool
    ensures { IsTrue result ↔ IsOther agents.now (Some number) }
{
    let mut rest = agents;
    while let Some((player, later)) = rest.split_first() {
        if player.number() == number {
            return false;
        }
        rest = later;
    }
    true
}

//! The passes of a pool's agents.

ghost use Rattle.std.specs.Prelude.{◌≡◌, [], IfOk, IfSome, None};
ghost use Rattle.agent_pool.specs.Seats.{AreReady, passes_for};
ghost use Rattle.agent_pool.specs.code.Seated.{AreSeated, IsTakenOut};
ghost use Rattle.agent_pool.specs.Transcripts.{Played};

use crate::player::Player;
use crate::work::SeatedAgent;
use server_lock::Pass;
use std::alloc::{AllocError, Global};

/// The agents, each with its pass, which is taken out of these.
pub(crate) fn seats(
    alloc: Global,
    agents: Vec<Player>,
    passes: &mut Vec<Pass>,
) -> Result<Vec<SeatedAgent>, AllocError>
    requires { AreReady passes.old.items agents.items }
    ensures { IfOk result (λ seats. AreSeated passes.old.items passes.new.items agents.items seats.items) }
{
    let mut seats = Vec::with_capacity(alloc, agents.len())?;
    for player in agents {
        let Some(pass) = take_pass(passes, player.number()) else {
            unreachable!();
        };
        seats.push_reserved(SeatedAgent { player, pass });
    }
    Ok(seats)
}

/// Takes an agent's pass out of these: the last, where there are several.
fn take_pass(passes: &mut Vec<Pass>, agent: u8) -> Option<Pass>
    ensures some { IfSome result (λ pass. IsTakenOut agent passes.old.items passes.new.items pass) }
    ensures none { result ≡ None → passes_for agent passes.old.items ≡ [] }
{
    let mut at = passes.len();
    while at > 0 {
        at -= 1;
        if passes[at].agent() == Some(agent) {
            return Some(passes.remove(at));
        }
    }
    None
}

//! The copy in effect.

ghost use Rattle.rep_core.specs.Store.{FinishKeepsEffect};

/// A law: to finish a transaction as it was decided changes no copy in effect. It does nothing.
pub fn finish_keeps_effect()
    ensures { FinishKeepsEffect }
{}

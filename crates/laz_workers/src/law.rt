//! The laws of claims.
ghost use Rattle.laz_workers.specs.Claims.{EveryRunKeepsTheRule, EveryCloseIsWhole};

/// The laws of claims, for every list of steps: the rule holds after each step, and when the claims can be closed, the
/// opening pass holds each number below the word once, and no other. The function does nothing: its contract is the
/// laws.
pub fn steps_keep_the_rule()
    ensures runs { EveryRunKeepsTheRule }
    ensures closes { EveryCloseIsWhole }
{}

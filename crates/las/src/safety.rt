//! What is asked of outputs in the environment.
ghost use Rattle.std.specs.Prelude.{◌≡◌};

use std::env::{Env, FillError};

// The variable that asks for outputs that appear whole.
const VARIABLE: &str = "LAS_SAFE";

/// How outputs are written.
#[derive(Clone, Copy, PartialEq, Eq)]
pub enum Safety {
    /// Under their own names, from their first byte on.
    Plain,
    /// As drafts, which are removed if the run fails.
    Safe,
    /// As drafts, which are kept under other names if the run fails.
    Keep,
}

/// What the environment asks for. Nothing and `0` ask for plain outputs, `keep` for drafts that are kept, and every
/// other value for drafts.
pub fn asked<R: Env>(rt: &R) -> Safety {
    let mut value = [0u8; 8];
    match rt.var(VARIABLE, &mut value) {
        Ok(length) => meaning(&value[..length]),
        Err(FillError::NotPresent) => Safety::Plain,
        Err(FillError::TooLong) => Safety::Safe,
    }
}

// What a value of the variable asks for.
fn meaning(value: &[u8]) -> Safety {
    match value {
        [] | b"0" => Safety::Plain,
        b"keep" => Safety::Keep,
        _ => Safety::Safe,
    }
}

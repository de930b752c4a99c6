//! Models beside values of an independent coder of the same models, of 2 and 256 symbols, and of bits.
ghost use Rattle.std.specs.Prelude.{◌≡◌, ◌<◌, ◌≤◌, IfOk};
ghost use Rattle.laz_models.specs.Dist.{alphabet_size};

use crate::texts::numbers;
use laz_models::{BitModel, SymbolModel};
use std::alloc::{AllocError, Global};

// The next number of a fixed sequence.
fn next(state: u32) -> u32 {
    state.wrapping_mul(1_664_525).wrapping_add(1_013_904_223)
}

// A symbol below `n`. Small ones come more often.
fn symbol(state: u32, n: u32) -> u32
    requires { 0 < n }
    ensures { result < n }
{
    let a = state >> 16;
    (a.wrapping_mul(a) >> 20) % n
}

// The model of `n` symbols after this many of them.
fn counted(alloc: Global, n: u32, symbols: u32) -> Result<SymbolModel, AllocError>
    requires some { 2 ≤ n }
    requires few { n ≤ 256 }
    ensures { IfOk result (λ model. alphabet_size model ≡ n) }
{
    let mut model = SymbolModel::new(alloc, n)?;
    let mut state = n;
    for _ in 0..symbols {
        state = next(state);
        model.count(symbol(state, n));
    }
    Ok(model)
}

// A line for each.
//
// - `symbols COUNT TIMES FIRST LAST`: of COUNT symbols TIMES are counted. Then the part of symbol 1 begins at FIRST, and
//   that of the last one at LAST.
// - `bits TIMES PART`: TIMES bits are counted. Then the part of 0 is PART.
pub(crate) const ROWS: &str = "\
symbols 2 5 21845 21845
symbols 2 100000 16611 16611
symbols 256 1000 521 32605
symbols 256 100000 570 32647
bits 0 4096
bits 4 4095
bits 9 5213
bits 1000 6577
bits 100000 6555
";

// Whether a model of `n` symbols counts so, and is reset.
fn is_counted(
    alloc: Global,
    n: u32,
    symbols: u32,
    first: u32,
    last: u32,
) -> Result<bool, AllocError> {
    let n = n.max(2).min(256);
    let mut model = counted(alloc, n, symbols)?;
    let is_counted = model.part(1).0 == first && model.part(n - 1) == (last, 32768);
    model.reset();
    Ok(is_counted && model.find(32767) == n - 1)
}

// Whether a model of bits counts so, and is reset.
fn are_counted(bits: u32, part: u32) -> bool {
    let mut model = BitModel::new();
    let mut state = 7;
    for _ in 0..bits {
        state = next(state);
        model.count((state >> 16) % 5 == 0);
    }
    let is_part = model.p0() == part;
    model.reset();
    is_part && model.p0() == 4096
}

/// Whether a model counts as a line says. It does not if the command is another one.
pub(crate) fn is_so(alloc: Global, command: &str, line: &str) -> Result<bool, AllocError> {
    let mut room = [0; 4];
    match numbers(&mut room, line) {
        [n, symbols, first, last] if command == "symbols" => {
            is_counted(alloc, *n, *symbols, *first, *last)
        }
        [bits, part] if command == "bits" => Ok(are_counted(*bits, *part)),
        _ => Ok(false),
    }
}

//! Rows of the other modules, and what plays them.
use crate::texts::pair;
use crate::{chunks, events, models, tables, vlrs};
use std::alloc::{AllocError, Global};
use std::process::Abort;

// Whose rows they are.
#[derive(Clone, Copy)]
enum Rows {
    Chunks,
    Events,
    Models,
    Tables,
    Heads,
}

// Whether a line is so. It is not if its first word is another one.
fn is_so(alloc: Global, whose: Rows, head: &mut Vec<u8>, line: &str) -> Result<bool, AllocError> {
    let (command, rest) = pair(line);
    match whose {
        Rows::Chunks => chunks::is_so(alloc, command, rest),
        Rows::Events => events::is_so(alloc, command, rest),
        Rows::Models => models::is_so(alloc, command, rest),
        Rows::Tables => tables::is_so(alloc, command, rest),
        Rows::Heads => Ok(vlrs::is_so(alloc, head, command, rest)),
    }
}

// The first line that is not so, or none.
fn first_wrong(alloc: Global, whose: Rows, rows: &'static str) -> &'static str {
    let mut head = Vec::new(alloc);
    for line in rows.lines() {
        if !is_so(alloc, whose, &mut head, line).unwrap_or(false) {
            return line;
        }
    }
    ""
}

// No line is wrong.
fn none_is(wrong: &str, rt: &impl Abort) {
    assert!(rt; wrong.is_empty(), "{wrong}");
}

#[test]
fn chunks_are_these_bytes(rt: HostRuntime) {
    none_is(first_wrong(rt.alloc(), Rows::Chunks, chunks::ROWS), &rt);
}

#[test]
fn drawn_records_go_both_ways(rt: HostRuntime) {
    none_is(first_wrong(rt.alloc(), Rows::Chunks, chunks::DRAWN), &rt);
}

#[test]
fn long_chunk_goes_both_ways(rt: HostRuntime) {
    none_is(first_wrong(rt.alloc(), Rows::Chunks, chunks::LONG), &rt);
}

#[test]
fn events_make_these_bytes(rt: HostRuntime) {
    none_is(first_wrong(rt.alloc(), Rows::Events, events::ROWS), &rt);
}

#[test]
fn models_of_another_coder(rt: HostRuntime) {
    none_is(first_wrong(rt.alloc(), Rows::Models, models::ROWS), &rt);
}

#[test]
fn tables_are_worked_by_hand(rt: HostRuntime) {
    none_is(first_wrong(rt.alloc(), Rows::Tables, tables::ROWS), &rt);
}

#[test]
fn each_record_has_its_own_items(rt: HostRuntime) {
    none_is(first_wrong(rt.alloc(), Rows::Heads, vlrs::ITEMS), &rt);
}

#[test]
fn heads_are_read(rt: HostRuntime) {
    none_is(first_wrong(rt.alloc(), Rows::Heads, vlrs::ROWS), &rt);
}

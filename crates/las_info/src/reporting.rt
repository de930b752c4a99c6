//! The report of `lasinfo`.
ghost use Rattle.std.specs.Prelude.{◌≡◌, ◌+◌, ◌≤◌, ◌++◌, ℕ, IfOk, IsErrOf, IsOk, OnOk, All, codes, length, take};
ghost use Rattle.std.specs.Fmt.{decimal};
ghost use Rattle.las_header.specs.Fields.{minor_of};
ghost use Rattle.std.specs.FinMap as bins;
ghost use Rattle.std.specs.List.{flat_map};
ghost use Rattle.las_header.specs.Vlrs.{vlrs_of};
ghost use Rattle.las_info.specs.Report.{format_text, front_text, head_text, long_line, packed_line, returns_text};
ghost use Rattle.las_outside.specs.Sinks.{PutLater, with_fault, with_more};
ghost use Rattle.las_info.specs.declared.reporting.ReportFault.TheVariants.{Failed, Memory};
ghost use Rattle.las_info.specs.Report.{report_text};
ghost use Rattle.las_info.specs.Report.{bin_line, extents_text, number_line, summary_text, tally_text, vlr_line};

use crate::extents::Extents;
use crate::lines::{
    push_bin, push_counts, push_digits, push_number, push_numbers, push_range, push_text,
};
use crate::summary::Summary;
use crate::survey::Survey;
use crate::tap::Tap;
use las_header::{Head, VlrPlace, u16_at};
use las_outside::Sink;
use std::alloc::{AllocError, Global};

// Adds the version.
fn push_version(text: &mut Vec<u8>, head: &Head) -> Result<(), AllocError>
    ensures { OnOk result (text.new.items
        ≡ text.old.items ++ (codes "version 1." ++ decimal (minor_of head.now.bytes) ++ codes "\n")) }
{
    text.extend_from_slice(b"version 1.")?;
    push_digits(text, u64::from(head.minor()))?;
    text.extend_from_slice(b"\n")?;
    Ok(())
}

// Adds the lines before the VLRs.
fn push_front(text: &mut Vec<u8>, head: &Head) -> Result<(), AllocError>
    ensures { OnOk result (text.new.items ≡ text.old.items ++ front_text head.now.bytes) }
{
    push_version(text, head)?;
    push_numbers(text, b"header", &[u64::from(head.header_size())])?;
    push_numbers(text, b"offset", &[u64::from(head.offset())])?;
    push_numbers(text, b"vlrs", &[u64::from(head.vlr_count())])?;
    Ok(())
}

// Adds the lines of the point data format.
fn push_format(text: &mut Vec<u8>, head: &Head) -> Result<(), AllocError>
    ensures { OnOk result (text.new.items ≡ text.old.items ++ format_text head.now.bytes) }
{
    push_numbers(text, b"format", &[u64::from(head.format())])?;
    push_numbers(text, b"length", &[u64::from(head.record_length())])?;
    push_numbers(text, b"points", &[u64::from(head.points())])?;
    Ok(())
}

// Adds the line of the chunks.
fn push_packed(text: &mut Vec<u8>, chunk: Option<(u32, u32)>) -> Result<(), AllocError>
    ensures { OnOk result (text.new.items ≡ text.old.items ++ packed_line chunk) }
{
    match chunk {
        None => push_text(text, b"packed", b"no"),
        Some((size, count)) => push_numbers(text, b"packed", &[u64::from(size), u64::from(count)]),
    }
}

// Adds the lines of the numbers by return in the head.
fn push_returns(text: &mut Vec<u8>, head: &Head) -> Result<(), AllocError>
    ensures { OnOk result (text.new.items ≡ text.old.items ++ returns_text head.now.bytes) }
{
    push_counts(text, b"header returns", &head.returns())?;
    push_long(text, head.long_returns())?;
    Ok(())
}

// Adds the line of LAS 1.4.
fn push_long(text: &mut Vec<u8>, numbers: Option<[u64; 15]>) -> Result<(), AllocError>
    ensures { OnOk result (text.new.items ≡ text.old.items ++ long_line numbers) }
{
    match numbers {
        None => Ok(()),
        Some(numbers) => push_numbers(text, b"long returns", &numbers),
    }
}

// Adds the line of a VLR.
fn push_vlr(text: &mut Vec<u8>, head: &[u8], place: &VlrPlace) -> Result<(), AllocError>
    requires { place.now.start + 54 ≤ length head.now }
    ensures { OnOk result (text.new.items ≡ text.old.items ++ vlr_line head.now place.now) }
{
    let start = place.start as usize;
    let mut digits = [0; 32];
    let _ = hex::encode_to_slice(&head[start + 2..start + 18], &mut digits);
    let number = u16_at(head, start + 18);
    text.extend_from_slice(b"vlr ")?;
    text.extend_from_slice(&digits)?;
    push_number(text, u64::from(number))?;
    push_number(text, u64::from(place.length))?;
    text.extend_from_slice(b"\n")?;
    Ok(())
}

// Adds the lines of the VLRs.
fn push_vlrs(text: &mut Vec<u8>, head: &[u8], places: &[VlrPlace]) -> Result<(), AllocError>
    requires { All (λ place. place.start + 54 ≤ length head.now) places.now }
    ensures { OnOk result (text.new.items ≡ text.old.items ++ flat_map (vlr_line head.now) places.now) }
{
    for place in places {
        push_vlr(text, head, place)?;
    }
    Ok(())
}

// Adds the lines of the head.
fn push_head(
    text: &mut Vec<u8>,
    alloc: Global,
    head: &Head,
    chunk: Option<(u32, u32)>,
) -> Result<(), AllocError>
    ensures { OnOk result (text.new.items ≡ text.old.items ++ head_text head.now.bytes chunk) }
{
    let places = head.vlrs(alloc)?;
    push_front(text, head)?;
    push_vlrs(text, head.bytes(), &places)?;
    push_format(text, head)?;
    push_packed(text, chunk)?;
    push_returns(text, head)?;
    Ok(())
}

// Adds the lines of the ranges.
fn push_extents(text: &mut Vec<u8>, extents: Option<Extents>) -> Result<(), AllocError>
    ensures { OnOk result (text.new.items ≡ text.old.items ++ extents_text extents) }
{
    let Some(extents) = extents else {
        return Ok(());
    };
    push_range(text, b"raw x", extents.x)?;
    push_range(text, b"raw y", extents.y)?;
    push_range(text, b"raw z", extents.z)?;
    Ok(())
}

// Adds the lines of the records.
fn push_summary(text: &mut Vec<u8>, summary: &Summary) -> Result<(), AllocError>
    ensures { OnOk result (text.new.items ≡ text.old.items ++ summary_text summary.now) }
{
    let counts = summary.counts();
    push_counts(text, b"record returns", &counts.returns[..5])?;
    push_extents(text, summary.extents())?;
    Ok(())
}

// Adds the lines of bins with their counts.
fn push_bins(text: &mut Vec<u8>, rows: &[(u32, u64)]) -> Result<(), AllocError>
    ensures { OnOk result (text.new.items
        ≡ text.old.items ++ flat_map bin_line rows.now) }
{
    for (bin, count) in rows {
        push_bin(text, *bin, *count)?;
    }
    Ok(())
}

// The name of a tap.
fn name(tap: &Box<dyn Tap>) -> &str
    ensures { result.now ≡ (tap_seen tap.now).name }
{
    tap.named()
}

// The bins of a tap.
fn rows(tap: &Box<dyn Tap>) -> Result<Vec<(u32, u64)>, AllocError>
    ensures { IfOk result (λ rows. rows.items ≡ bins.entries (tap_seen tap.now).tally) }
{
    tap.rows()
}

// Adds the lines of a tap.
fn push_tap(text: &mut Vec<u8>, tap: &Box<dyn Tap>) -> Result<(), AllocError>
    ensures { OnOk result (text.new.items ≡ text.old.items ++ tally_text (tap_seen tap.now).name (tap_seen tap.now).tally) }
{
    let rows = rows(tap)?;
    push_text(text, b"tally", name(tap).as_bytes())?;
    push_bins(text, &rows)?;
    Ok(())
}

// Adds the lines of taps.
fn push_taps(text: &mut Vec<u8>, taps: &[Box<dyn Tap>]) -> Result<(), AllocError>
    ensures { OnOk result (text.new.items
        ≡ text.old.items ++ flat_map (λ tap. tally_text (tap_seen tap).name (tap_seen tap).tally) taps.now) }
{
    for tap in taps {
        push_tap(text, tap)?;
    }
    Ok(())
}

/// Why a report or the lines of taps were not put.
#[derive(Clone, Copy, Debug, PartialEq, Eq)]
pub enum ReportFault {
    /// The stream failed. A prefix of the text stands on it.
    Failed,
    /// Out of memory. Nothing was put.
    Memory,
}

impl From<AllocError> for ReportFault {
    ghost from_gives = { λ _ fault. fault ≡ Memory };

    fn from(_error: AllocError) -> ReportFault {
        ReportFault::Memory
    }
}

// The report as text.
fn text_of(
    alloc: Global,
    survey: &Survey,
    head: &Head,
    chunk: Option<(u32, u32)>,
) -> Result<Vec<u8>, AllocError>
    ensures { IfOk result (λ text. text.items ≡ report_text head.now.bytes chunk survey.now.summary
        (flat_map (λ tap. tally_text (tap_seen tap).name (tap_seen tap).tally) survey.now.taps.items)) }
{
    let mut text = Vec::new(alloc);
    push_head(&mut text, alloc, head, chunk)?;
    push_summary(&mut text, &survey.summary)?;
    push_taps(&mut text, &survey.taps)?;
    Ok(text)
}

// Puts a text by one call.
fn put_text<O: Sink>(text: &[u8], out: &mut O) -> Result<(), ReportFault>
    ensures put { OnOk result (O.seen out.new ≡ with_more (O.seen out.old) text.now) }
    ensures failed { IsErrOf result Failed
        → (n : ℕ) × (O.seen out.new ≡ with_fault (with_more (O.seen out.old) (take n text.now))) }
    ensures memory { IsErrOf result Memory → ⊥ }
    ensures later { PutLater (O.seen out.old) (O.seen out.new) }
{
    match out.put(text) {
        Ok(()) => Ok(()),
        Err(_) => Err(ReportFault::Failed),
    }
}

/// Puts the report of a file with this head, whose records the survey was shown, by one call: the head, the counts and
/// the ranges of the records, and each tap of the survey. `chunk` is the chunk size and the number of chunks of a
/// packed file, and `None` of a plain one.
pub fn report<O: Sink>(
    alloc: Global,
    survey: &Survey,
    head: &Head,
    chunk: Option<(u32, u32)>,
    out: &mut O,
) -> Result<(), ReportFault>
    ensures put { OnOk result (O.seen out.new ≡ with_more (O.seen out.old) (report_text head.now.bytes chunk
        survey.now.summary (flat_map (λ tap. tally_text (tap_seen tap).name (tap_seen tap).tally) survey.now.taps.items))) }
    ensures failed { IsErrOf result Failed → (n : ℕ) × (O.seen out.new ≡ with_fault (with_more (O.seen out.old)
        (take n (report_text head.now.bytes chunk survey.now.summary
        (flat_map (λ tap. tally_text (tap_seen tap).name (tap_seen tap).tally) survey.now.taps.items))))) }
    ensures memory { IsErrOf result Memory → O.seen out.new ≡ O.seen out.old }
    ensures later { PutLater (O.seen out.old) (O.seen out.new) }
{
    let text = text_of(alloc, survey, head, chunk)?;
    put_text(&text, out)
}

/// Puts the lines of taps by one call: of each in order its name, and its bins with their counts, as at the end of a
/// [`report`]. Without taps nothing is called.
pub fn tally_text<O: Sink>(
    alloc: Global,
    taps: &[Box<dyn Tap>],
    out: &mut O,
) -> Result<(), ReportFault>
    ensures put { OnOk result (O.seen out.new ≡ with_more (O.seen out.old)
        (flat_map (λ tap. tally_text (tap_seen tap).name (tap_seen tap).tally) taps.now)) }
    ensures failed { IsErrOf result Failed → (n : ℕ) × (O.seen out.new ≡ with_fault (with_more (O.seen out.old)
        (take n (flat_map (λ tap. tally_text (tap_seen tap).name (tap_seen tap).tally) taps.now)))) }
    ensures memory { IsErrOf result Memory → O.seen out.new ≡ O.seen out.old }
    ensures none { length taps.now ≡ 0 → IsOk result × (O.seen out.new ≡ O.seen out.old) }
    ensures later { PutLater (O.seen out.old) (O.seen out.new) }
{
    if taps.is_empty() {
        return Ok(());
    }
    let mut text = Vec::new(alloc);
    push_taps(&mut text, taps)?;
    put_text(&text, out)
}

//! A point written: the symbol of changes, the fields that it marks, and the place.
ghost use Rattle.std.specs.Prelude.{◌≡◌, ◌+◌, ◌<◌, ◌≤◌};
ghost use Rattle.laz_range.specs.Coding.{Codes};
ghost use Rattle.laz_integer.specs.Fields.{int_corrector};
ghost use Rattle.laz_integer.specs.Integer.{IsInts, int_cuts, int_next, int_width};
ghost use Rattle.laz_point10.specs.PointEvents.{bit_if_changed, changes_of, even_below, intensity_context};
ghost use Rattle.laz_point10.specs.Groups.{AreHeadModels, ArePlaceModels, AreScanModels, AreSurfaceModels, head_cuts};
ghost use Rattle.laz_point10.specs.Groups.{head_next, place_cuts, place_next, place_written, scan_cuts, scan_next};
ghost use Rattle.laz_point10.specs.Groups.{scan_written, surface_cuts, surface_next, surface_written};
ghost use Rattle.laz_point10.specs.Coded.{AreModels, IsHistory, choice_cuts, choice_next, choice_written};

use crate::history::{History, Predictions};
use crate::models::{HeadModels, Models, PlaceModels, ScanModels, SurfaceModels};
use crate::point::Point;
use crate::returns::{one_return, return_map};
use laz_integer::{IntModel, has_bit, put_byte, put_symbol_of, put_word};
use laz_range::Encoder;

// The bit of a field that differs from its prediction.
#[inline(always)]
fn bit_if_changed(bit: u32, predicted: u16, value: u16) -> u32
    ensures { result ≡ bit_if_changed bit predicted value }
{
    if value == predicted { 0 } else { bit }
}

// The symbol of changes of a point.
#[inline(always)]
#[tactic(auto, unfolding(crate::specs::PointEvents::changes_of))]
fn changes_of(e: &Predictions, p: &Point) -> u32
    ensures changes { result ≡ changes_of e.now p.now }
    ensures few { result < 64 }
{
    bit_if_changed(32, e.previous.flags as u16, p.flags as u16)
        + bit_if_changed(16, e.intensity, p.intensity)
        + bit_if_changed(8, e.previous.classification as u16, p.classification as u16)
        + bit_if_changed(4, e.previous.scan_angle as u16, p.scan_angle as u16)
        + bit_if_changed(2, e.previous.user_data as u16, p.user_data as u16)
        + bit_if_changed(1, e.previous.point_source, p.point_source)
}

// The context of the intensity, 0 to 3.
#[inline(always)]
pub fn intensity_context(flags: u8) -> u32
    ensures context { result ≡ intensity_context flags }
    ensures small { result < 4 }
{
    (return_map(flags) as u32).min(3)
}

// A width with bit 0 cleared, if it is below `most`; else `most`.
#[inline(always)]
#[tactic(auto, unfolding(crate::specs::PointEvents::even_below))]
pub fn even_below(most: u32, k: u32) -> u32
    ensures even { result ≡ even_below most k }
    ensures small { result ≤ most }
{
    if k < most { k - k % 2 } else { most }
}

// Codes the symbol of changes, and the flag byte.
#[inline(always)]
fn put_head(
    encoder: &mut Encoder,
    models: &mut HeadModels,
    previous: &Point,
    changes: u32,
    flags: u8,
)
    requires left { 6 ≤ encoder.old.left }
    requires models { AreHeadModels models.old }
    requires few { changes < 64 }
    ensures codes { Codes encoder.old encoder.new (head_cuts models.old previous.now (changes, flags)) }
    ensures next { models.new ≡ head_next models.old previous.now (changes, flags) }
    ensures models { AreHeadModels models.new }
    ensures used { encoder.old.left ≤ encoder.new.left + 6 }
{
    put_symbol_of(encoder, &mut models.changes, 0, changes);
    put_byte(
        encoder,
        &mut models.flags,
        has_bit(changes, 32),
        previous.flags as u32,
        flags,
    );
}

// Codes the intensity and the classification byte.
#[inline(always)]
fn put_surface(
    encoder: &mut Encoder,
    models: &mut SurfaceModels,
    e: &Predictions,
    changes: u32,
    p: &Point,
)
    requires left { 24 ≤ encoder.old.left }
    requires models { AreSurfaceModels models.old }
    ensures codes { Codes encoder.old encoder.new
        (surface_cuts models.old e.now changes p.now.flags (surface_written e.now p.now)) }
    ensures next { models.new ≡ surface_next models.old e.now changes p.now.flags (surface_written e.now p.now) }
    ensures models { AreSurfaceModels models.new }
    ensures used { encoder.old.left ≤ encoder.new.left + 12 }
{
    let context = intensity_context(p.flags);
    put_word(
        encoder,
        &mut models.intensity,
        has_bit(changes, 16),
        e.intensity,
        p.intensity,
        context,
    );
    let previous = e.previous.classification as u32;
    put_byte(
        encoder,
        &mut models.classifications,
        has_bit(changes, 8),
        previous,
        p.classification,
    );
}

// Codes the scan angle, the user data and the point source.
#[inline(always)]
fn put_scan(
    encoder: &mut Encoder,
    models: &mut ScanModels,
    e: &Predictions,
    changes: u32,
    p: &Point,
)
    requires left { 24 ≤ encoder.old.left }
    requires models { AreScanModels models.old }
    ensures codes { Codes encoder.old encoder.new
        (scan_cuts models.old e.now changes p.now.flags (scan_written e.now p.now)) }
    ensures next { models.new ≡ scan_next models.old e.now changes p.now.flags (scan_written e.now p.now) }
    ensures models { AreScanModels models.new }
    ensures used { encoder.old.left ≤ encoder.new.left + 15 }
{
    let turned = p.scan_angle.wrapping_sub(e.previous.scan_angle);
    put_byte(
        encoder,
        &mut models.angles,
        has_bit(changes, 4),
        (p.flags / 64 % 2) as u32,
        turned,
    );
    put_byte(
        encoder,
        &mut models.users,
        has_bit(changes, 2),
        e.previous.user_data as u32,
        p.user_data,
    );
    put_word(
        encoder,
        &mut models.source,
        has_bit(changes, 1),
        e.previous.point_source,
        p.point_source,
        0,
    );
}

// Codes a number of 32 bits, and answers the width of its corrector.
#[inline(always)]
fn put_int(encoder: &mut Encoder, model: &mut IntModel, pred: i32, real: i32, ctx: u32) -> u32
    requires ints { IsInts 32 model.old.contexts model.old }
    requires context { ctx < model.old.contexts }
    requires left { 12 ≤ encoder.old.left }
    ensures width { result ≡ int_width 32 pred real }
    ensures small { result ≤ 32 }
    ensures codes { let x = int_corrector 32 pred real in
        Codes encoder.old encoder.new (int_cuts model.old ctx x.0 x.1) }
    ensures next { let x = int_corrector 32 pred real in model.new ≡ int_next model.old ctx x.0 x.1 }
    ensures ints { IsInts 32 model.old.contexts model.new }
    ensures used { encoder.old.left ≤ encoder.new.left + 12 }
{
    model.code_of(32, encoder, pred, real, ctx)
}

// Codes dx, dy and z.
#[inline(always)]
fn put_place<M>(encoder: &mut Encoder, models: &mut PlaceModels, e: &Predictions, p: &Point)
    requires left { 36 ≤ encoder.old.left }
    requires models { ArePlaceModels models.old }
    ensures codes { Codes encoder.old encoder.new (place_cuts models.old p.now.flags (place_written e.now p.now)) }
    ensures next { models.new ≡ place_next models.old p.now.flags (place_written e.now p.now) }
    ensures models { ArePlaceModels models.new }
    ensures used { encoder.old.left ≤ encoder.new.left + 36 }
{
    let one = one_return(p.flags);
    let dx = p.x.wrapping_sub(e.previous.x);
    let kx = put_int(encoder, &mut models.dx, e.dx, dx, one);
    let dy = p.y.wrapping_sub(e.previous.y);
    let ky = put_int(encoder, &mut models.dy, e.dy, dy, one + even_below(20, kx));
    put_int(
        encoder,
        &mut models.z,
        e.z,
        p.z,
        one + even_below(18, (kx + ky) / 2),
    );
}

// Codes a point after others.
#[inline(always)]
pub fn put_point<M>(encoder: &mut Encoder, models: &mut Models, history: &History, p: &Point)
    requires left { 69 ≤ encoder.old.left }
    requires models { AreModels models.old }
    ensures codes { Codes encoder.old encoder.new
        (choice_cuts models.old history.now (choice_written history.now p.now)) }
    ensures next { models.new ≡ choice_next models.old history.now (choice_written history.now p.now) }
    ensures models { AreModels models.new }
    ensures bytes { IsHistory history.now }
    ensures used { encoder.old.left ≤ encoder.new.left + 69 }
{
    let e = history.predictions(p.flags);
    let changes = changes_of(&e, p);
    put_head(encoder, &mut models.head, &e.previous, changes, p.flags);
    put_surface(encoder, &mut models.surface, &e, changes, p);
    put_scan(encoder, &mut models.scan, &e, changes, p);
    put_place::<M>(encoder, &mut models.place, &e, p);
}

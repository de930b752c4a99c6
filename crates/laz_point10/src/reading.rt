//! A point read: the symbol of changes, the fields that it marks, and the place.
ghost use Rattle.std.specs.Prelude.{◌≡◌, ◌<◌, ◌≤◌, false, length, IfOk};
ghost use Rattle.laz_range.specs.Decoding.{Reads};
ghost use Rattle.laz_integer.specs.Bytes.{has_bit};
ghost use Rattle.laz_point10.specs.Groups.{AreHeadModels, ArePlaceModels, AreScanModels, AreSurfaceModels, IsHead};
ghost use Rattle.laz_point10.specs.Groups.{head_cuts, head_next};
ghost use Rattle.laz_point10.specs.Coded.{AreModels, IsHistory, ReadsPlace, ReadsPointAfter, ReadsScan, ReadsSurface};

use crate::history::{History, Predictions};
use crate::models::{HeadModels, Models, PlaceModels, ScanModels, SurfaceModels};
use crate::point::Point;
use crate::returns::one_return;
use crate::writing::{even_below, intensity_context};
use laz_integer::{has_bit, take_byte, take_frequent_symbol_of, take_word};
use laz_range::{Bad, Decoder};

// Takes the symbol of changes, and the flag byte.
#[inline(always)]
fn take_head(
    decoder: &mut Decoder<'_>,
    models: &mut HeadModels,
    previous: &Point,
) -> Result<(u32, u8), Bad>
    requires good { decoder.old.failed ≡ false }
    requires models { AreHeadModels models.old }
    ensures reads { Reads result (IsHead previous.now) (head_cuts models.old previous.now) decoder.old decoder.new }
    ensures next { IfOk result (λ x. models.new ≡ head_next models.old previous.now x) }
    ensures models { AreHeadModels models.new }
{
    let changes = take_frequent_symbol_of(decoder, &mut models.changes, 0)?;
    let marked = has_bit(changes, 32);
    let flags = take_byte(
        decoder,
        &mut models.flags,
        marked,
        previous.flags as u32,
        previous.flags,
    )?;
    Ok((changes, flags))
}

// Takes the intensity and the classification byte.
#[inline(always)]
fn take_surface(
    decoder: &mut Decoder<'_>,
    models: &mut SurfaceModels,
    e: &Predictions,
    changes: u32,
    flags: u8,
) -> Result<(u16, u8), Bad>
    requires good { decoder.old.failed ≡ false }
    requires within { decoder.old.taken ≤ length decoder.old.bytes }
    requires models { AreSurfaceModels models.old }
    ensures reads { ReadsSurface result e.now changes flags models.old decoder.old decoder.new models.new }
    ensures models { AreSurfaceModels models.new }
{
    let context = intensity_context(flags);
    let intensity = take_word(
        decoder,
        &mut models.intensity,
        has_bit(changes, 16),
        e.intensity,
        context,
    )?;
    let previous = e.previous.classification;
    let marked = has_bit(changes, 8);
    let classification = take_byte(
        decoder,
        &mut models.classifications,
        marked,
        previous as u32,
        previous,
    )?;
    Ok((intensity, classification))
}

// Takes the difference of the scan angle, the user data and the point source.
#[inline(always)]
fn take_scan(
    decoder: &mut Decoder<'_>,
    models: &mut ScanModels,
    e: &Predictions,
    changes: u32,
    flags: u8,
) -> Result<(u8, u8, u16), Bad>
    requires good { decoder.old.failed ≡ false }
    requires within { decoder.old.taken ≤ length decoder.old.bytes }
    requires models { AreScanModels models.old }
    ensures reads { ReadsScan result e.now changes flags models.old decoder.old decoder.new models.new }
    ensures models { AreScanModels models.new }
{
    let turned = take_byte(
        decoder,
        &mut models.angles,
        has_bit(changes, 4),
        (flags / 64 % 2) as u32,
        0,
    )?;
    let previous = e.previous.user_data;
    let user = take_byte(
        decoder,
        &mut models.users,
        has_bit(changes, 2),
        previous as u32,
        previous,
    )?;
    let source = take_word(
        decoder,
        &mut models.source,
        has_bit(changes, 1),
        e.previous.point_source,
        0,
    )?;
    Ok((turned, user, source))
}

// Takes dx, dy and z.
#[inline(always)]
fn take_place(
    decoder: &mut Decoder<'_>,
    models: &mut PlaceModels,
    e: &Predictions,
    flags: u8,
) -> Result<(i32, i32, i32), Bad>
    requires good { decoder.old.failed ≡ false }
    requires models { ArePlaceModels models.old }
    ensures reads { ReadsPlace result e.now flags models.old decoder.old decoder.new models.new }
    ensures models { ArePlaceModels models.new }
{
    let one = one_return(flags);
    let (dx, kx) = models.dx.read(decoder, e.dx, one)?;
    let (dy, ky) = models.dy.read(decoder, e.dy, one + even_below(20, kx))?;
    let (z, _) = models
        .z
        .read(decoder, e.z, one + even_below(18, (kx + ky) / 2))?;
    Ok((dx, dy, z))
}

// Takes a point after others.
// It is out of line, so that each part of a point is taken at one place of the program, and is inlined there.
#[inline(never)]
pub fn take_point(
    decoder: &mut Decoder<'_>,
    models: &mut Models,
    history: &History,
) -> Result<Point, Bad>
    requires good { decoder.old.failed ≡ false }
    requires models { AreModels models.old }
    ensures reads { ReadsPointAfter result history.now models.old decoder.old decoder.new models.new }
    ensures models { AreModels models.new }
    ensures bytes { IsHistory history.now }
{
    let last = history.last();
    let (changes, flags) = take_head(decoder, &mut models.head, &last)?;
    let e = history.predictions(flags);
    let (intensity, classification) = take_surface(
        decoder,
        &mut models.surface,
        &e,
        changes,
        flags,
    )?;
    let (turned, user_data, point_source) = take_scan(
        decoder,
        &mut models.scan,
        &e,
        changes,
        flags,
    )?;
    let (dx, dy, z) = take_place(decoder, &mut models.place, &e, flags)?;
    Ok(Point {
        x: e.previous.x.wrapping_add(dx),
        y: e.previous.y.wrapping_add(dy),
        z,
        intensity,
        flags,
        classification,
        scan_angle: e.previous.scan_angle.wrapping_add(turned),
        user_data,
        point_source,
    })
}

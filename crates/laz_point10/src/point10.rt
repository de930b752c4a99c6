//! The item POINT10.
ghost use Rattle.std.specs.Prelude.{◌≡◌, ◌+◌, ◌≤◌, [], ◌∷◌, length, false, OnOk};
ghost use Rattle.laz_point10.specs.Points.{point_at};
ghost use Rattle.laz_point10.specs.Items.{PointStands, CodesPoint, NoPointBegins, OnlyPointBegins, ReadsNextPoint};
ghost use Rattle.laz_point10.specs.Items.{StandsWithPoint};

use crate::history::History;
use crate::models::{Models, new_models, reset};
use crate::point::Point;
use crate::reading::take_point;
use crate::writing::put_point;
use laz_range::{Bad, Decoder, Encoder};
use std::alloc::{AllocError, Global};
use std::marker::Model;

/// Codes and reads the points of a chunk, the first 20 bytes of each record, as LASzip's POINT10, version 2.
///
/// After `start` the item stands for the chunk's first point, and each call adds one to those that it stands for. Only
/// `new` takes memory.
#[derive(Drop)]
pub struct Point10 {
    models: Models,
    history: History,
}

impl Model for Point10 {
    ghost use Rattle.laz_point10.specs.Items.{IsPointState, PointState};

    ghost Value = { PointState };

    ghost view = { λ p. record { models = p.models; history = p.history } };

    ghost invariant = { λ p. IsPointState (record { models = p.models; history = p.history }) };
}

impl Point10 {
    /// An item of no chunk yet: `start` begins one. `Err` means out of memory.
    pub fn new(alloc: Global) -> Result<Self, AllocError> {
        let models = new_models(alloc)?;
        let history = History::of(Point::of(&[0; 20]));
        Ok(Point10 { models, history })
    }

    /// Begins a chunk, whose first point is given. All models are initial again.
    pub fn start(&mut self, first: &[u8])
        requires { length first.now ≡ 20 }
        ensures { PointStands [] (point_at first.now ∷ []) self.new }
    {
        reset(&mut self.models);
        self.history = History::of(Point::of(first));
    }

    /// Codes a point.
    #[inline(always)]
    pub fn code(&mut self, encoder: &mut Encoder, part: &[u8])
        requires part { length part.now ≡ 20 }
        requires left { 69 ≤ encoder.old.left }
        ensures used { encoder.old.left ≤ encoder.new.left + 69 }
        ensures events { CodesPoint self.old (point_at part.now) encoder.old encoder.new }
        ensures stands { StandsWithPoint self.old (point_at part.now) self.new }
    {
        self.code_for::<()>(encoder, part);
    }

    /// The same as [`code`](Self::code), once in the program for each `M`: what a single loop calls is inlined into it.
    #[inline(always)]
    pub fn code_for<M>(&mut self, encoder: &mut Encoder, part: &[u8])
        requires part { length part.now ≡ 20 }
        requires left { 69 ≤ encoder.old.left }
        ensures used { encoder.old.left ≤ encoder.new.left + 69 }
        ensures events { CodesPoint self.old (point_at part.now) encoder.old encoder.new }
        ensures stands { StandsWithPoint self.old (point_at part.now) self.new }
    {
        let point = Point::of(part);
        put_point::<M>(encoder, &mut self.models, &self.history, &point);
        self.history.add(&point);
    }

    /// Reads a point. `Bad` means that no spelling of a point begins the rest of the bytes; the part is then
    /// unspecified,
    /// and the item serves again only after `start`.
    #[inline(always)]
    pub fn read(&mut self, decoder: &mut Decoder<'_>, part: &mut [u8]) -> Result<(), Bad>
        requires good { decoder.old.failed ≡ false }
        requires part { length part.old ≡ 20 }
        ensures part { length part.new ≡ 20 }
        ensures good { OnOk result (decoder.new.failed ≡ false) }
        ensures reads { ReadsNextPoint result self.old (point_at part.new) decoder.old decoder.new self.new }
        ensures only { OnlyPointBegins result self.old (point_at part.new) decoder.old }
        ensures none { NoPointBegins result self.old decoder.old }
    {
        let point = take_point(decoder, &mut self.models, &self.history)?;
        point.put(part);
        self.history.add(&point);
        Ok(())
    }
}

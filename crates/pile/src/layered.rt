//! A sheet with a layer over it.
ghost use Rattle.std.specs.Prelude.{◌≡◌, IfOk, IfErr};
ghost use Rattle.schema.specs.Sheets.{Entered};
ghost use Rattle.pile.specs.Plain.{shown_by};
ghost use Rattle.pile.specs.Layers.{LayerEntered};

use crate::layer::Layer;
use schema::faults::EnterFault;
use schema::row::Row;
use schema::sheet::Sheet;
use std::alloc::{AllocFailed, Global};

/// A sheet, and a layer over it.
#[derive(Drop)]
pub struct Layered<L, S> {
    /// The sheet below, which may be called while the layer lies above it.
    pub below: S,
    pub(crate) layer: L,
}

impl<L: Layer, S> Layered<L, S> {
    /// A new layer over a sheet; where there is no memory for it, the sheet comes back.
    pub fn new(heap: Global, below: S) -> Result<Layered<L, S>, AllocFailed<S>>
        ensures made { IfOk result (λ t. (t.below ≡ below) × L.Layer.is_new t.layer) }
        ensures refused { IfErr result (λ y. y.value ≡ below) }
    {
        let Ok(layer) = L::fresh(heap) else {
            return Err(AllocFailed { value: below });
        };
        Ok(Layered { below, layer })
    }
}

impl<L: Layer, S: Sheet> Sheet for Layered<L, S> {
    ghost shows = { λ t. shown_by (L.Layer.plain t.layer) (S.Sheet.shows t.below) };

    ghost bounded = { λ t. L.Layer.keeps t.layer (S.Sheet.shows t.below) (S.Sheet.bounded t.below) };

    fn classes(&self) -> u16 {
        self.below.classes()
    }

    fn arrows(&self) -> u16 {
        self.below.arrows()
    }

    fn capacity(&self) -> usize {
        self.layer.capacity(&self.below)
    }

    fn len(&self) -> usize {
        self.layer.len(&self.below)
    }

    fn row(&self, k: usize) -> Option<Row> {
        self.layer.row(&self.below, k)
    }

    fn enter(&mut self, row: Row) -> Result<(), EnterFault>
        ensures shown { Entered (shown_by (L.Layer.plain self.old.layer) (S.Sheet.shows self.old.below)) row result (shown_by (L.Layer.plain self.new.layer) (S.Sheet.shows self.new.below)) }
        ensures layer { LayerEntered (L.Layer.plain self.old.layer) (S.Sheet.shows self.old.below) row result (L.Layer.plain self.new.layer) }
        ensures below { self.new.below ≡ self.old.below }
    {
        self.layer.enter(&self.below, row)
    }
}

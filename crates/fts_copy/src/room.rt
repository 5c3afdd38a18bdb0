//! All memory that a copy uses: a buffer for what is read of the source, one for what is read back, and the order with its names.
//! Contracts see the order that was loaded, or none. Only `new` takes memory.
ghost use Rattle.std.specs.Prelude.{◌≡◌, Some, None, IfOk};

use crate::order::Loaded;
use crate::pieces::PIECE_BYTES;
use fts_tables::{FileRow, Memory};
use std::alloc::Global;
use std::marker::Model;

/// The room of a copy.
pub struct CopyRoom {
    pub(crate) order: Option<Loaded>,
    pub(crate) first: Vec<u8>,
    pub(crate) second: Vec<u8>,
}

impl Drop for CopyRoom {
    fn drop(self) {
        let CopyRoom {
            order: _,
            first: _,
            second: _,
        } = self;
    }
}

impl Model for CopyRoom {
    ghost use Rattle.std.specs.Prelude.{◌≡◌, Option, length};
    ghost use Rattle.fts_copy.specs.Copy.{Order};
    ghost use Rattle.fts_copy.specs.declared.pieces.TheConstants.{PIECE_BYTES as bytes_of_a_piece};

    ghost Value = { Option Order };

    ghost view = { λ r. r.order };

    ghost invariant = { λ r. (length r.first.items ≡ bytes_of_a_piece) × (length r.second.items ≡ bytes_of_a_piece) };
}

impl CopyRoom {
    ghost use Rattle.std.specs.Prelude.{◌≡◌, Some, None, IfOk};
    ghost use Rattle.fts_copy.specs.Copy.{order_of, StaysInside};

    /// Room with no order in it.
    pub fn new(alloc: Global) -> Result<CopyRoom, Memory>
        ensures { IfOk result (λ room. room ≡ None) }
    {
        let first = vec![in alloc; 0; PIECE_BYTES as usize]?;
        let second = vec![in alloc; 0; PIECE_BYTES as usize]?;
        Ok(CopyRoom {
            order: None,
            first,
            second,
        })
    }

    /// Loads what a file's row asks for. With `overwrite` what is at the destination may be replaced.
    pub fn load(&mut self, row: &FileRow, overwrite: bool)
        ensures order { self.new ≡ Some (order_of row.now overwrite) }
        ensures inside { StaysInside (order_of row.now overwrite) }
    {
        self.order = Some(Loaded::of(row, overwrite));
    }

    /// Takes an order that was loaded elsewhere.
    pub fn take(&mut self, order: Loaded)
        ensures { self.new ≡ Some order }
    {
        self.order = Some(order);
    }
}

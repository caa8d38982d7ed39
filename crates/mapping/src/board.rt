ghost use Rattle.std.specs.Prelude.{◌≡◌, ℕ, ◌<◌, List, Option, vec_len, MatchResult, ◌≢◌};
ghost use Rattle.mapping.specs.declared.leaf.Leaf.{Leaf};
ghost use Rattle.mapping.specs.Leaves.{Leaves, IsTable, Tells, Determines};

use crate::hardware::{Geometry, MappingHardware};
use blocks::refused::Refused;
use std::marker::PhantomData;

// How a board's table spells the leaves. A trait of its own, since a table is accepted by its length before there is a
// board, and one trait may not have both `ENTRIES` and `entries`.
pub trait Format: Geometry {
    // How many entries the table has.
    const ENTRIES: usize;

    // The number by which a table of another length is refused.
    const BAD_TABLE: u8;

    ghost ENTRIES: { ℕ };

    ghost BAD_TABLE: { ℕ };

    // Entry i of the table for the leaves.
    ghost entry: { Leaves → ℕ → ℕ };

    // Where the entries of a page of an object stand.
    ghost places: { ℕ → ℕ → List ℕ };

    // The leaf that a table's entries tell at a page of an object.
    ghost tell: { (ℕ → ℕ) → ℕ → ℕ → Option Leaf };

    ghost tells: { Tells Self.Geometry.sizes entry tell };

    ghost determines: { Determines Self.Geometry.sizes entry places };
}

// Hardware over a table in memory that its owner hands in and gets back. `make`, which takes the accepted table, is a
// function of each board: no `impl` is proved whose trait has a method that takes an `AcceptedTable<Self>`.
pub trait Board: Format + MappingHardware {
    // The entries of its table.
    ghost words: { Self → List ℕ };

    fn check(table: Vec<u64>) -> Result<AcceptedTable<Self>, Refused<Vec<u64>, BadTable<Self>>>
        ensures { MatchResult result (λ a. (a.table ≡ table) × (vec_len table ≡ Self.Format.ENTRIES)) (λ r. (r.given ≡ table) × (vec_len table ≢ Self.Format.ENTRIES)) }
    {
        if table.len() == Self::ENTRIES {
            Ok(AcceptedTable {
                table,
                of: PhantomData,
            })
        } else {
            Err(Refused {
                given: table,
                refusal: BadTable { of: PhantomData },
            })
        }
    }

    // The table: each entry is the one that the format gives for the leaves.
    fn entries(&self) -> &[u64]
        ensures words { result.now ≡ words self.now }
        ensures table { IsTable Self.Format.ENTRIES Self.Format.entry (Self.MappingHardware.at self.now) result.now };

    // Hands the table back, as `entries` tells it.
    fn into_parts(self) -> Vec<u64>
        ensures words { result.items ≡ words self }
        ensures table { IsTable Self.Format.ENTRIES Self.Format.entry (Self.MappingHardware.at self) result.items };
}

// A table of the right length for a board, still with what its owner left in it.
#[derive(Drop)]
pub struct AcceptedTable<B: Format> {
    pub(crate) table: Vec<u64>,
    of: PhantomData<B>,
    ghost long: { vec_len table ≡ B.ENTRIES },
}

// A table of another length than the board's.
#[derive(Drop)]
pub struct BadTable<B> {
    of: PhantomData<B>,
}

impl<B: Format> BadTable<B> {
    // A method of each error: see `BadBlock`.
    pub fn number(&self) -> u8
        ensures { result ≡ B.BAD_TABLE }
    {
        B::BAD_TABLE
    }
}

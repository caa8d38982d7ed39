ghost use Rattle.std.specs.Prelude.{◌≡◌, ◌≤◌, ◌<◌, ◌==◌, ◌↔◌, ◌++◌, ◌∷◌, [], length, IsOk, OnOk, OnErr, nat_le, slice_get, slice_set};
ghost use Rattle.std.specs.List.{list_any, position, remove, sum_by};
ghost use Rattle.reservations.specs.Reserved.{covers, meets, empty_frames};

use crate::reservation::Reservation;
use arrayvec::ArrayVec;
use blocks::block::ObjectBlock;
use blocks::number::ObjectPage;
use std::marker::Model;

// The table has no room for another reservation.
#[derive(Clone, Copy, PartialEq, Eq, Debug)]
pub struct FullTable;

// The reservations of a manager, oldest first, at most 64.
#[derive(Drop)]
pub struct Table {
    rows: ArrayVec<Reservation, { Table::CAPACITY }>,
}

// A clause sees the list of them.
impl Model for Table {
    ghost use Rattle.std.specs.Prelude.{List};
    ghost use Rattle.reservations.specs.declared.reservation.Reservation.{Reservation};

    ghost Value = { List Reservation };

    ghost view = { λ t. t.rows.items };
}

impl Table {
    pub const CAPACITY: usize = 64;

    pub fn new() -> Table
        ensures { result ≡ [] }
    {
        Table {
            rows: ArrayVec::new(),
        }
    }

    pub fn len(&self) -> usize
        ensures count { result ≡ length self.now }
        ensures few { length self.now ≤ 64 }
    {
        self.rows.len()
    }

    pub fn is_empty(&self) -> bool
        ensures { result ≡ (length self.now == 0) }
    {
        self.rows.is_empty()
    }

    pub fn is_full(&self) -> bool
        ensures { result ≡ nat_le 64 (length self.now) }
    {
        self.rows.is_full()
    }

    // The oldest reservation.
    pub fn oldest(&self) -> Option<Reservation>
        ensures { result ≡ slice_get self.now 0 }
    {
        self.rows.first().copied()
    }

    pub fn get(&self, place: usize) -> Option<Reservation>
        ensures { result ≡ slice_get self.now place }
    {
        self.rows.get(place).copied()
    }

    // The place of the reservation that covers a page.
    pub fn find(&self, page: ObjectPage) -> Option<usize>
        ensures { result ≡ position (λ r. covers r page.object page.number.0) self.now }
    {
        self.rows.iter().position(|row| row.covers(page))
    }

    // Whether a page of the block is reserved.
    pub fn meets(&self, block: ObjectBlock) -> bool
        ensures { result ≡ list_any (λ r. meets r block.object block.pages.block.first block.pages.block.order) self.now }
    {
        self.rows.iter().any(|row| row.meets(block))
    }

    // Adds the youngest.
    pub fn push(&mut self, reservation: Reservation) -> Result<(), FullTable>
        ensures room { IsOk result ↔ (length self.old < 64) }
        ensures ok { OnOk result (self.new ≡ self.old ++ reservation ∷ []) }
        ensures full { OnErr result (self.new ≡ self.old) }
    {
        self.rows.try_push(reservation).map_err(|_| FullTable)
    }

    // Puts a reservation in the place of another, which keeps its age.
    pub fn replace(&mut self, place: usize, reservation: Reservation)
        ensures { self.new ≡ slice_set self.old place reservation }
    {
        if let Some(row) = self.rows.get_mut(place) {
            *row = reservation;
        }
    }

    // Takes a reservation out; those younger move up.
    pub fn remove(&mut self, place: usize)
        ensures { self.new ≡ remove self.old place }
    {
        if place < self.rows.len() {
            self.rows.remove(place);
        }
    }

    // How many frames are held for pages that are absent.
    pub fn empty(&self) -> u16
        ensures { result ≡ sum_by empty_frames self.now }
    {
        self.rows.iter().map(|row| row.empty()).sum()
    }
}

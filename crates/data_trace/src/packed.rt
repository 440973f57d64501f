//! Next hops and marks in four bytes each.
ghost use Rattle.std.specs.Prelude.{◌≡◌, ℕ, ◌<◌, length, slice_set};
ghost use Rattle.data_trace.specs.declared.places.TheConstants.{PLACE_LIMIT};
ghost use Rattle.data_trace.specs.declared.places.Mark.TheVariants as AMark;
ghost use Rattle.data_trace.specs.declared.places.PlaceEnd.TheVariants as APlaceEnd;
ghost use Rattle.data_trace.specs.declared.places.PlaceHop.TheVariants as APlaceHop;
ghost use Rattle.data_trace.specs.Marks.{hop_at, mark_of};

use crate::places::{Mark, PlaceEnd, PlaceHop};
use std::marker::Model;

/// Where the AS at a place sends a packet, as a number. Contracts see the next hop.
#[derive(Clone, Copy)]
pub struct PackedHop {
    number: u32,
}

impl Model for PackedHop {
    ghost use Rattle.data_trace.specs.declared.places.PlaceHop.{PlaceHop};

    ghost Value = { PlaceHop };

    ghost use Rattle.data_trace.specs.Packed.{hop_of_number, number_of_hop, number_of_hop-hop_of_number};

    ghost view = { λ h. hop_of_number h.number };

    ghost inverse = { λ h. record { number = number_of_hop h } };

    ghost inverse_ok = { λ a h i. record { number = number_of_hop-hop_of_number a.number i } };
}

impl PackedHop {
    /// The next hop in four bytes.
    #[inline(always)]
    pub fn of(hop: PlaceHop) -> PackedHop
        requires { (y : ℕ) → hop ≡ APlaceHop.To y → y < PLACE_LIMIT }
        ensures { result ≡ hop }
    {
        match hop {
            PlaceHop::NoRoute => PackedHop { number: 0 },
            PlaceHop::Here => PackedHop { number: 1 },
            PlaceHop::To(place) => PackedHop { number: place + 2 },
        }
    }

    /// The next hop.
    #[inline(always)]
    pub fn get(self) -> PlaceHop
        ensures { result ≡ self }
    {
        match self.number {
            0 => PlaceHop::NoRoute,
            1 => PlaceHop::Here,
            number => PlaceHop::To(number - 2),
        }
    }
}

/// What is known of the end of a place, as a number. Contracts see the mark.
#[derive(Clone, Copy)]
pub struct PackedMark {
    number: u32,
}

impl Model for PackedMark {
    ghost use Rattle.data_trace.specs.declared.places.Mark.{Mark};

    ghost Value = { Mark };

    ghost use Rattle.data_trace.specs.Packed.{mark_of_number, number_of_mark, number_of_mark-mark_of_number};

    ghost view = { λ m. mark_of_number m.number };

    ghost inverse = { λ m. record { number = number_of_mark m } };

    ghost inverse_ok = { λ a h i. record { number = number_of_mark-mark_of_number a.number i } };
}

impl PackedMark {
    /// The mark in four bytes.
    #[inline(always)]
    pub fn of(mark: Mark) -> PackedMark
        requires { (y : ℕ) → mark ≡ AMark.Known (APlaceEnd.At y) → y < PLACE_LIMIT }
        ensures { result ≡ mark }
    {
        match mark {
            Mark::Unknown => PackedMark { number: 0 },
            Mark::Walked => PackedMark { number: 1 },
            Mark::Known(end) => match end {
                PlaceEnd::NoRoute => PackedMark { number: 2 },
                PlaceEnd::Loop => PackedMark { number: 3 },
                PlaceEnd::At(place) => PackedMark { number: place + 4 },
            },
        }
    }

    /// The mark.
    #[inline(always)]
    pub fn get(self) -> Mark
        ensures { result ≡ self }
    {
        match self.number {
            0 => Mark::Unknown,
            1 => Mark::Walked,
            2 => Mark::Known(PlaceEnd::NoRoute),
            3 => Mark::Known(PlaceEnd::Loop),
            number => Mark::Known(PlaceEnd::At(number - 4)),
        }
    }
}

/// Where a place sends.
#[inline(always)]
pub fn hop_in(hops: &[PackedHop], place: u32) -> PlaceHop
    requires { place < length hops.now }
    ensures { result ≡ hop_at hops.now place }
{
    let packed = hops[place as usize];
    packed.get()
}

/// What is known of the end of a place.
#[inline(always)]
pub fn mark_in(marks: &[PackedMark], place: u32) -> Mark
    requires { place < length marks.now }
    ensures { result ≡ mark_of marks.now place }
{
    let packed = marks[place as usize];
    packed.get()
}

/// Gives a place a next hop.
#[inline(always)]
pub fn put_hop(hops: &mut [PackedHop], place: u32, hop: PlaceHop)
    requires inside { place < length hops.old }
    requires fits { (y : ℕ) → hop ≡ APlaceHop.To y → y < PLACE_LIMIT }
    ensures { hops.new ≡ slice_set hops.old place hop }
{
    hops[place as usize] = PackedHop::of(hop);
}

/// Writes what is known of the end of a place.
#[inline(always)]
pub fn write_mark(marks: &mut [PackedMark], place: u32, mark: Mark)
    requires inside { place < length marks.old }
    requires fits { (y : ℕ) → mark ≡ AMark.Known (APlaceEnd.At y) → y < PLACE_LIMIT }
    ensures { marks.new ≡ slice_set marks.old place mark }
{
    marks[place as usize] = PackedMark::of(mark);
}

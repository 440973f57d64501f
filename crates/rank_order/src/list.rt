//! Ranks by place, beside their ASes in rising number.
ghost use Rattle.std.specs.Prelude.{◌≡◌, ◌<◌, ◌≤◌, ◌+◌, ℕ, true, false, length, None, Some, ◌==◌, if◌then◌else◌};
ghost use Rattle.std.specs.List.{insert};
ghost use Rattle.std.specs.List.Sorted.{IsStrictlyIncreasing};
ghost use Rattle.std.specs.FinMap as map;
ghost use Rattle.net_names.specs.Prelude.{occurs};
ghost use Rattle.rank_order.specs.Ranks.{rank_map};
ghost use Rattle.rank_order.specs.Lists.{spare_in};

use net_names::Asn;

// Puts an AS and its rank at a place, for which there is room.
fn insert_at(ases: &mut Vec<Asn>, ranks: &mut Vec<u32>, at: usize, asn: Asn, rank: u32)
    requires each { length ranks.old.items ≡ length ases.old.items }
    requires within { at ≤ length ases.old.items }
    requires room { 0 < spare_in ases.old ranks.old }
    ensures ases { ases.new.items ≡ insert ases.old.items at asn }
    ensures ranks { ranks.new.items ≡ insert ranks.old.items at rank }
    ensures spare { spare_in ases.old ranks.old ≤ spare_in ases.new ranks.new + 1 }
{
    match ases.insert(at, asn) {
        Ok(()) => {}
        Err(_) => unreachable!(),
    }
    match ranks.insert(at, rank) {
        Ok(()) => {}
        Err(_) => unreachable!(),
    }
}

/// Gives an AS a rank. One that is not there takes up room, of which there is enough.
pub fn put_in(ases: &mut Vec<Asn>, ranks: &mut Vec<u32>, asn: Asn, rank: u32)
    requires rising { IsStrictlyIncreasing ases.old.items }
    requires each { length ranks.old.items ≡ length ases.old.items }
    requires room { occurs asn ases.old.items ≡ false → 0 < spare_in ases.old ranks.old }
    ensures rising { IsStrictlyIncreasing ases.new.items }
    ensures each { length ranks.new.items ≡ length ases.new.items }
    ensures entries { (a : ℕ) → map.get (rank_map ases.new.items ranks.new.items) a ≡ (if asn == a
        then Some rank
        else map.get (rank_map ases.old.items ranks.old.items) a) }
    ensures spare { spare_in ases.old ranks.old ≤ spare_in ases.new ranks.new + 1 }
    ensures kept { occurs asn ases.old.items ≡ true → spare_in ases.old ranks.old ≤ spare_in ases.new ranks.new }
{
    match ases.binary_search(&asn) {
        Ok(at) => {
            ranks[at] = rank;
        }
        Err(at) => insert_at(ases, ranks, at, asn, rank),
    }
}

/// Takes an AS out, if it is there.
pub fn take_in(ases: &mut Vec<Asn>, ranks: &mut Vec<u32>, asn: Asn)
    requires rising { IsStrictlyIncreasing ases.old.items }
    requires each { length ranks.old.items ≡ length ases.old.items }
    ensures rising { IsStrictlyIncreasing ases.new.items }
    ensures each { length ranks.new.items ≡ length ases.new.items }
    ensures entries { (a : ℕ) → map.get (rank_map ases.new.items ranks.new.items) a ≡ (if asn == a
        then None
        else map.get (rank_map ases.old.items ranks.old.items) a) }
{
    match ases.binary_search(&asn) {
        Ok(at) => {
            let _asn = ases.remove(at);
            let _rank = ranks.remove(at);
        }
        Err(_) => {}
    }
}

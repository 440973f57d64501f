//! Places in the rising order of the ASes.
ghost use Rattle.std.specs.Prelude.{◌≡◌, ◌≢◌, ◌<◌, ◌≤◌, ◌+◌, ◌||◌, ◌==◌, ℕ, false, length, vec_len, vec_capacity};
ghost use Rattle.std.specs.List.Sorted.{IsStrictlyIncreasing};
ghost use Rattle.net_names.specs.Prelude.{occurs};
ghost use Rattle.as_graph.specs.Order.{IsStart};

use net_names::Asn;

/// The place where the numbers above the bound begin, in an order that rises.
pub fn start_above(order: &[Asn], bound: Option<Asn>) -> usize
    requires { IsStrictlyIncreasing order.now }
    ensures start { IsStart order.now bound result }
    ensures within { result ≤ length order.now }
{
    match bound {
        None => 0,
        Some(asn) => match order.binary_search(&asn) {
            Ok(at) => at + 1,
            Err(at) => at,
        },
    }
}

/// Puts a new number into its place, for which there is room.
pub fn put_in_order(order: &mut Vec<Asn>, asn: Asn)
    requires rising { IsStrictlyIncreasing order.old.items }
    requires new { occurs asn order.old.items ≡ false }
    requires room { vec_len order.old < vec_capacity order.old }
    ensures listed { (a : ℕ) → occurs a order.new.items ≡ (asn == a || occurs a order.old.items) }
    ensures rising { IsStrictlyIncreasing order.new.items }
    ensures len { length order.new.items ≡ length order.old.items + 1 }
    ensures places { vec_capacity order.new ≡ vec_capacity order.old }
{
    let at = start_above(order.as_slice(), Some(asn));
    match order.insert(at, asn) {
        Ok(()) => {}
        Err(_) => unreachable!(),
    }
}

// Whether the number is in the order.
fn is_listed(order: &[Asn], asn: Asn) -> bool
    requires { IsStrictlyIncreasing order.now }
    ensures { result ≡ occurs asn order.now }
{
    order.binary_search(&asn).is_ok()
}

/// Puts a number into its place, unless it is there. There is room for a new one.
pub fn list(order: &mut Vec<Asn>, asn: Asn)
    requires rising { IsStrictlyIncreasing order.old.items }
    requires room { occurs asn order.old.items ≡ false → vec_len order.old < vec_capacity order.old }
    ensures listed { (a : ℕ) → occurs a order.new.items ≡ (asn == a || occurs a order.old.items) }
    ensures rising { IsStrictlyIncreasing order.new.items }
    ensures len { length order.new.items ≤ length order.old.items + 1 }
    ensures places { vec_capacity order.new ≡ vec_capacity order.old }
{
    if !is_listed(order.as_slice(), asn) {
        put_in_order(order, asn);
    }
}

/// Takes a number out, if it is there.
pub fn unlist(order: &mut Vec<Asn>, asn: Asn)
    requires rising { IsStrictlyIncreasing order.old.items }
    ensures this { occurs asn order.new.items ≡ false }
    ensures others { (a : ℕ) → a ≢ asn → occurs a order.new.items ≡ occurs a order.old.items }
    ensures rising { IsStrictlyIncreasing order.new.items }
    ensures len { length order.new.items ≤ length order.old.items }
    ensures places { vec_capacity order.new ≡ vec_capacity order.old }
{
    match order.binary_search(&asn) {
        Ok(at) => {
            let _gone = order.remove(at);
        }
        Err(_) => {}
    }
}

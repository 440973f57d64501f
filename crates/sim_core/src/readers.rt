//! The ASes whose policy reads the states.
ghost use Rattle.std.specs.Prelude.{◌≡◌, ℕ, true, IfOk, OnOk};
ghost use Rattle.as_graph.specs.Prelude.{has};
ghost use Rattle.net_names.specs.Prelude.{occurs};
ghost use Rattle.policy_kinds.specs.Prelude.{kind_policy};
ghost use Rattle.stability_laws.specs.Prelude.{policy_at};

use as_graph::Graph;
use as_places::AsPlaces;
use net_names::{Asn, NoMemory};
use policy_kinds::Kind;
use policy_laws::RoutePolicy;
use stability_laws::Book;
use std::alloc::Global;

// Lists an AS, unless it is listed.
fn list_reader(readers: &mut AsPlaces, asn: Asn) -> Result<(), NoMemory>
    ensures this { OnOk result (occurs asn readers.new.ases ≡ true) }
    ensures more { (x : ℕ) → occurs x readers.old.ases ≡ true → occurs x readers.new.ases ≡ true }
{
    match readers.place(asn) {
        Some(_) => return Ok(()),
        None => {}
    }
    readers.room(1)?;
    let _place = readers.add(asn);
    Ok(())
}

/// Lists an AS if this is a policy that reads the states.
pub fn list_if_reads(readers: &mut AsPlaces, asn: Asn, kind: Kind) -> Result<(), NoMemory>
    ensures this { OnOk result ((kind_policy kind).reads_state ≡ true → occurs asn readers.new.ases ≡ true) }
    ensures more { (x : ℕ) → occurs x readers.old.ases ≡ true → occurs x readers.new.ases ≡ true }
{
    if !kind.reads_state() {
        return Ok(());
    }
    list_reader(readers, asn)
}

/// All ASes of the graph whose policy reads the states.
pub fn readers_of(alloc: Global, graph: &Graph, book: &Book<Kind>) -> Result<AsPlaces, NoMemory>
    ensures { IfOk result (λ r. (a : ℕ) → has graph.now a ≡ true →
        (kind_policy (policy_at book.now a)).reads_state ≡ true → occurs a r.ases ≡ true) }
{
    let mut readers = AsPlaces::new(alloc);
    for asn in graph.ases() {
        list_if_reads(&mut readers, *asn, *book.policy(*asn))?;
    }
    Ok(readers)
}

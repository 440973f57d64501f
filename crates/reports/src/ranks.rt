//! The ranks of all ASes.
ghost use Rattle.std.specs.Prelude.{◌≡◌, ◌++◌, ◌∷◌, [], OnOk, OnErr, decimal};
ghost use Rattle.rank_order.specs.Prelude.{rank_at};
ghost use Rattle.reports.specs.Growth.{Grows};
ghost use Rattle.stability_laws.specs.Prelude.{row};
ghost use Rattle.reports.specs.Rows.{table as table_of};

use crate::whole::or_cut;
use as_graph::Graph;
use net_names::{Asn, NoMemory, put_asn, put_bytes, put_number};
use rank_order::Ranks;

// Appends the row of an AS.
fn append_rank(out: &mut Vec<u8>, asn: Asn, rank: u32) -> Result<(), NoMemory>
    ensures ok { OnOk result (out.new.items ≡ out.old.items ++ row (decimal asn ∷ decimal rank ∷ [])) }
    ensures err { OnErr result (Grows out.old.items out.new.items) }
{
    put_asn(out, asn)?;
    put_bytes(out, b"|")?;
    put_number(out, u64::from(rank))?;
    put_bytes(out, b"\n")
}

/// Appends the ranks of a graph's ASes: for each AS, in rising number, a row with the AS, `|` and its
/// rank. Where memory runs out, nothing changes. The format is this project's own.
pub fn put_ranks(out: &mut Vec<u8>, graph: &Graph, ranks: &Ranks) -> Result<(), NoMemory>
    ensures ok { OnOk result (out.new.items ≡ out.old.items ++
        table_of graph.now (λ a. row (decimal a ∷ decimal (rank_at ranks.now a) ∷ []))) }
    ensures err { OnErr result (out.new.items ≡ out.old.items) }
{
    let kept = out.len();
    let ases = graph.ases();
    for (place, asn) in ases.iter().enumerate() {
        let appended = append_rank(out, *asn, ranks.rank_near(*asn, place));
        or_cut(out, kept, appended)?;
    }
    Ok(())
}

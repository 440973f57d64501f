//! The table of a routing.
ghost use Rattle.std.specs.Prelude.{◌≡◌, ◌++◌, ◌∷◌, [], OnOk, OnErr, Some, codes, option_map, decimal};
ghost use Rattle.std.specs.Option.{option_map_or};
ghost use Rattle.path_pool.specs.Pool.{IsLive, list_of};
ghost use Rattle.route_choice.specs.Prelude.{AreEntriesLive, entry_of, table_routing};
ghost use Rattle.reports.specs.Growth.{Grows};
ghost use Rattle.reports.specs.Held.{IsHeldLive};
ghost use Rattle.net_names.specs.Prelude.{class_word, numbers_text};
ghost use Rattle.stability_laws.specs.Prelude.{entry_text, entry_row};
ghost use Rattle.reports.specs.Rows.{more_numbers, table as table_of};

use crate::whole::or_cut;
use as_graph::Graph;
use net_names::{Asn, Class, NoMemory, put_asn, put_bytes};
use path_pool::{PathId, PathPool};
use route_choice::{Held, Table};

// The word for a class.
fn class_name(class: Class) -> &'static str
    ensures { result.now ≡ class_word class }
{
    match class {
        Class::Origin => "origin",
        Class::Customer => "customer",
        Class::Peer => "peer",
        Class::Provider => "provider",
    }
}

// Appends the number of an AS, as its row begins.
pub(crate) fn begin_row(out: &mut Vec<u8>, asn: Asn) -> Result<(), NoMemory>
    ensures ok { OnOk result (out.new.items ≡ out.old.items ++ (decimal asn ++ 124 ∷ [])) }
    ensures err { OnErr result (Grows out.old.items out.new.items) }
{
    put_asn(out, asn)?;
    put_bytes(out, b"|")
}

// Appends the word for a class, as what a row says of an entry begins.
pub(crate) fn begin_entry(out: &mut Vec<u8>, class: Class) -> Result<(), NoMemory>
    ensures ok { OnOk result (out.new.items ≡ out.old.items ++ (class_word class ++ 124 ∷ [])) }
    ensures err { OnErr result (Grows out.old.items out.new.items) }
{
    put_bytes(out, class_name(class).as_bytes())?;
    put_bytes(out, b"|")
}

// Appends each number after a space.
fn append_more_numbers(out: &mut Vec<u8>, numbers: &[Asn]) -> Result<(), NoMemory>
    ensures ok { OnOk result (out.new.items ≡ out.old.items ++ more_numbers numbers.now) }
    ensures err { OnErr result (Grows out.old.items out.new.items) }
{
    for number in numbers {
        put_bytes(out, b" ")?;
        put_asn(out, *number)?;
    }
    Ok(())
}

// Appends the numbers with one space between.
pub(crate) fn append_numbers(out: &mut Vec<u8>, numbers: &[Asn]) -> Result<(), NoMemory>
    ensures ok { OnOk result (out.new.items ≡ out.old.items ++ numbers_text numbers.now) }
    ensures err { OnErr result (Grows out.old.items out.new.items) }
{
    match numbers {
        [] => Ok(()),
        [first, rest @ ..] => {
            put_asn(out, *first)?;
            append_more_numbers(out, rest)
        }
    }
}

/// Appends the numbers of a list of ASes with one space between. Where memory runs out, nothing changes.
pub fn put_numbers(out: &mut Vec<u8>, numbers: &[Asn]) -> Result<(), NoMemory>
    ensures ok { OnOk result (out.new.items ≡ out.old.items ++ numbers_text numbers.now) }
    ensures err { OnErr result (out.new.items ≡ out.old.items) }
{
    let kept = out.len();
    let appended = append_numbers(out, numbers);
    or_cut(out, kept, appended)
}

// Appends a space and a number.
fn append_number(out: &mut Vec<u8>, number: Asn) -> Result<(), NoMemory>
    ensures ok { OnOk result (out.new.items ≡ out.old.items ++ (32 ∷ decimal number)) }
    ensures err { OnErr result (Grows out.old.items out.new.items) }
{
    put_bytes(out, b" ")?;
    put_asn(out, number)?;
    Ok(())
}

// Appends the numbers of a path with one space between, along its cells.
fn append_path(out: &mut Vec<u8>, pool: &PathPool, path: PathId) -> Result<(), NoMemory>
    requires { IsLive pool.now path.0 }
    ensures ok { OnOk result (out.new.items ≡ out.old.items ++ numbers_text (list_of pool.now path.0)) }
    ensures err { OnErr result (Grows out.old.items out.new.items) }
{
    put_asn(out, pool.head(path))?;
    let mut at = path;
    let mut left = pool.length(path);
    'cells: while left > 1 {
        let Some(next) = pool.tail(at) else {
            unreachable!();
        };
        append_number(out, pool.head(next))?;
        at = next;
        left -= 1;
    }
    Ok(())
}

// Appends the number of an entry, if it has one.
pub(crate) fn append_otc(out: &mut Vec<u8>, otc: Option<Asn>) -> Result<(), NoMemory>
    ensures ok { OnOk result (out.new.items ≡ out.old.items ++ option_map_or (λ n. codes "|otc " ++ decimal n) otc []) }
    ensures err { OnErr result (Grows out.old.items out.new.items) }
{
    match otc {
        None => Ok(()),
        Some(number) => {
            put_bytes(out, b"|otc ")?;
            put_asn(out, number)?;
            Ok(())
        }
    }
}

// Appends what a row says of an entry.
fn append_held(out: &mut Vec<u8>, pool: &PathPool, held: Held) -> Result<(), NoMemory>
    requires { IsLive pool.now held.path.0 }
    ensures ok { OnOk result (out.new.items ≡ out.old.items ++ entry_text (Some (entry_of pool.now held))) }
    ensures err { OnErr result (Grows out.old.items out.new.items) }
{
    begin_entry(out, held.class)?;
    append_path(out, pool, held.path)?;
    append_otc(out, held.otc)
}

// Appends what a row says of an entry, or of none.
fn append_entry(out: &mut Vec<u8>, pool: &PathPool, held: Option<Held>) -> Result<(), NoMemory>
    requires { IsHeldLive pool.now held }
    ensures ok { OnOk result (out.new.items ≡ out.old.items ++ entry_text (option_map (entry_of pool.now) held)) }
    ensures err { OnErr result (Grows out.old.items out.new.items) }
{
    match held {
        None => put_bytes(out, b"none|"),
        Some(held) => append_held(out, pool, held),
    }
}

// Appends the row of an AS.
fn append_row(
    out: &mut Vec<u8>,
    pool: &PathPool,
    asn: Asn,
    held: Option<Held>,
) -> Result<(), NoMemory>
    requires { IsHeldLive pool.now held }
    ensures ok { OnOk result (out.new.items ≡ out.old.items ++ entry_row asn (option_map (entry_of pool.now) held)) }
    ensures err { OnErr result (Grows out.old.items out.new.items) }
{
    begin_row(out, asn)?;
    append_entry(out, pool, held)?;
    put_bytes(out, b"\n")
}

/// Appends the table of a routing: for each AS of the graph, in rising number, a row with the AS,
/// `|`, the class word, `|` and the numbers of the path with one space between; `none` and `|`
/// where the AS has no entry. A number of RFC 9234 stands at the end of its row after `|otc `.
/// Where memory runs out, nothing changes. The format is this project's own.
pub fn put_routes(
    out: &mut Vec<u8>,
    graph: &Graph,
    table: &Table,
    pool: &PathPool,
) -> Result<(), NoMemory>
    requires { AreEntriesLive pool.now table.now }
    ensures ok { OnOk result (out.new.items ≡ out.old.items ++
        table_of graph.now (λ a. entry_row a (table_routing pool.now table.now a))) }
    ensures err { OnErr result (out.new.items ≡ out.old.items) }
{
    let kept = out.len();
    let ases = graph.ases();
    for (place, asn) in ases.iter().enumerate() {
        let appended = append_row(out, pool, *asn, table.get_near(*asn, place));
        or_cut(out, kept, appended)?;
    }
    Ok(())
}

/// Appends the row of one AS, as it stands in the table. Where memory runs out, nothing changes.
pub fn put_route(
    out: &mut Vec<u8>,
    table: &Table,
    pool: &PathPool,
    asn: Asn,
) -> Result<(), NoMemory>
    requires { AreEntriesLive pool.now table.now }
    ensures ok { OnOk result (out.new.items ≡ out.old.items ++ entry_row asn (table_routing pool.now table.now asn)) }
    ensures err { OnErr result (out.new.items ≡ out.old.items) }
{
    let kept = out.len();
    let appended = append_row(out, pool, asn, table.get(asn));
    or_cut(out, kept, appended)
}

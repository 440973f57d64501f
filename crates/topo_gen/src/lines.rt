//! The lines of a generated input.
ghost use Rattle.std.specs.Prelude.{◌≡◌, ◌<◌, ◌≤◌, ◌++◌, ◌∷◌, [], ◌+◌, ◌*◌, ◌%◌, slice_get, option_map, IfOk, IfSome, OnOk};
ghost use Rattle.net_names.specs.Prelude.{entry_of};
ghost use Rattle.std.specs.FinMap as map;
ghost use Rattle.std.specs.List.{flat_map, range_with_len};
ghost use Rattle.scenario_text.specs.declared.acts.Act.TheVariants.{Query as AQuery};
ghost use Rattle.scenario_text.specs.declared.acts.Query.TheVariants.{Report as AReport};
ghost use Rattle.topo_gen.specs.Lines.{rejoined, edits_at, drawn_lines};

use crate::scenario::{high_addr, low_addr};
use net_names::{Addr, Link, Links, NoMemory};
use scenario_text::{Act, Edit, Line, Lines, Query};
use std::alloc::Global;

// Asks for a report.
fn push_report(lines: &mut Lines, number: u32, round: u32, addr: Addr) -> Result<(), NoMemory>
    ensures { OnOk result
        (lines.new ≡ lines.old ++ record { number = number; act = AQuery (AReport round addr) } ∷ []) }
{
    lines.push(Line {
        number,
        act: Act::Query(Query::Report { round, addr }),
    })
}

// The link at every 37th place, round and round.
fn link_at(links: &Links, i: u32) -> Option<Link>
    requires { i ≤ 10 }
    ensures link { option_map entry_of result ≡ slice_get (map.entries links.now) (37 * i % map.len links.now) }
    ensures ends { IfSome result (λ l. l.lo < l.hi) }
{
    let count = links.len();
    if count == 0 {
        return None;
    }
    links.at(37 * i as usize % count)
}

// Cuts a link and joins it again.
fn push_edits(lines: &mut Lines, number: u32, link: Link) -> Result<(), NoMemory>
    requires small { number ≤ 100 }
    requires ends { link.lo < link.hi }
    ensures { OnOk result (lines.new ≡ lines.old ++ rejoined number (entry_of link)) }
{
    let (a, b) = (link.lo, link.hi);
    lines.push(Line {
        number,
        act: Act::Edit(Edit::Unlink { a, b }),
    })?;
    lines.push(Line {
        number: number + 1,
        act: Act::Edit(Edit::Link {
            a,
            b,
            rel: link.rel,
        }),
    })
}

// Cuts the link at one of those places and joins it again.
fn push_edits_at(lines: &mut Lines, links: &Links, i: u32) -> Result<(), NoMemory>
    requires { i ≤ 10 }
    ensures { OnOk result (lines.new ≡ lines.old ++ edits_at links.now i) }
{
    match link_at(links, i) {
        Some(link) => push_edits(lines, 5 + 2 * i, link),
        None => Ok(()),
    }
}

// Cuts ten links and joins each again.
fn push_all_edits(lines: &mut Lines, links: &Links) -> Result<(), NoMemory>
    ensures { OnOk result (lines.new ≡ lines.old ++ flat_map (edits_at links.now) (range_with_len 0 10)) }
{
    'edits: for i in 0..10 {
        push_edits_at(lines, links, i)?;
    }
    Ok(())
}

/// The lines of a generated input with these links.
pub fn generate_lines(alloc: Global, links: &Links) -> Result<Lines, NoMemory>
    ensures { IfOk result (λ lines. lines ≡ drawn_lines links.now) }
{
    let mut lines = Lines::new(alloc);
    push_report(&mut lines, 1, 1, low_addr())?;
    push_report(&mut lines, 2, 1, high_addr())?;
    push_report(&mut lines, 3, 2, low_addr())?;
    push_report(&mut lines, 4, 2, high_addr())?;
    push_all_edits(&mut lines, links)?;
    push_report(&mut lines, 25, 2, low_addr())?;
    Ok(lines)
}

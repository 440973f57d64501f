//! The counts of a watched address.
ghost use Rattle.std.specs.Prelude.{◌≡◌, ◌==◌, ◌++◌, ◌∷◌, [], OnOk, OnErr, codes, decimal, if◌then◌else◌};
ghost use Rattle.std.specs.List.{flat_map};
ghost use Rattle.stability_laws.specs.Prelude.{announcers_of};
ghost use Rattle.data_trace.specs.Prelude.{rows_of};
ghost use Rattle.reports.specs.Growth.{Grows};
ghost use Rattle.reports.specs.Counts.{count_row, group_text, report_text};
ghost use Rattle.reports.specs.Groups.{delivered_text, group_count, group_size, printed_text};

use crate::group::Group;
use crate::whole::or_cut;
use data_trace::{End, Watch};
use net_names::{Asn, NoMemory, put_asn, put_bytes, put_number};
use policy_kinds::Kind;
use stability_laws::SeedPlan;

// All groups, in their order.
const GROUPS: [Group; 8] = [
    Group::Total,
    Group::Stub,
    Group::Of(Kind::Plain),
    Group::Of(Kind::DropInvalid),
    Group::Of(Kind::PreferValid),
    Group::Of(Kind::ProviderFirst),
    Group::Of(Kind::Otc),
    Group::Of(Kind::DropInvalidOtc),
];

// Appends a count between `|` and a line feed.
fn append_count(out: &mut Vec<u8>, count: u64) -> Result<(), NoMemory>
    ensures ok { OnOk result (out.new.items ≡ out.old.items ++ (124 ∷ (decimal count ++ 10 ∷ []))) }
    ensures err { OnErr result (Grows out.old.items out.new.items) }
{
    put_bytes(out, b"|")?;
    put_number(out, count)?;
    put_bytes(out, b"\n")
}

// Appends a row of a group.
fn append_row(out: &mut Vec<u8>, group: Group, what: &[u8], count: u64) -> Result<(), NoMemory>
    ensures ok { OnOk result (out.new.items ≡ out.old.items ++ count_row group what.now count) }
    ensures err { OnErr result (Grows out.old.items out.new.items) }
{
    group.put_name(out)?;
    put_bytes(out, b"|")?;
    put_bytes(out, what)?;
    append_count(out, count)
}

// Appends the row of an AS at which packets of a group are delivered, if some are.
fn append_some(out: &mut Vec<u8>, group: Group, asn: Asn, count: u64) -> Result<(), NoMemory>
    ensures ok { OnOk result (out.new.items ≡ out.old.items ++
        (if count == 0 then [] else count_row group (codes "to " ++ decimal asn) count)) }
    ensures err { OnErr result (Grows out.old.items out.new.items) }
{
    if count == 0 {
        return Ok(());
    }
    group.put_name(out)?;
    put_bytes(out, b"|to ")?;
    put_asn(out, asn)?;
    append_count(out, count)
}

// Appends the row of an AS at which packets of a group are delivered, if some are, by a watch.
#[tactic(auto, unfolding(crate::specs::Groups::delivered_text))]
fn append_delivered(
    out: &mut Vec<u8>,
    watch: &Watch,
    group: Group,
    asn: Asn,
) -> Result<(), NoMemory>
    ensures ok { OnOk result (out.new.items ≡ out.old.items ++
        delivered_text (group_count (rows_of watch.now)) group asn) }
    ensures err { OnErr result (Grows out.old.items out.new.items) }
{
    append_some(out, group, asn, watch.count(group.which(), End::At(asn)))
}

// Appends the rows of the ASes at which packets of a group are delivered.
fn append_all_delivered(
    out: &mut Vec<u8>,
    announcers: &[Asn],
    watch: &Watch,
    group: Group,
) -> Result<(), NoMemory>
    ensures ok { OnOk result (out.new.items ≡ out.old.items ++
        flat_map (delivered_text (group_count (rows_of watch.now)) group) announcers.now) }
    ensures err { OnErr result (Grows out.old.items out.new.items) }
{
    for asn in announcers {
        append_delivered(out, watch, group, *asn)?;
    }
    Ok(())
}

// Appends the row of the number of a group's ASes.
fn append_size(out: &mut Vec<u8>, watch: &Watch, group: Group) -> Result<(), NoMemory>
    ensures ok { OnOk result (out.new.items ≡ out.old.items ++
        count_row group (codes "ases") (group_size (rows_of watch.now) group)) }
    ensures err { OnErr result (Grows out.old.items out.new.items) }
{
    append_row(out, group, b"ases", watch.ases(group.which()))
}

// Appends the row of an end.
fn append_end(
    out: &mut Vec<u8>,
    watch: &Watch,
    group: Group,
    what: &[u8],
    end: End,
) -> Result<(), NoMemory>
    ensures ok { OnOk result (out.new.items ≡ out.old.items ++
        count_row group what.now (group_count (rows_of watch.now) group end)) }
    ensures err { OnErr result (Grows out.old.items out.new.items) }
{
    append_row(out, group, what, watch.count(group.which(), end))
}

// Appends the rows of a group.
#[tactic(auto, unfolding(crate::specs::Counts::group_text, crate::specs::Groups::delivered_text))]
fn append_rows(
    out: &mut Vec<u8>,
    announcers: &[Asn],
    watch: &Watch,
    group: Group,
) -> Result<(), NoMemory>
    ensures ok { OnOk result (out.new.items ≡ out.old.items ++
        group_text (group_size (rows_of watch.now)) (group_count (rows_of watch.now)) announcers.now group) }
    ensures err { OnErr result (Grows out.old.items out.new.items) }
{
    append_size(out, watch, group)?;
    append_all_delivered(out, announcers, watch, group)?;
    append_end(out, watch, group, b"no-route", End::NoRoute)?;
    append_end(out, watch, group, b"loop", End::Loop)
}

// Appends the rows of a group, if it is printed.
fn append_group(
    out: &mut Vec<u8>,
    announcers: &[Asn],
    watch: &Watch,
    group: Group,
) -> Result<(), NoMemory>
    ensures ok { OnOk result (out.new.items ≡ out.old.items ++ printed_text (rows_of watch.now) announcers.now group) }
    ensures err { OnErr result (Grows out.old.items out.new.items) }
{
    if !group.is_printed(watch) {
        return Ok(());
    }
    append_rows(out, announcers, watch, group)
}

// Appends the rows of the groups, one group after the other.
fn append_groups(
    out: &mut Vec<u8>,
    announcers: &[Asn],
    watch: &Watch,
    groups: &[Group],
) -> Result<(), NoMemory>
    ensures ok { OnOk result (out.new.items ≡ out.old.items ++
        flat_map (printed_text (rows_of watch.now) announcers.now) groups.now) }
    ensures err { OnErr result (Grows out.old.items out.new.items) }
{
    for group in groups {
        append_group(out, announcers, watch, *group)?;
    }
    Ok(())
}

/// Appends the counts of a watch. The groups are `total`, which has all ASes, `stub`, which has those
/// without customers, and then each kind of policy that some AS has, under its name. A group G has the
/// row `G|ases|` with the number of its ASes; `G|to A|`, for each announcing AS A in rising number at
/// which packets of the group are delivered, with the number of ASes that they come from; `G|no-route|`
/// and `G|loop|` with the number of ASes whose packets end so. Where memory runs out, nothing changes.
/// The format is this project's own.
#[tactic(auto, unfolding(crate::specs::Counts::report_text))]
pub fn put_report(out: &mut Vec<u8>, plan: &SeedPlan, watch: &Watch) -> Result<(), NoMemory>
    ensures ok { OnOk result (out.new.items ≡ out.old.items ++
        report_text (group_size (rows_of watch.now)) (group_count (rows_of watch.now)) (announcers_of plan.now)) }
    ensures err { OnErr result (out.new.items ≡ out.old.items) }
{
    let kept = out.len();
    let appended = append_groups(out, plan.announcers(), watch, &GROUPS);
    or_cut(out, kept, appended)
}

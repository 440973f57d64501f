//! The texts of refused queries, and of edits.
ghost use Rattle.std.specs.Prelude.{◌≡◌, ◌≢◌, ◌++◌, [], ◌∷◌, OnOk, codes, decimal};
ghost use Rattle.sim_core.specs.declared.errors.QueryError.TheVariants.{NotWatched, UnknownAs, UnknownPrefix, UnknownRound};
ghost use Rattle.sim_core.specs.declared.errors.EditError.TheVariants.{AbsentAnnouncement, AbsentLink, AbsentVrp, Limit, Memory, ProviderCycle};
ghost use Rattle.sim_core.specs.declared.errors.EditLimit.TheVariants.{Announcements, Ases, Links, Vrps};
ghost use Rattle.asprop_run.specs.Refusals.{edit_refusal, refusal_text};

use cycle_check::Cycle;
use net_names::{
    Addr, Asn, NoMemory, Prefix, Vrp, put_addr, put_asn, put_bytes, put_number, put_prefix,
};
use reports::put_numbers;
use sim_core::{EditError, EditLimit, QueryError};

// The world has no such round.
fn put_unknown_round(out: &mut Vec<u8>, round: u32) -> Result<(), NoMemory>
    ensures { OnOk result (out.new.items ≡ out.old.items ++ refusal_text (UnknownRound round)) }
{
    let alloc = *out.allocator();
    let text = format!(in alloc; "refused unknown-round {round}\n")?;
    put_bytes(out, text.as_bytes())
}

// The world has no such prefix.
fn put_unknown_prefix(out: &mut Vec<u8>, prefix: Prefix) -> Result<(), NoMemory>
    ensures { OnOk result (out.new.items ≡ out.old.items ++ refusal_text (UnknownPrefix prefix)) }
{
    put_bytes(out, b"refused unknown-prefix ")?;
    put_prefix(out, prefix)?;
    put_bytes(out, b"\n")
}

// The world has no such AS.
fn put_unknown_as(out: &mut Vec<u8>, asn: Asn) -> Result<(), NoMemory>
    ensures { OnOk result (out.new.items ≡ out.old.items ++ refusal_text (UnknownAs asn)) }
{
    put_bytes(out, b"refused unknown-as ")?;
    put_asn(out, asn)?;
    put_bytes(out, b"\n")
}

// The address is not watched.
fn put_not_watched(out: &mut Vec<u8>, addr: Addr) -> Result<(), NoMemory>
    ensures { OnOk result (out.new.items ≡ out.old.items ++ refusal_text (NotWatched addr)) }
{
    put_bytes(out, b"refused not-watched ")?;
    put_addr(out, addr)?;
    put_bytes(out, b"\n")
}

/// Appends what a refused query is told.
pub fn put_refusal(out: &mut Vec<u8>, error: QueryError) -> Result<(), NoMemory>
    ensures { OnOk result (out.new.items ≡ out.old.items ++ refusal_text error) }
{
    match error {
        QueryError::Memory => Ok(()),
        QueryError::UnknownRound { round } => put_unknown_round(out, round),
        QueryError::UnknownPrefix { prefix } => put_unknown_prefix(out, prefix),
        QueryError::UnknownAs { asn } => put_unknown_as(out, asn),
        QueryError::NotWatched { addr } => put_not_watched(out, addr),
    }
}

/// Appends how many entries an edit has changed.
pub fn put_done(out: &mut Vec<u8>, routes: u64) -> Result<(), NoMemory>
    ensures { OnOk result (out.new.items ≡ out.old.items ++ (codes "ok " ++ (decimal routes ++ 10 ∷ []))) }
{
    let alloc = *out.allocator();
    let text = format!(in alloc; "ok {routes}\n")?;
    put_bytes(out, text.as_bytes())
}

// There is no such link.
fn put_absent_link(out: &mut Vec<u8>, lo: Asn, hi: Asn) -> Result<(), NoMemory>
    ensures { OnOk result (out.new.items ≡ out.old.items ++ edit_refusal (AbsentLink lo hi)) }
{
    put_bytes(out, b"refused absent-link ")?;
    put_asn(out, lo)?;
    put_bytes(out, b"|")?;
    put_asn(out, hi)?;
    put_bytes(out, b"\n")
}

// There is no such payload.
fn put_absent_vrp(out: &mut Vec<u8>, vrp: Vrp) -> Result<(), NoMemory>
    ensures { OnOk result (out.new.items ≡ out.old.items ++ edit_refusal (AbsentVrp vrp)) }
{
    put_bytes(out, b"refused absent-vrp ")?;
    put_number(out, u64::from(vrp.asn()))?;
    put_bytes(out, b" ")?;
    put_prefix(out, vrp.prefix())?;
    put_bytes(out, b" ")?;
    put_number(out, u64::from(vrp.max()))?;
    put_bytes(out, b"\n")
}

// The AS does not announce the prefix.
fn put_absent_announcement(out: &mut Vec<u8>, prefix: Prefix, asn: Asn) -> Result<(), NoMemory>
    ensures { OnOk result (out.new.items ≡ out.old.items ++ edit_refusal (AbsentAnnouncement prefix asn)) }
{
    put_bytes(out, b"refused absent-announcement ")?;
    put_prefix(out, prefix)?;
    put_bytes(out, b" ")?;
    put_asn(out, asn)?;
    put_bytes(out, b"\n")
}

// The word for a limit.
fn limit_name(which: EditLimit) -> &'static str
    ensures { result.now ≡ codes (elim which
        [ Links ↦ "links" | Announcements ↦ "announcements" | Ases ↦ "ases" | Vrps ↦ "payloads" ]) }
{
    match which {
        EditLimit::Links => "links",
        EditLimit::Announcements => "announcements",
        EditLimit::Ases => "ases",
        EditLimit::Vrps => "payloads",
    }
}

// The edit would pass a limit.
fn put_limit(out: &mut Vec<u8>, which: EditLimit) -> Result<(), NoMemory>
    ensures { OnOk result (out.new.items ≡ out.old.items ++ edit_refusal (Limit which)) }
{
    let alloc = *out.allocator();
    let name = limit_name(which);
    let text = format!(in alloc; "refused limit {name}\n")?;
    put_bytes(out, text.as_bytes())
}

// The link would close a provider cycle.
fn put_cycle(out: &mut Vec<u8>, cycle: &Cycle) -> Result<(), NoMemory>
    ensures { OnOk result (out.new.items ≡ out.old.items ++ edit_refusal (ProviderCycle cycle.now)) }
{
    put_bytes(out, b"refused provider-cycle ")?;
    put_numbers(out, cycle.as_slice())?;
    put_bytes(out, b"\n")
}

/// Appends what a refused edit is told. Nothing is told of want of memory.
pub fn put_edit_refusal(out: &mut Vec<u8>, error: &EditError) -> Result<(), NoMemory>
    ensures text { OnOk result (out.new.items ≡ out.old.items ++ edit_refusal error.now) }
    ensures told { OnOk result (error.now ≢ Memory) }
{
    match error {
        EditError::Memory => Err(NoMemory),
        EditError::AbsentLink { lo, hi } => put_absent_link(out, *lo, *hi),
        EditError::AbsentVrp { vrp } => put_absent_vrp(out, *vrp),
        EditError::UnknownPrefix { prefix } => put_unknown_prefix(out, *prefix),
        EditError::AbsentAnnouncement { prefix, asn } => {
            put_absent_announcement(out, *prefix, *asn)
        }
        EditError::Limit { which } => put_limit(out, *which),
        EditError::ProviderCycle(cycle) => put_cycle(out, cycle),
    }
}

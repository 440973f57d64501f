//! The row of an entry that stands by itself.
ghost use Rattle.std.specs.Prelude.{◌≡◌, ◌++◌, OnOk, OnErr, Some, option_copied};
ghost use Rattle.reports.specs.Growth.{Grows};
ghost use Rattle.stability_laws.specs.Prelude.{entry_text, entry_row};

use crate::rows::{append_numbers, append_otc, begin_entry, begin_row};
use crate::whole::or_cut;
use net_names::{Asn, NoMemory, put_bytes};
use stability_laws::Entry;

// Appends what a row says of an entry.
fn append_one(out: &mut Vec<u8>, entry: &Entry) -> Result<(), NoMemory>
    ensures ok { OnOk result (out.new.items ≡ out.old.items ++ entry_text (Some entry.now)) }
    ensures err { OnErr result (Grows out.old.items out.new.items) }
{
    begin_entry(out, entry.class)?;
    append_numbers(out, entry.path.as_slice())?;
    append_otc(out, entry.otc)
}

// Appends what a row says of an entry, or of none.
fn append_any(out: &mut Vec<u8>, held: Option<&Entry>) -> Result<(), NoMemory>
    ensures ok { OnOk result (out.new.items ≡ out.old.items ++ entry_text (option_copied held.entry)) }
    ensures err { OnErr result (Grows out.old.items out.new.items) }
{
    match held {
        None => put_bytes(out, b"none|"),
        Some(entry) => append_one(out, entry),
    }
}

// Appends the row of an AS with this entry, or with none.
fn append_entry(out: &mut Vec<u8>, asn: Asn, held: Option<&Entry>) -> Result<(), NoMemory>
    ensures ok { OnOk result (out.new.items ≡ out.old.items ++ entry_row asn (option_copied held.entry)) }
    ensures err { OnErr result (Grows out.old.items out.new.items) }
{
    begin_row(out, asn)?;
    append_any(out, held)?;
    put_bytes(out, b"\n")
}

/// Appends the row of an AS with this entry, or with none, in the form that it has in a table. Where
/// memory runs out, nothing changes.
pub fn put_entry(out: &mut Vec<u8>, asn: Asn, held: Option<&Entry>) -> Result<(), NoMemory>
    ensures ok { OnOk result (out.new.items ≡ out.old.items ++ entry_row asn (option_copied held.entry)) }
    ensures err { OnErr result (out.new.items ≡ out.old.items) }
{
    let kept = out.len();
    let appended = append_entry(out, asn, held);
    or_cut(out, kept, appended)
}

//! The line of a trace.
ghost use Rattle.std.specs.Prelude.{◌≡◌, ◌++◌, ◌∷◌, [], OnOk, OnErr};
ghost use Rattle.reports.specs.Growth.{Grows};
ghost use Rattle.net_names.specs.Prelude.{numbers_text};
ghost use Rattle.stability_laws.specs.Prelude.{row};
ghost use Rattle.reports.specs.Traces.{end_word};

use crate::rows::put_numbers;
use crate::whole::or_cut;
use data_trace::{End, Trace};
use net_names::{Asn, NoMemory, put_bytes};

fn end_name(end: End) -> &'static str
    ensures { result.now ≡ end_word end }
{
    match end {
        End::At(_) => "delivered",
        End::NoRoute => "no-route",
        End::Loop => "loop",
    }
}

// Appends the line of a trace.
fn append_trace(out: &mut Vec<u8>, walk: &[Asn], end: End) -> Result<(), NoMemory>
    ensures ok { OnOk result (out.new.items ≡ out.old.items ++ row (end_word end ∷ numbers_text walk.now ∷ [])) }
    ensures err { OnErr result (Grows out.old.items out.new.items) }
{
    put_bytes(out, end_name(end).as_bytes())?;
    put_bytes(out, b"|")?;
    put_numbers(out, walk)?;
    put_bytes(out, b"\n")
}

/// Appends a trace: `delivered`, `no-route` or `loop`, `|`, and the numbers of the ASes that the packet
/// passes with one space between. Where memory runs out, nothing changes. The format is this project's
/// own.
pub fn put_trace(out: &mut Vec<u8>, trace: &Trace) -> Result<(), NoMemory>
    ensures ok { OnOk result (out.new.items ≡ out.old.items ++
        row (end_word trace.now.end ∷ numbers_text trace.now.walk ∷ [])) }
    ensures err { OnErr result (out.new.items ≡ out.old.items) }
{
    let kept = out.len();
    let appended = append_trace(out, trace.walk.as_slice(), trace.end);
    or_cut(out, kept, appended)
}

//! A validation state, and the payloads behind it.
ghost use Rattle.std.specs.Prelude.{◌≡◌, ◌++◌, ◌∷◌, [], OnOk, OnErr, decimal};
ghost use Rattle.std.specs.List.{flat_map};
ghost use Rattle.reports.specs.Growth.{Grows};
ghost use Rattle.reports.specs.Validity.{state_word, payload_row, validity_text};

use crate::whole::or_cut;
use net_names::{NoMemory, State, Vrp, put_bytes, put_number, put_prefix};
use origin_validation::Explained;

fn state_name(state: State) -> &'static str
    ensures { result.now ≡ state_word state }
{
    match state {
        State::Valid => "valid",
        State::Invalid => "invalid",
        State::NotFound => "not-found",
    }
}

// Appends the end of a payload's row, with its maximum length.
fn append_max(out: &mut Vec<u8>, max: u8) -> Result<(), NoMemory>
    ensures ok { OnOk result (out.new.items ≡ out.old.items ++ (124 ∷ (decimal max ++ 10 ∷ []))) }
    ensures err { OnErr result (Grows out.old.items out.new.items) }
{
    put_bytes(out, b"|")?;
    put_number(out, u64::from(max))?;
    put_bytes(out, b"\n")
}

// Appends the row of a payload.
fn append_payload(out: &mut Vec<u8>, vrp: Vrp) -> Result<(), NoMemory>
    ensures ok { OnOk result (out.new.items ≡ out.old.items ++ payload_row vrp) }
    ensures err { OnErr result (Grows out.old.items out.new.items) }
{
    put_number(out, u64::from(vrp.asn()))?;
    put_bytes(out, b"|")?;
    put_prefix(out, vrp.prefix())?;
    append_max(out, vrp.max())
}

// Appends the row of each payload.
fn append_payloads(out: &mut Vec<u8>, vrps: &[Vrp]) -> Result<(), NoMemory>
    ensures ok { OnOk result (out.new.items ≡ out.old.items ++ flat_map payload_row vrps.now) }
    ensures err { OnErr result (Grows out.old.items out.new.items) }
{
    for vrp in vrps {
        append_payload(out, *vrp)?;
    }
    Ok(())
}

// Appends the line of the state, and the row of each payload.
fn append_validity(out: &mut Vec<u8>, state: State, vrps: &[Vrp]) -> Result<(), NoMemory>
    ensures ok { OnOk result (out.new.items ≡ out.old.items ++ validity_text state vrps.now) }
    ensures err { OnErr result (Grows out.old.items out.new.items) }
{
    put_bytes(out, b"state|")?;
    put_bytes(out, state_name(state).as_bytes())?;
    put_bytes(out, b"\n")?;
    append_payloads(out, vrps)
}

/// Appends a validation state with the payloads that cover the prefix: `state|` and `valid`, `invalid`
/// or `not-found`, and then a row for each payload in its order, with the payload's number, which may be 0,
/// `|`, its prefix, `|` and its maximum length. Where memory runs out, nothing changes. The format is this project's own.
pub fn put_validity(out: &mut Vec<u8>, explained: &Explained) -> Result<(), NoMemory>
    ensures ok { OnOk result (out.new.items ≡ out.old.items ++
        validity_text explained.now.state explained.now.covering) }
    ensures err { OnErr result (out.new.items ≡ out.old.items) }
{
    let kept = out.len();
    let appended = append_validity(out, explained.state, explained.covering.as_slice());
    or_cut(out, kept, appended)
}

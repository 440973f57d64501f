//! The names of the kinds.
ghost use Rattle.std.specs.Prelude.{◌≡◌, ◌++◌, OnOk, OnErr};
ghost use Rattle.policy_kinds.specs.Names.{name_of, kind_named};

use crate::kind::Kind;
use net_names::NoMemory;

/// The kind of that name; `None` exactly where the text is no kind's name.
pub fn read_kind(text: &[u8]) -> Option<Kind>
    ensures { result ≡ kind_named text.now }
{
    if text == b"plain".as_slice() {
        Some(Kind::Plain)
    } else if text == b"drop-invalid".as_slice() {
        Some(Kind::DropInvalid)
    } else if text == b"prefer-valid".as_slice() {
        Some(Kind::PreferValid)
    } else if text == b"provider-first".as_slice() {
        Some(Kind::ProviderFirst)
    } else if text == b"otc".as_slice() {
        Some(Kind::Otc)
    } else if text == b"drop-invalid+otc".as_slice() {
        Some(Kind::DropInvalidOtc)
    } else {
        None
    }
}

// The name of a kind.
fn name(kind: Kind) -> &'static [u8]
    ensures { result.now ≡ name_of kind }
{
    match kind {
        Kind::Plain => b"plain",
        Kind::DropInvalid => b"drop-invalid",
        Kind::PreferValid => b"prefer-valid",
        Kind::ProviderFirst => b"provider-first",
        Kind::Otc => b"otc",
        Kind::DropInvalidOtc => b"drop-invalid+otc",
    }
}

/// Appends the kind's name. `Err` where there is not enough memory; then `out` stays as it was.
pub fn put_kind(out: &mut Vec<u8>, kind: Kind) -> Result<(), NoMemory>
    ensures ok { OnOk result (out.new.items ≡ out.old.items ++ name_of kind) }
    ensures err { OnErr result (out.new.items ≡ out.old.items) }
{
    out.extend_from_slice(name(kind))?;
    Ok(())
}

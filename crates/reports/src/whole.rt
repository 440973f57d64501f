//! Texts that stand whole behind what was there, or not at all.

ghost use Rattle.std.specs.Prelude.{◌≡◌, take, OnOk, OnErr};

use net_names::NoMemory;

// Cuts a buffer back to its first bytes if what was appended to it isn't whole.
pub(crate) fn or_cut(
    out: &mut Vec<u8>,
    kept: usize,
    appended: Result<(), NoMemory>,
) -> Result<(), NoMemory>
    ensures same { result ≡ appended }
    ensures ok { OnOk appended (out.new.items ≡ out.old.items) }
    ensures err { OnErr appended (out.new.items ≡ take kept out.old.items) }
{
    if appended.is_err() {
        out.truncate(kept);
    }
    appended
}

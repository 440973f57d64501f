//! The fields of a script's line.
ghost use Rattle.std.specs.Prelude.{◌≡◌, ℕ, ◌^◌, ◌<◌, List, Option, IfOk, IfSome};
ghost use Rattle.net_names.specs.Prelude.{asn_of, prefix_of, addr_of, rel_of, vrp_asn_of, numeral};
ghost use Rattle.policy_kinds.specs.Prelude.{kind_named};
ghost use Rattle.scenario_text.specs.Forms.{pair, vrp_of};

use net_names::{
    Addr, Asn, NoMemory, Prefix, Rel, Vrp, cut, number, read_addr, read_asn, read_prefix,
    read_vrp_asn,
};
use policy_kinds::{Kind, read_kind};
use std::alloc::Global;

/// A grammar of texts.
pub trait Field {
    /// What the texts write.
    type To: Drop;

    ghost says: { List ℕ → Option Self.To };

    /// What the text writes; `None` where it isn't in the grammar.
    fn read(text: &[u8]) -> Option<Self::To>
        ensures { result ≡ says text.now };
}

/// The number of an AS.
pub(crate) struct AsnField;

impl Field for AsnField {
    type To = Asn;

    ghost says = { asn_of };

    fn read(text: &[u8]) -> Option<Asn> {
        read_asn(text)
    }
}

/// A prefix.
pub(crate) struct PrefixField;

impl Field for PrefixField {
    type To = Prefix;

    ghost says = { prefix_of };

    fn read(text: &[u8]) -> Option<Prefix> {
        read_prefix(text)
    }
}

/// An address.
pub struct AddrField;

impl Field for AddrField {
    type To = Addr;

    ghost says = { addr_of };

    fn read(text: &[u8]) -> Option<Addr> {
        read_addr(text)
    }
}

/// The name of a kind of policy.
pub struct KindField;

impl Field for KindField {
    type To = Kind;

    ghost says = { kind_named };

    fn read(text: &[u8]) -> Option<Kind> {
        read_kind(text)
    }
}

/// The round that 1 to 9 digits write.
pub(crate) fn read_round(text: &[u8]) -> Option<u32>
    ensures value { result ≡ numeral 10 9 text.now }
    ensures small { IfSome result (λ n. n < 10 ^ 9) }
{
    match number(text, 10, 9) {
        Some(n) => Some(n as u32),
        None => None,
    }
}

/// A round.
pub struct RoundField;

impl Field for RoundField {
    type To = u32;

    ghost says = { numeral 10 9 };

    fn read(text: &[u8]) -> Option<u32> {
        read_round(text)
    }
}

/// What the second AS is to the first.
pub(crate) struct RelField;

impl Field for RelField {
    type To = Rel;

    ghost says = { rel_of };

    #[tactic(auto, unfolding(net_names::specs::Texts::rel_of))]
    fn read(text: &[u8]) -> Option<Rel> {
        if text == b"-1".as_slice() {
            Some(Rel::Customer)
        } else if text == b"0".as_slice() {
            Some(Rel::Peer)
        } else {
            None
        }
    }
}

/// The AS number of a payload.
struct VrpAsnField;

impl Field for VrpAsnField {
    type To = u32;

    ghost says = { vrp_asn_of };

    fn read(text: &[u8]) -> Option<u32> {
        read_vrp_asn(text)
    }
}

/// The greatest length of a payload, not judged yet.
struct MaxField;

impl Field for MaxField {
    type To = u64;

    ghost says = { numeral 10 3 };

    fn read(text: &[u8]) -> Option<u64> {
        number(text, 10, 3)
    }
}

// Two fields that the first such byte parts.
#[tactic(auto, unfolding(crate::specs::Forms::pair))]
fn parted_at<F: Field, G: Field>(byte: u8, text: &[u8]) -> Option<(F::To, G::To)>
    ensures { result ≡ pair byte F.says G.says text.now }
{
    let (front, back) = cut(text, byte)?;
    let first = F::read(front)?;
    let second = G::read(back)?;
    Some((first, second))
}

/// Two fields with a space between.
pub(crate) struct Spaced<F, G> {
    first: F,
    second: G,
}

impl<F: Field, G: Field> Field for Spaced<F, G> {
    type To = (F::To, G::To);

    ghost says = { pair 32 F.says G.says };

    fn read(text: &[u8]) -> Option<(F::To, G::To)> {
        parted_at::<F, G>(b' ', text)
    }
}

/// Two fields with a `|` between.
pub(crate) struct Barred<F, G> {
    first: F,
    second: G,
}

impl<F: Field, G: Field> Field for Barred<F, G> {
    type To = (F::To, G::To);

    ghost says = { pair 124 F.says G.says };

    fn read(text: &[u8]) -> Option<(F::To, G::To)> {
        parted_at::<F, G>(b'|', text)
    }
}

/// A payload.
pub(crate) struct VrpField;

impl Field for VrpField {
    type To = Vrp;

    ghost says = { vrp_of };

    #[tactic(auto, unfolding(crate::specs::Forms::vrp_of))]
    fn read(text: &[u8]) -> Option<Vrp> {
        let (asn, (prefix, max)) = Spaced::<VrpAsnField, Spaced<PrefixField, MaxField>>::read(
            text,
        )?;
        if max > 128 {
            return None;
        }
        Vrp::new(prefix, max as u8, asn)
    }
}

/// A grammar of what stands at the end of a line. Reading it may need memory.
pub trait Ending {
    /// What the texts write.
    type To: Drop;

    ghost says: { List ℕ → Option Self.To };

    /// What the text writes; `None` where it isn't in the grammar. `Err` where there is not enough memory.
    fn read(alloc: Global, text: &[u8]) -> Result<Option<Self::To>, NoMemory>
        ensures { IfOk result (λ x. x ≡ says text.now) };
}

/// A field and, behind a space, the end of the line.
pub struct Before<F, E> {
    first: F,
    ending: E,
}

impl<F: Field, E: Ending> Ending for Before<F, E> {
    type To = (F::To, E::To);

    ghost says = { pair 32 F.says E.says };

    #[tactic(auto, unfolding(crate::specs::Forms::pair))]
    fn read(alloc: Global, text: &[u8]) -> Result<Option<(F::To, E::To)>, NoMemory> {
        let Some((front, back)) = cut(text, b' ') else {
            return Ok(None);
        };
        let Some(first) = F::read(front) else {
            return Ok(None);
        };
        let Some(ending) = E::read(alloc, back)? else {
            return Ok(None);
        };
        Ok(Some((first, ending)))
    }
}

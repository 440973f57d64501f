//! The forms of a script's line.
ghost use Rattle.std.specs.Prelude.{◌≡◌, ◌^◌, ◌<◌, ◌≤◌, length, Some, IfOk, IfSome, option_and_then, option_map};
ghost use Rattle.net_names.specs.Prelude.{after, asn_of, prefix_of};
ghost use Rattle.scenario_text.specs.declared.acts.Act.TheVariants.{Edit as AnEdit};
ghost use Rattle.scenario_text.specs.declared.acts.Edit.TheVariants.{Announce as AnAnnounce};
ghost use Rattle.scenario_text.specs.LineValues.{IsSoundAct};
ghost use Rattle.scenario_text.specs.Forms.{few_numbers, pair, form, for_of, query_of, act_of};

use crate::acts::{Act, Edit, Query};
use crate::fields::{
    AddrField, AsnField, Barred, Field, KindField, PrefixField, RelField, RoundField, Spaced,
    VrpField, read_round,
};
use crate::limits::MOST_NUMBERS;
use net_names::{NoMemory, Path, Prefix, cut, read_asn, read_prefix, strip};
use std::alloc::Global;

// The ASes of a path.
fn path(alloc: Global, text: &[u8]) -> Result<Option<Path>, NoMemory>
    ensures gives { IfOk result (λ path. path ≡ few_numbers asn_of text.now) }
    ensures few { IfOk result (λ path. IfSome path (λ ns. (1 ≤ length ns) × (length ns ≤ MOST_NUMBERS))) }
{
    let mut path = Path::new(alloc);
    let mut rest = text;
    for _i in 0..MOST_NUMBERS {
        match cut(rest, b' ') {
            None => {
                let Some(asn) = read_asn(rest) else {
                    return Ok(None);
                };
                path.push(asn)?;
                return Ok(Some(path));
            }
            Some((word, more)) => {
                let Some(asn) = read_asn(word) else {
                    return Ok(None);
                };
                path.push(asn)?;
                rest = more;
            }
        }
    }
    Ok(None)
}

// The fields of a line that begins with this word.
fn behind<F: Field>(line: &[u8], word: &[u8]) -> Option<F::To>
    ensures { result ≡ option_and_then F.says (after word.now line.now) }
{
    let rest = strip(line, word)?;
    F::read(rest)
}

/// The round, below 10^9, and the prefix of a line `for R P`, where R is 1 to 9 digits, leading zeros allowed, and P a prefix;
/// `None` exactly where the line has not the form. The format is this project's own.
#[tactic(auto, unfolding(crate::specs::Forms::for_of, crate::specs::Forms::pair))]
pub fn read_for(line: &[u8]) -> Option<(u32, Prefix)>
    ensures value { result ≡ for_of line.now }
    ensures small { IfSome result (λ r. r.0 < 10 ^ 9) }
{
    let rest = strip(line, b"for ")?;
    let (word, text) = cut(rest, b' ')?;
    let round = read_round(word)?;
    let prefix = read_prefix(text)?;
    Some((round, prefix))
}

// What a line asks for that announces.
#[tactic(auto, unfolding(crate::specs::Forms::pair))]
fn announcement(alloc: Global, line: &[u8]) -> Result<Option<Act>, NoMemory>
    ensures gives { IfOk result (λ act. act ≡ option_map AnEdit
        (form "announce " (pair 32 prefix_of (few_numbers asn_of)) (λ x. AnAnnounce x.0 x.1) line.now)) }
    ensures sound { IfOk result (λ act. IfSome act IsSoundAct) }
{
    let Some(rest) = strip(line, b"announce ") else {
        return Ok(None);
    };
    let Some((word, numbers)) = cut(rest, b' ') else {
        return Ok(None);
    };
    let Some(prefix) = read_prefix(word) else {
        return Ok(None);
    };
    let Some(path) = path(alloc, numbers)? else {
        return Ok(None);
    };
    Ok(Some(Act::Edit(Edit::Announce { prefix, path })))
}

// What a line asks for that has the form of a query.
#[tactic(auto, unfolding(crate::specs::Forms::query_of))]
fn query(line: &[u8]) -> Option<Query>
    ensures { result ≡ query_of line.now }
{
    if line == b"ranks".as_slice() {
        return Some(Query::Ranks);
    }
    if let Some((round, prefix)) = behind::<Spaced<RoundField, PrefixField>>(line, b"routes ") {
        return Some(Query::Routes { round, prefix });
    }
    if let Some((round, (prefix, asn))) = behind::<
        Spaced<RoundField, Spaced<PrefixField, AsnField>>,
    >(line, b"route ")
    {
        return Some(Query::Route { round, prefix, asn });
    }
    if let Some((round, (asn, addr))) = behind::<Spaced<RoundField, Spaced<AsnField, AddrField>>>(
        line, b"trace ",
    ) {
        return Some(Query::Trace { round, asn, addr });
    }
    if let Some((round, addr)) = behind::<Spaced<RoundField, AddrField>>(line, b"report ") {
        return Some(Query::Report { round, addr });
    }
    match behind::<Spaced<PrefixField, AsnField>>(line, b"validity ") {
        Some((prefix, asn)) => Some(Query::Validity { prefix, asn }),
        None => None,
    }
}

/// What a line asks for; `None` exactly where it has none of the forms. `Err` where there is not enough memory.
#[tactic(auto, unfolding(crate::specs::Forms::act_of))]
pub(crate) fn act(alloc: Global, line: &[u8]) -> Result<Option<Act>, NoMemory>
    ensures gives { IfOk result (λ act. act ≡ act_of line.now) }
    ensures sound { IfOk result (λ act. IfSome act IsSoundAct) }
{
    if let Some(query) = query(line) {
        return Ok(Some(Act::Query(query)));
    }
    if let Some((a, (b, rel))) = behind::<Barred<AsnField, Barred<AsnField, RelField>>>(
        line, b"link ",
    ) {
        if a != b {
            return Ok(Some(Act::Edit(Edit::Link { a, b, rel })));
        }
    }
    if let Some((a, b)) = behind::<Barred<AsnField, AsnField>>(line, b"unlink ") {
        if a != b {
            return Ok(Some(Act::Edit(Edit::Unlink { a, b })));
        }
    }
    if let Some((asn, kind)) = behind::<Spaced<AsnField, KindField>>(line, b"policy ") {
        return Ok(Some(Act::Edit(Edit::Policy { asn, kind })));
    }
    if let Some(vrp) = behind::<VrpField>(line, b"vrp-add ") {
        return Ok(Some(Act::Edit(Edit::VrpAdd { vrp })));
    }
    if let Some(vrp) = behind::<VrpField>(line, b"vrp-take ") {
        return Ok(Some(Act::Edit(Edit::VrpTake { vrp })));
    }
    if let Some(act) = announcement(alloc, line)? {
        return Ok(Some(act));
    }
    match behind::<Spaced<PrefixField, AsnField>>(line, b"withdraw ") {
        Some((prefix, asn)) => Ok(Some(Act::Edit(Edit::Withdraw { prefix, asn }))),
        None => Ok(None),
    }
}

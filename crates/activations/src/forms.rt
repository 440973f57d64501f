//! The forms of a line of a file of activations.
ghost use Rattle.std.specs.Prelude.{◌≡◌, ◌==◌ as nat_eq, ◌+◌, ◌<◌, ◌≤◌, [], ◌∷◌, length, IfOk, IfSome, bytes_eq, codes, true};
ghost use Rattle.std.specs.List.{starts_with};
ghost use Rattle.net_names.specs.Prelude.{fields};
ghost use Rattle.scenario_text.specs.Prelude.{form};
ghost use Rattle.activations.specs.Files.{act_of, hold_of, numbers_in};

use net_names::{Asn, MOST_TEXT_BYTES, NoMemory, Path, cut, read_asn, read_class, strip};
use stability_laws::Entry;
use std::alloc::Global;

// Whether the word stands there behind which one number more stands.
fn is_otc(word: &[u8]) -> bool
    ensures { result ≡ bytes_eq word.now (codes "otc") }
{
    word == b"otc".as_slice()
}

// The numbers of a text with one space between, and the one behind `otc`.
fn numbers(alloc: Global, text: &[u8]) -> Result<Option<(Path, Option<Asn>)>, NoMemory>
    requires { length text.now ≤ MOST_TEXT_BYTES }
    ensures gives { IfOk result (λ r. r ≡ numbers_in (fields 32 text.now)) }
    ensures few { IfOk result (λ r. IfSome r (λ x. length x.0 ≤ length text.now + 1)) }
{
    let mut path = Path::new(alloc);
    let mut rest = text;
    while let Some((word, more)) = cut(rest, b' ') {
        if is_otc(word) {
            return match read_asn(more) {
                Some(last) => Ok(Some((path, Some(last)))),
                None => Ok(None),
            };
        }
        let Some(asn) = read_asn(word) else {
            return Ok(None);
        };
        path.push(asn)?;
        rest = more;
    }
    if is_otc(rest) {
        return Ok(None);
    }
    let Some(asn) = read_asn(rest) else {
        return Ok(None);
    };
    path.push(asn)?;
    Ok(Some((path, None)))
}

// Whether the path begins with the AS.
fn begins(path: &[Asn], asn: Asn) -> bool
    ensures { result ≡ starts_with nat_eq path.now (asn ∷ []) }
{
    path.starts_with(&[asn])
}

/// What the line says that an AS holds; `None` exactly where the line has not the form.
#[tactic(auto, unfolding(crate::specs::Files::hold_of, scenario_text::specs::Forms::pair))]
pub(crate) fn read_hold(alloc: Global, line: &[u8]) -> Result<Option<(Asn, Entry)>, NoMemory>
    requires { length line.now ≤ MOST_TEXT_BYTES }
    ensures gives { IfOk result (λ r. r ≡ form "hold " hold_of (λ x. x) line.now) }
    ensures few { IfOk result (λ r. IfSome r (λ x. length x.1.path < MOST_TEXT_BYTES)) }
    ensures begins { IfOk result (λ r. IfSome r (λ x. starts_with nat_eq x.1.path (x.0 ∷ []) ≡ true)) }
{
    let Some(rest) = strip(line, b"hold ") else {
        return Ok(None);
    };
    let Some((word, rest)) = cut(rest, b' ') else {
        return Ok(None);
    };
    let Some(asn) = read_asn(word) else {
        return Ok(None);
    };
    let Some((word, rest)) = cut(rest, b' ') else {
        return Ok(None);
    };
    let Some(class) = read_class(word) else {
        return Ok(None);
    };
    let Some((path, otc)) = numbers(alloc, rest)? else {
        return Ok(None);
    };
    if begins(path.as_slice(), asn) {
        Ok(Some((asn, Entry { class, path, otc })))
    } else {
        Ok(None)
    }
}

/// Which ASes the line activates; `None` exactly where the line has not the form.
#[tactic(auto, unfolding(crate::specs::Files::act_of))]
pub(crate) fn read_act(alloc: Global, line: &[u8]) -> Result<Option<Path>, NoMemory>
    requires { length line.now ≤ MOST_TEXT_BYTES }
    ensures { IfOk result (λ r. r ≡ form "act " act_of (λ x. x) line.now) }
{
    let Some(rest) = strip(line, b"act ") else {
        return Ok(None);
    };
    match numbers(alloc, rest)? {
        Some((path, None)) => Ok(Some(path)),
        Some((_, Some(_))) => Ok(None),
        None => Ok(None),
    }
}

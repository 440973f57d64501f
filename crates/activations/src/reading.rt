//! Reading a file of activations.
ghost use Rattle.std.proofs.Common.{rules};
ghost use Rattle.std.specs.Prelude.{◌≡◌, ◌==◌ as nat_eq, ◌+◌, ◌<◌, ◌≤◌, [], ◌∷◌, IfOk, true, length};
ghost use Rattle.std.specs.List.{starts_with};
ghost use Rattle.std.specs.FinMap as map;
ghost use Rattle.net_names.specs.Prelude.{kept_from};
ghost use Rattle.net_names.specs.declared.limits.TheConstants.{MOST_TEXT_BYTES as most_bytes};
ghost use Rattle.activations.specs.Files.{Fails as FailsBy, fails_on as fails_alike, Gives, acts_by, with_acts, with_hold, with_line};
ghost use Rattle.activations.specs.Named.{AreSound};
ghost use Rattle.activations.specs.declared.reading.ActsError.TheVariants.{Memory};

use crate::acts::{Acts, NamedAses};
use crate::forms::{read_act, read_hold};
use net_names::{Asn, LineByLine, MOST_TEXT_BYTES, NoMemory, Path, Prefix, next_kept, put_lines};
use scenario_text::read_for;
use stability_laws::{Entry, Routing};
use std::alloc::Global;

/// How many activations a file asks for at most.
pub const MOST_ACTIVATIONS: u32 = 1_000_000;

/// Why a file of activations is refused: the fault of its first faulty line, where it has one. Lines are
/// numbered from 1, and skipped lines count. A line is judged in the order Unreadable, Twice, TooMany.
#[derive(Clone, Copy, Debug, PartialEq, Eq)]
pub enum ActsError {
    /// Memory ran out.
    Memory,
    /// The line has not the form: the first line that isn't skipped names the round and the prefix, and
    /// then come lines that say what ASes hold, and lines that activate ASes.
    Unreadable {
        /// The number of the line.
        line: u32,
    },
    /// An earlier line says what the AS holds.
    Twice {
        /// The number of the line.
        line: u32,
    },
    /// With this line the file asks for more than 1,000,000 activations.
    TooMany {
        /// The number of the line.
        line: u32,
    },
    /// Each line is skipped.
    NoFor,
}

impl From<NoMemory> for ActsError {
    ghost from_gives = { λ _ e. e ≡ Memory };

    fn from(_e: NoMemory) -> ActsError {
        ActsError::Memory
    }
}

// Puts in what an AS holds, as the line of this number says.
fn put_hold(mut acts: Acts, number: u32, asn: Asn, entry: Entry) -> Result<Acts, ActsError>
    requires sound { AreSound acts }
    requires few { length entry.path < MOST_TEXT_BYTES }
    requires begins { starts_with nat_eq entry.path (asn ∷ []) ≡ true }
    ensures gives { Gives result (with_hold acts number (asn, entry)) }
    ensures sound { IfOk result AreSound }
{
    if !acts.list.as_slice().is_empty() {
        return Err(ActsError::Unreadable { line: number });
    }
    if let Some(_) = acts.held.get(asn) {
        return Err(ActsError::Twice { line: number });
    }
    acts.held.put(asn, entry)?;
    acts.named.push(number, asn)?;
    Ok(acts)
}

// Puts in the ASes that the line of this number activates.
fn put_acts(mut acts: Acts, number: u32, ases: &[Asn]) -> Result<Acts, ActsError>
    requires { AreSound acts }
    ensures gives { Gives result (with_acts acts number ases.now) }
    ensures sound { IfOk result AreSound }
{
    if acts.list.as_slice().len() + ases.len() > MOST_ACTIVATIONS as usize {
        return Err(ActsError::TooMany { line: number });
    }
    for asn in ases {
        acts.list.push(*asn)?;
        acts.named.push(number, *asn)?;
    }
    Ok(acts)
}

impl LineByLine for Acts {
    type Error = ActsError;

    ghost says = { with_line };

    ghost Fails = { FailsBy };

    ghost IsReady = { λ _ acts. AreSound acts };

    ghost most = { most_bytes };

    fn put_line(self, alloc: Global, number: u32, line: &[u8]) -> Result<Acts, ActsError> {
        if let Some((asn, entry)) = read_hold(alloc, line)? {
            return put_hold(self, number, asn, entry);
        }
        match read_act(alloc, line)? {
            Some(ases) => put_acts(self, number, ases.as_slice()),
            None => Err(ActsError::Unreadable { line: number }),
        }
    }

    ghost fails_on = { fails_alike };

    ghost stays_ready = { λ _ _ _ _ ready. ready };

    ghost fits = { Prim.search rules };
}

// What a line of this number says alone that names these.
fn begun(alloc: Global, number: u32, names: (u32, Prefix)) -> Acts
    ensures { result ≡ record {
      for_line = number;
      round = names.0;
      prefix = names.1;
      held = map.empty;
      list = [];
      named = [];
    } }
{
    let (round, prefix) = names;
    Acts {
        for_line: number,
        round,
        prefix,
        held: Routing::new(alloc),
        list: Path::new(alloc),
        named: NamedAses::new(alloc),
    }
}

/// What a file of at most 16,777,216 bytes says. A line ends with a line feed, before which one carriage
/// return may stand; a line that is empty or begins with `#` is skipped. The first other line is
/// `for R P`, with the round R and the prefix P. Then come lines `hold A CLASS N N ..`, with `otc M`
/// behind the numbers or without it: A holds the path N N .., which begins with A. Then come lines
/// `act A A ..`, which activate these ASes in turn. The format is this project's own.
///
/// `NoFor` exactly where each line is skipped; `Unreadable` exactly where the first faulty line has not
/// the form, or says what an AS holds behind an activation; `Twice` exactly where it says again what an
/// AS holds; `TooMany` exactly where the file asks with it for more than 1,000,000 activations; `Memory`
/// where there is not enough memory.
pub fn read_acts(alloc: Global, bytes: &[u8]) -> Result<Acts, ActsError>
    requires { length bytes.now ≤ MOST_TEXT_BYTES }
    ensures gives { Gives result (acts_by (kept_from 1 bytes.now)) }
    ensures sound { IfOk result AreSound }
{
    let Some(first) = next_kept(bytes, 1) else {
        return Err(ActsError::NoFor);
    };
    let Some(names) = read_for(first.line) else {
        return Err(ActsError::Unreadable { line: first.number });
    };
    let acts = begun(alloc, first.number, names);
    put_lines(alloc, acts, first.number + 1, first.rest)
}

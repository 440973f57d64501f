//! The second pass over a document: its numbers and texts by their grammars.
ghost use Rattle.std.specs.Prelude.{◌≡◌, ◌==◌ as nat_eq, ◌∷◌, [], ok_or};
ghost use Rattle.std.specs.List.{starts_with};
ghost use Rattle.net_names.specs.Prelude.{addr_of};
ghost use Rattle.scenario_text.specs.declared.faults.ScenarioError.TheVariants.{Value};
ghost use Rattle.scenario_text.specs.Faults.{Gives};
ghost use Rattle.scenario_text.specs.Values.{asn_at, announcement_of, policy_of, lists_of};
ghost use Rattle.scenario_text.specs.Walks.{each_at};

use crate::documents::{AnnouncementText, Document, Numbers, PolicyText, Text};
use crate::faults::ScenarioError;
use crate::lists::{Leakers, Lists};
use crate::places::{Member, PartOf, Place};
use crate::scenario::Announcement;
use crate::walks::{Reading, each};
use net_names::{Addr, Asn, Path, read_addr, read_prefix};
use policy_kinds::{Kind, read_kind};
use std::alloc::Global;

// The AS of this number.
fn asn_value(place: Place, number: u64) -> Result<Asn, ScenarioError>
    ensures { Gives result (asn_at place number) }
{
    if number > u32::MAX as u64 {
        return Err(ScenarioError::Value { place });
    }
    match Asn::new(number as u32) {
        Some(asn) => Ok(asn),
        None => Err(ScenarioError::Value { place }),
    }
}

struct AsnValue;

impl Reading for AsnValue {
    type From = u64;

    type To = Asn;

    ghost gives = { asn_at };

    fn read(_alloc: Global, place: Place, from: &u64) -> Result<Asn, ScenarioError> {
        asn_value(place, *from)
    }
}

// Whether the path starts with the AS.
fn is_own(path: &[Asn], asn: Asn) -> bool
    ensures { result ≡ starts_with nat_eq path.now (asn ∷ []) }
{
    match path {
        [] => false,
        [first, ..] => asn == *first,
    }
}

struct AnnouncementValue;

impl Reading for AnnouncementValue {
    type From = AnnouncementText;

    type To = Announcement;

    ghost gives = { announcement_of };

    #[tactic(auto, unfolding(crate::specs::Values::announcement_of))]
    fn read(
        alloc: Global,
        place: Place,
        from: &AnnouncementText,
    ) -> Result<Announcement, ScenarioError> {
        let Some(prefix) = read_prefix(from.prefix.as_bytes()) else {
            return Err(ScenarioError::Value {
                place: place.part(PartOf::Prefix),
            });
        };
        let asn = asn_value(place.part(PartOf::Number), from.number)?;
        let path = each::<AsnValue>(alloc, place.part(PartOf::Path), from.path.as_slice())?;
        if is_own(path.as_slice(), asn) {
            Ok(Announcement {
                prefix,
                asn,
                path: Path::from_vec(path),
            })
        } else {
            Err(ScenarioError::Value {
                place: place.part(PartOf::Path),
            })
        }
    }
}

struct PolicyValue;

impl Reading for PolicyValue {
    type From = PolicyText;

    type To = (Asn, Kind);

    ghost gives = { policy_of };

    #[tactic(auto, unfolding(crate::specs::Values::policy_of))]
    fn read(_alloc: Global, place: Place, from: &PolicyText) -> Result<(Asn, Kind), ScenarioError> {
        let asn = asn_value(place.part(PartOf::Number), from.number)?;
        match read_kind(from.policy.as_bytes()) {
            Some(kind) => Ok((asn, kind)),
            None => Err(ScenarioError::Value {
                place: place.part(PartOf::Policy),
            }),
        }
    }
}

struct LeakersValue;

impl Reading for LeakersValue {
    type From = Numbers;

    type To = Leakers;

    ghost gives = { each_at asn_at };

    fn read(alloc: Global, place: Place, from: &Numbers) -> Result<Leakers, ScenarioError> {
        let numbers = each::<AsnValue>(alloc, place, from.as_slice())?;
        Ok(Leakers { numbers })
    }
}

struct WatchedValue;

impl Reading for WatchedValue {
    type From = Text;

    type To = Addr;

    ghost gives = { λ p text. ok_or (addr_of text) (Value p) };

    fn read(_alloc: Global, place: Place, from: &Text) -> Result<Addr, ScenarioError> {
        match read_addr(from.as_bytes()) {
            Some(addr) => Ok(addr),
            None => Err(ScenarioError::Value { place }),
        }
    }
}

/// The four lists that the document says, or the first number, text or path that is outside its grammar.
#[tactic(auto, unfolding(crate::specs::Values::lists_of))]
pub(crate) fn lists(alloc: Global, document: &Document) -> Result<Lists, ScenarioError>
    ensures { Gives result (lists_of document.now) }
{
    let announcements = each::<AnnouncementValue>(
        alloc,
        Place::member(Member::Announcements),
        &document.announcements,
    )?;
    let policies = each::<PolicyValue>(alloc, Place::member(Member::Policies), &document.policies)?;
    let leaks = each::<LeakersValue>(alloc, Place::member(Member::Leaks), &document.leaks)?;
    let watch = each::<WatchedValue>(alloc, Place::member(Member::Watch), &document.watch)?;
    Ok(Lists {
        announcements,
        policies,
        leaks,
        watch,
    })
}

//! A trial of a line.
ghost use Rattle.std.specs.Prelude.{◌≡◌, ℕ, IfOk};
ghost use Rattle.sim_core.specs.Prelude.{kind_at};
ghost use Rattle.stability_laws.specs.Prelude.{policy_at};
ghost use Rattle.trial_world.specs.Fixed.{IsFixed, world_of};
ghost use Rattle.trial_world.specs.Trials.{IsRight, count_in, gone_with as gone_with_fate, less_gone, line_base};

use crate::fixed::Fixed;
use crate::kept::{Kept, kept_for};
use crate::kinds::{copy_at, give_all, kinds_of, room_for};
use crate::lone::plain_count;
use net_names::{Addr, Asn, NoMemory};
use policy_kinds::Kind;
use rank_order::by_rank;
use stability_laws::{Book, plans_are_sound, right_follows};
use sweep::{Fate, Sweep, Trial};

/// A trial of a line: the kind of each AS now, the line's tables or trees in its world, and how many of the ASes at the start
/// are none of this world.
#[derive(Drop)]
pub struct LineTrial<'a> {
    pub(crate) fixed: Fixed<'a>,
    pub(crate) book: Book<Kind>,
    pub(crate) kept: Kept,
    pub(crate) gone: u64,
}

// How many of so many ASes that are gone have no route, where that is the fate.
fn gone_with(fate: &Fate, gone: u64) -> u64
    ensures { result ≡ gone_with_fate fate.now gone }
{
    match fate {
        Fate::NoRoute => gone,
        _ => 0,
    }
}

/// The trial of a line in which no AS has changed its kind yet.
pub fn trial_of<'a>(fixed: Fixed<'a>, line: &Sweep) -> Result<LineTrial<'a>, NoMemory>
    requires { IsFixed fixed }
    ensures right { IfOk result IsRight }
    ensures base { IfOk result (λ t. line_base t ≡ (world_of fixed.entry, (fixed.entry.round, fixed.entry.addr))) }
    ensures kinds { IfOk result (λ t. (a : ℕ) → policy_at t.book a ≡ kind_at (world_of fixed.entry) a) }
{
    let alloc = fixed.alloc;
    // Policies are sought at the places of ASes by rank first, as propagation goes along them.
    let order = by_rank(alloc, fixed.graph, fixed.ranks)?;
    let book = copy_at(alloc, fixed.base.book(), order.as_slice())?;
    let kept = kept_for(&fixed, &book, line)?;
    let gone = plain_count(fixed.lone.as_slice(), &book);
    Ok(LineTrial {
        fixed,
        book,
        kept,
        gone,
    })
}

impl<'a> Trial for LineTrial<'a> {
    ghost use Rattle.net_names.specs.Prelude.{AddrValue};
    ghost use Rattle.sim_core.specs.Prelude.{World};
    ghost use Rattle.stability_laws.specs.Prelude.{announcers_of};
    ghost use Rattle.trial_world.specs.Sweeps.{AreNumbers, with_kinds};
    ghost use Rattle.trial_world.specs.Trials.{as_set, is_of_line};

    ghost Base = { World × (ℕ × AddrValue) };

    ghost base = { line_base };

    ghost ases = { λ b. as_set b.0 };

    ghost announcers = { λ b. announcers_of b.0.plan };

    ghost is_watched = { is_of_line };

    ghost kinds = { λ t. policy_at t.book };

    ghost numbers = { λ t round addr. less_gone (count_in t.kept) t.gone };

    ghost AreNumbers = { λ b kinds round addr. AreNumbers (with_kinds b.0 kinds) round addr };

    ghost IsRight = { IsRight };

    fn next_as(&self, after: Option<Asn>) -> Option<Asn> {
        self.fixed.base.graph().next(after)
    }

    fn announcer_at(&self, place: usize) -> Option<Asn> {
        self.fixed.base.plan().announcers().get(place).copied()
    }

    fn kind(&self, asn: Asn) -> Kind {
        *self.book.policy(asn)
    }

    fn count(&self, _round: u32, _addr: Addr, fate: Fate) -> u64 {
        right_follows::<Kind>();
        plans_are_sound(&self.fixed.plan);
        let gone = gone_with(&fate, self.gone);
        let count = self.kept.count(&self.fixed, fate);
        count.saturating_sub(gone)
    }

    fn adopt_all(&mut self, changes: &[(Asn, Kind)]) -> Result<(), NoMemory> {
        let before = kinds_of(self.fixed.alloc, &self.book, changes)?;
        room_for(&mut self.book, changes)?;
        give_all(&mut self.book, changes);
        let had = before.as_slice();
        match self.kept.follow(&self.fixed, &self.book, had) {
            Ok(()) => {
                self.gone = plain_count(self.fixed.lone.as_slice(), &self.book);
                Ok(())
            }
            Err(_) => {
                give_all(&mut self.book, had);
                Err(NoMemory)
            }
        }
    }
}

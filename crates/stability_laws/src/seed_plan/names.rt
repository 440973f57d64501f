//! Whom a plan names.
ghost use Rattle.std.specs.Prelude.{◌≡◌, ◌&&◌, ◌||◌, ◌==◌, not, map};
ghost use Rattle.std.specs.List.{list_any};
ghost use Rattle.std.specs.Ordering.{eq_by_cmp};
ghost use Rattle.std.specs.FinMap as fin;
ghost use Rattle.net_names.specs.Prelude.{occurs, prefix_cmp};
ghost use Rattle.stability_laws.specs.declared.seed_plan.Announcement.{Announcement as AnAnnouncement};
ghost use Rattle.stability_laws.specs.Plans.{announcers_of};
ghost use Rattle.stability_laws.specs.SeedEdits.{without_announcement};

use super::{Announcement, SeedPlan};
use net_names::{Asn, Prefix};

// Whether the AS announces another prefix.
fn announces_another(announced: &[Announcement], prefix: Prefix, asn: Asn) -> bool
    ensures { result ≡ list_any (λ (x : AnAnnouncement). (x.asn == asn) && not
        (eq_by_cmp prefix_cmp x.prefix prefix)) announced.now }
{
    announced
        .iter()
        .any(|one| one.asn == asn && one.prefix != prefix)
}

impl SeedPlan {
    /// Whether the AS announces a prefix, or leaks in some round.
    pub fn names(&self, asn: Asn) -> bool
        ensures { result ≡ (occurs asn (announcers_of self.now) || occurs asn
            (map (λ x. x.1) (fin.keys self.now.leakers))) }
    {
        let announces = self.announcers().contains(&asn);
        announces | self.leaking.contains(&asn)
    }

    /// Whether the AS announces a prefix, or leaks in some round, where it does not announce this prefix any more.
    pub fn names_without(&self, prefix: Prefix, asn: Asn) -> bool
        ensures { result ≡ (occurs asn (announcers_of (without_announcement self.now prefix asn)) || occurs asn
            (map (λ x. x.1) (fin.keys self.now.leakers))) }
    {
        let announces = announces_another(self.announced.as_slice(), prefix, asn);
        announces | self.leaking.contains(&asn)
    }
}

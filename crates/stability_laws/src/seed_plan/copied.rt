//! A plan once more.
ghost use Rattle.std.specs.Prelude.{◌≡◌, IfOk};

use super::{Announcement, SeedPlan};
use net_names::NoMemory;
use std::alloc::Global;

// The same announcement once more.
fn announcement_of(alloc: Global, announcement: &Announcement) -> Result<Announcement, NoMemory>
    ensures { IfOk result (λ a. a ≡ announcement.now) }
{
    Ok(Announcement {
        prefix: announcement.prefix,
        asn: announcement.asn,
        path: announcement.path.copied(alloc)?,
    })
}

// The same announcements once more.
fn announcements_of(
    alloc: Global,
    announced: &[Announcement],
) -> Result<Vec<Announcement>, NoMemory>
    ensures { IfOk result (λ v. v.items ≡ announced.now) }
{
    let mut copies = Vec::new(alloc);
    for announcement in announced {
        let copy = announcement_of(alloc, announcement)?;
        copies.push(copy)?;
    }
    Ok(copies)
}

// The same items once more.
pub(super) fn items_of<T: Copy>(alloc: Global, items: &[T]) -> Result<Vec<T>, NoMemory>
    ensures { IfOk result (λ v. v.items ≡ items.now) }
{
    let copies = Vec::from_slice(alloc, items)?;
    Ok(copies)
}

impl SeedPlan {
    /// The same plan once more. The only refusal is want of memory.
    pub fn copied(&self, alloc: Global) -> Result<SeedPlan, NoMemory>
        ensures { IfOk result (λ plan. plan ≡ self.now) }
    {
        Ok(SeedPlan {
            prefixes: items_of(alloc, self.prefixes.as_slice())?,
            announced: announcements_of(alloc, self.announced.as_slice())?,
            announcers: items_of(alloc, self.announcers.as_slice())?,
            leakers: items_of(alloc, self.leakers.as_slice())?,
            leaking: items_of(alloc, self.leaking.as_slice())?,
        })
    }
}

//! Which ASes may announce a prefix.
ghost use Rattle.data_trace.specs.Announcers.{AreAnnouncers};

use route_choice::Marks;
use stability_laws::SeedPlan;

/// The marks of the ASes that announce a prefix of the plan, by which most others are told without a
/// search in the plan.
pub fn announcers_of(plan: &SeedPlan) -> Marks<4096>
    ensures { AreAnnouncers result plan.now }
{
    let mut marks = Marks::none();
    for asn in plan.announcers() {
        marks.add(*asn);
    }
    marks
}

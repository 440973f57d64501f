//! The forms of a line of a file of deliveries.
ghost use Rattle.std.specs.Prelude.{◌≡◌, ◌==◌, ◌&&◌, nat_le, nat_lt, not};
ghost use Rattle.net_names.specs.Prelude.{option_filter, asn_of, numeral};
ghost use Rattle.scenario_text.specs.Prelude.{form, pair};
ghost use Rattle.message_sim.specs.Files.{step_of};

use crate::steps::{MOST_DELIVERIES, Step};
use net_names::{Asn, cut, number, read_asn, strip};

// The link that the line names; `None` exactly where the line has not the form.
#[tactic(auto, unfolding(scenario_text::specs::Forms::pair))]
fn link(line: &[u8]) -> Option<(Asn, Asn)>
    ensures { result ≡
        form "deliver " (λ t. option_filter (λ x. not (x.0 == x.1)) (pair 32 asn_of asn_of t)) (λ x. x) line.now }
{
    let rest = strip(line, b"deliver ")?;
    let (first, second) = cut(rest, b' ')?;
    let from = read_asn(first)?;
    let to = read_asn(second)?;
    if from == to {
        return None;
    }
    Some((from, to))
}

// How many deliveries the line asks for; `None` exactly where the line has not the form.
fn most(line: &[u8]) -> Option<u32>
    ensures { result ≡
        form "rest " (λ t. option_filter (λ k. nat_lt 0 k && nat_le k MOST_DELIVERIES) (numeral 10 7 t))
        (λ x. x) line.now }
{
    let text = strip(line, b"rest ")?;
    let most = number(text, 10, 7)?;
    if most == 0 || most > MOST_DELIVERIES as u64 {
        return None;
    }
    Some(most as u32)
}

/// What the line of this number asks for; `None` exactly where it has none of the forms.
pub(crate) fn step(line: u32, text: &[u8]) -> Option<Step>
    ensures { result ≡ step_of (line, text.now) }
{
    match link(text) {
        Some(link) => Some(Step {
            line,
            link: Some(link),
            most: 1,
        }),
        None => {
            let most = most(text)?;
            Some(Step {
                line,
                link: None,
                most,
            })
        }
    }
}

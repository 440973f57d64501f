//! The tables of a net, and the delivery of a message in them.
ghost use Rattle.std.specs.Prelude.{◌≡◌, ◌≢◌, ◌≤◌, ◌+◌, ◌^◌, ℕ, Some, None, IfOk, OnErr, ◌↔◌, IsTrue, All, true, is_some, nat_eq, slice_get, option_copied, [], List, length, sum_by};
ghost use Rattle.std.specs.Map.{lookup};
ghost use Rattle.std.specs.FinMap as map;
ghost use Rattle.std.specs.Ordering.{is_lt};
ghost use Rattle.std.specs.BTreeSet.{contains};
ghost use Rattle.net_names.specs.Prelude.{pair_cmp, IsDistinct};
ghost use Rattle.as_graph.specs.Prelude.{relation};
ghost use Rattle.stability_laws.specs.Prelude.{policy_at};
ghost use Rattle.message_sim.specs.Arrivals.{ground_setting};
ghost use Rattle.message_sim.specs.Rows.{AreWithin, choice_at, best_at, queue_at, link_eq};
ghost use Rattle.message_sim.specs.Kept.{IsKept, IsChange, AreNewsAt, IsTurnIn, IsSameNet, IsPutChange, IsMoved, IsLowest, lower_of, waiting_link, held_after};
ghost use Rattle.message_sim.specs.Nets.{waiting_in};
ghost use Rattle.message_sim.specs.News.{news_count};

use crate::arrival::Arrival;
use crate::choosing::{Choice, choose};
use crate::ground::Ground;
use crate::line::Line;
use crate::news::{News, news_of};
use crate::route::{Route, same_route};
use crate::starting::MOST_MESSAGES;
use crate::writes::{is_waiting, note, oldest, put_best, put_choice, send_all, take};
use as_graph::Graph;
use indexmap::IndexMap;
use net_names::{Asn, NoMemory, Rel};
use policy_laws::{OriginStates, RoutePolicy, View};
use stability_laws::{Book, Entry};
use std::alloc::Global;
use std::collections::BTreeSet;

/// What each AS holds, the view of its best offer, the lines, links among which are all those on which
/// messages are under way, and how many messages are.
#[derive(Drop)]
pub struct NetState {
    pub(crate) choices: IndexMap<Asn, Option<Route>>,
    pub(crate) bests: IndexMap<Asn, Option<View>>,
    pub(crate) lines: IndexMap<(Asn, Asn), Line>,
    pub(crate) waiting: BTreeSet<(Asn, Asn)>,
    pub(crate) queued: u64,
}

/// What a delivery changes at its receiver: nothing, the view of its best offer alone, or what it holds,
/// of which it tells its neighbours.
#[derive(Drop)]
pub struct Change {
    pub(crate) choice: Option<Choice>,
    pub(crate) news: Vec<News>,
}

// The view of the best offer of an AS.
fn best_of(bests: &IndexMap<Asn, Option<View>>, a: Asn) -> Option<View>
    ensures { result ≡ best_at bests.now.entries a }
{
    match bests.get(&a) {
        Some(best) => *best,
        None => None,
    }
}

// What an AS that has a new choice tells its neighbours.
fn news_at<P: RoutePolicy>(
    alloc: Global,
    graph: &Graph,
    book: &Book<P>,
    choices: &IndexMap<Asn, Option<Route>>,
    a: Asn,
    new: &Option<Route>,
) -> Result<Vec<News>, NoMemory>
    requires { is_some (lookup (nat_eq a) choices.now.entries) ≡ true }
    ensures { IfOk result (λ v. AreNewsAt (P.meaning (policy_at book.now a)) (relation graph.now a)
        (choice_at choices.now.entries a) new.now v.items) }
{
    match choices.get(&a) {
        Some(old) => {
            if same_route(old, new) {
                return Ok(Vec::new(alloc));
            }
            let news = news_of(alloc, book.policy(a), graph.neighbours(a), old, new)?;
            Ok(news)
        }
        None => Ok(Vec::new(alloc)),
    }
}

// The change to a new choice, where there is one.
fn change_to<P: RoutePolicy, V: OriginStates>(
    alloc: Global,
    ground: &Ground<'_, P, V>,
    choices: &IndexMap<Asn, Option<Route>>,
    a: Asn,
    choice: Option<Choice>,
) -> Result<Change, NoMemory>
    requires { is_some (lookup (nat_eq a) choices.now.entries) ≡ true }
    ensures choice { IfOk result (λ c. c.choice ≡ choice) }
    ensures news { IfOk result (λ c. AreNewsAt (P.meaning (policy_at ground.now.book.now a))
        (relation ground.now.graph.now a) (choice_at choices.now.entries a)
        (held_after choice (choice_at choices.now.entries a)) c.news.items) }
{
    match choice {
        None => Ok(Change {
            choice: None,
            news: Vec::new(alloc),
        }),
        Some(choice) => {
            let news = news_at(alloc, ground.graph, ground.book, choices, a, &choice.held)?;
            Ok(Change {
                choice: Some(choice),
                news,
            })
        }
    }
}

// What the message changes at its receiver.
fn change_by<P: RoutePolicy, V: OriginStates>(
    alloc: Global,
    ground: &Ground<'_, P, V>,
    tables: &NetState,
    from: Asn,
    to: Asn,
    rel: Rel,
    message: &Option<Route>,
) -> Result<Change, NoMemory>
    requires linked { relation ground.now.graph.now to from ≡ Some rel }
    requires kept { IsKept (ground_setting P.meaning V.state_of ground.now)
        (map.get ground.now.seeds.now) tables.now }
    ensures { IfOk result (λ c. IsChange (ground_setting P.meaning V.state_of ground.now)
        (map.get ground.now.seeds.now) tables.now.choices.entries tables.now.bests.entries
        tables.now.lines.entries from to message.now c.choice c.news.items) }
{
    match ground.seeds.get(to) {
        Some(_) => Ok(Change {
            choice: None,
            news: Vec::new(alloc),
        }),
        None => {
            let best = best_of(&tables.bests, to);
            let arrival = Arrival {
                ground,
                lines: &tables.lines,
                from,
                to,
                message: message.as_ref(),
            };
            let choice = choose(alloc, &arrival, rel, best)?;
            let change = change_to(alloc, ground, &tables.choices, to, choice)?;
            Ok(change)
        }
    }
}

// Writes what an AS newly holds, where its choice has changed.
fn put_change(
    choices: &mut IndexMap<Asn, Option<Route>>,
    bests: &mut IndexMap<Asn, Option<View>>,
    a: Asn,
    choice: Option<Choice>,
)
    requires choice_row { is_some (lookup (nat_eq a) choices.old.entries) ≡ true }
    requires best_row { is_some (lookup (nat_eq a) bests.old.entries) ≡ true }
    ensures { IsPutChange choices.old.entries choices.new.entries bests.old.entries bests.new.entries a choice }
{
    match choice {
        Some(choice) => {
            let Choice { best, held } = choice;
            put_best(bests, a, best);
            put_choice(choices, a, held);
        }
        None => {}
    }
}

// Takes the oldest message from a link, and sends what its receiver tells.
fn move_messages(lines: &mut IndexMap<(Asn, Asn), Line>, from: Asn, to: Asn, news: Vec<News>)
    requires apart { from ≢ to }
    requires some { queue_at lines.old.entries from to ≢ [] }
    requires lines { All (λ x. is_some (lookup (link_eq (to, x.to)) lines.old.entries) ≡ true) news.items }
    requires room { waiting_in lines.old.entries + news_count news.items ≤ 2 ^ 63 }
    ensures { IsMoved lines.old.entries lines.new.entries from to news.items }
{
    take(lines, from, to);
    send_all(lines, to, news);
}

// Forgets a link on which no message is under way.
fn forget(
    waiting: &mut BTreeSet<(Asn, Asn)>,
    lines: &IndexMap<(Asn, Asn), Line>,
    from: Asn,
    to: Asn,
)
    ensures { (n a : ℕ) → contains pair_cmp waiting.old (n, a) ≡ true →
        queue_at lines.now.entries n a ≢ [] → contains pair_cmp waiting.new (n, a) ≡ true }
{
    if is_waiting(lines, from, to) {
        return;
    }
    let _ = waiting.remove(&(from, to));
}

/// Delivers the oldest message on a link; whether there was one.
pub(crate) fn deliver_in<P: RoutePolicy, V: OriginStates>(
    alloc: Global,
    ground: &Ground<'_, P, V>,
    tables: &mut NetState,
    from: Asn,
    to: Asn,
) -> Result<bool, NoMemory>
    requires linked { relation ground.now.graph.now to from ≢ None }
    requires kept { IsKept (ground_setting P.meaning V.state_of ground.now)
        (map.get ground.now.seeds.now) tables.old }
    ensures kept { IsKept (ground_setting P.meaning V.state_of ground.now)
        (map.get ground.now.seeds.now) tables.new }
    ensures ok { IfOk result (IsTurnIn (ground_setting P.meaning V.state_of ground.now)
        (map.get ground.now.seeds.now) tables.old tables.new from to) }
    ensures err { OnErr result (IsSameNet tables.old tables.new) }
{
    let Some(rel) = ground.graph.rel(to, from) else {
        return Ok(false);
    };
    let change = match oldest(&tables.lines, from, to) {
        Some(message) => change_by(alloc, ground, tables, from, to, rel, message)?,
        None => return Ok(false),
    };
    let more = change.news.len() as u64;
    if more > MOST_MESSAGES - tables.queued {
        return Err(NoMemory);
    }
    note(&mut tables.waiting, to, change.news.as_slice())?;
    let count = tables.queued - 1 + more;
    let Change { choice, news } = change;
    move_messages(&mut tables.lines, from, to, news);
    put_change(&mut tables.choices, &mut tables.bests, to, choice);
    forget(&mut tables.waiting, &tables.lines, from, to);
    tables.queued = count;
    Ok(true)
}

/// What an AS holds.
pub(crate) fn choice_in(choices: &IndexMap<Asn, Option<Route>>, a: Asn) -> Option<&Entry>
    ensures { option_copied result ≡ choice_at choices.now.entries a }
{
    match choices.get(&a) {
        Some(held) => match held {
            Some(held) => Some(held.entry()),
            None => None,
        },
        None => None,
    }
}

// The lowest link on which a message is under way, of all links.
fn lowest_of_all(lines: &IndexMap<(Asn, Asn), Line>) -> Option<(Asn, Asn)>
    ensures { IsLowest lines.now.entries result }
{
    let mut best: Option<(Asn, Asn)> = None;
    for k in 0..lines.len() {
        let new = waiting_at(lines, k);
        best = lower(new, best);
    }
    best
}

// The link at a place, where a message is under way on it.
fn waiting_at(lines: &IndexMap<(Asn, Asn), Line>, k: usize) -> Option<(Asn, Asn)>
    ensures { result ≡ waiting_link (slice_get lines.now.entries k) }
{
    match lines.get_index(k) {
        Some((link, line)) => if line.queue.is_empty() {
            None
        } else {
            Some(*link)
        },
        None => None,
    }
}

// The lower one of two links that may be missing.
fn lower(new: Option<(Asn, Asn)>, best: Option<(Asn, Asn)>) -> Option<(Asn, Asn)>
    ensures { result ≡ lower_of new best }
{
    match new {
        None => best,
        Some((a, b)) => match best {
            None => Some((a, b)),
            Some((c, d)) => if is_lower(a, b, c, d) {
                Some((a, b))
            } else {
                Some((c, d))
            },
        },
    }
}

// Whether a pair is lower than another.
fn is_lower(a: Asn, b: Asn, c: Asn, d: Asn) -> bool
    ensures { result ≡ is_lt (pair_cmp (a, b) (c, d)) }
{
    (a, b) < (c, d)
}

/// The lowest link on which a message is under way. All links are looked at only where the lowest noted
/// one is not one of them, as may be once memory was not found.
pub(crate) fn lowest(
    waiting: &BTreeSet<(Asn, Asn)>,
    lines: &IndexMap<(Asn, Asn), Line>,
) -> Option<(Asn, Asn)>
    requires { (n a : ℕ) → queue_at lines.now.entries n a ≢ [] → contains pair_cmp waiting.now (n, a) ≡ true }
    ensures { IsLowest lines.now.entries result }
{
    match waiting.first() {
        Some(link) => {
            if is_waiting(lines, link.0, link.1) {
                return Some(*link);
            }
            lowest_of_all(lines)
        }
        None => None,
    }
}

/// Whether no message is under way, given how many are.
pub(crate) fn are_none_waiting(lines: &IndexMap<(Asn, Asn), Line>, queued: u64) -> bool
    requires { queued ≡ waiting_in lines.now.entries }
    ensures { IsTrue result ↔ ((n a : ℕ) → queue_at lines.now.entries n a ≡ []) }
{
    lines.len() == 0 || queued == 0
}

/// How many messages are under way, which is what the lines between any ASes have that hold both ends of
/// each line.
pub(crate) fn under_way(lines: &IndexMap<(Asn, Asn), Line>, queued: u64) -> u64
    requires { queued ≡ waiting_in lines.now.entries }
    ensures { (ns : List ℕ) → IsDistinct ns → AreWithin ns lines.now.entries →
        result ≡ sum_by (λ n. sum_by (λ a. length (queue_at lines.now.entries n a)) ns) ns }
{
    if lines.len() == 0 {
        return 0;
    }
    queued
}

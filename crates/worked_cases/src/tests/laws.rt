//! Each law is one that a caller can cite.
use activations::acts_are_those_said;
use as_graph::{
    ases_are_kept, edits_are_undone, fitting_are_ranks, links_are_set, links_are_sound,
    links_are_taken, one_rank, ranks_fit,
};
use caida_reader::links_are_those_given;
use net_names::{texts_are_read_again, v4_has_one_text, v6_has_one_text};
use policy_kinds::Kind;
use rank_order::ranks_stay;
use roa_table::payloads_are_those_given;
use scenario_text::{lines_are_those_said, scenarios_are_those_said};
use sim_core::answers_are_one;
use stability_laws::{
    a_stable_routing_exists, any_order_settles, customers_decide, exactly_one_family,
    exactly_one_stable_routing, nothing_up, offer_follows, offer_names, one_answer, one_family,
    one_stable_routing, right_by_offers, right_follows,
};

#[test]
fn laws_of_graphs_are_called() {
    ases_are_kept();
    edits_are_undone();
    fitting_are_ranks();
    links_are_set();
    links_are_sound();
    links_are_taken();
    one_rank();
    ranks_fit();
    ranks_stay();
}

#[test]
fn laws_of_files_and_texts_are_called() {
    acts_are_those_said();
    links_are_those_given();
    payloads_are_those_given();
    scenarios_are_those_said();
    lines_are_those_said();
    texts_are_read_again();
    v4_has_one_text();
    v6_has_one_text();
    answers_are_one();
}

#[test]
fn laws_of_routings_hold_of_the_kinds() {
    offer_follows::<Kind>();
    offer_names::<Kind>();
    right_by_offers::<Kind>();
    right_follows::<Kind>();
    one_answer::<Kind>();
    nothing_up::<Kind>();
    customers_decide::<Kind>();
    one_stable_routing::<Kind>();
    one_family::<Kind>();
    a_stable_routing_exists::<Kind>();
    exactly_one_stable_routing::<Kind>();
    exactly_one_family::<Kind>();
    any_order_settles::<Kind>();
}

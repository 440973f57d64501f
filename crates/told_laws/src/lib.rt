//! What holds of all that `run` tells.
//!
//! Activations settle whatever their order, and deliveries after n ^ (2 h) at most. What is printed over
//! files is accepted by `--check` over the same files. The parts of a file of sweeps are answered apart, so
//! that many machines write the bytes of one. What a file of activations, of sweeps or of printed tables
//! says is what its lines say, and its fault is that of its first faulty line.
#![tactic(auto)]

mod laws;

pub use laws::{
    acts_are_named, deliveries_settle_soon, held_entries_are_printable,
    loaded_worlds_are_printable, named_orders_settle, origins_are_ases,
    printed_routes_are_accepted, sweep_faults_are_first, sweep_files_are_independent,
    sweeps_are_those_said, table_faults_are_first, tables_are_those_said, told_orders_settle,
    told_routes_are_accepted, turns_are_few,
};

//! What the instructions of a block do when they run: the client finds its operands and its locals as they were, and the
//! policy's variables are what the automaton tells. (docs/BLOCKS.md)
#![tactic(auto)]

mod laws;

pub use laws::{
    a_block_runs, accepted_runs_are_lifted, blocks_reach_calls, blocks_return, blocks_throw_on,
    calls_are_reached, clients_are_roomy, clients_fit, clients_keep_their_machine,
    clients_start_alike, moves_are_made, one_thread_is_apart, runs_are_lifted, runs_are_made,
    steps_are_lifted, waiting_threads_stand_at_calls, woven_adds_state, woven_clients_are_known,
};

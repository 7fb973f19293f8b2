//! Scenarios drawn from three numbers: any count of them, to try the program or another tool on.
#![tactic(auto)]

mod fault;
mod generator;
mod laws;
mod numbers;
mod pieces;
mod server;
mod text;
mod turn;
mod whole;

pub use fault::NotWritten;
pub use generator::write_scenario;
pub use laws::{
    drawn_texts_read_as_json, names_are_numbered, numbers_are_in_bounds,
    servers_stand_in_trees_of_ten, small_scenarios_are_known, turns_are_of_the_servers,
};
pub use server::DrawnServer;
pub use turn::DrawnTurn;
pub use whole::generate;

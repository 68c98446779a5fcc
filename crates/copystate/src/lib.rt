// The states of one board's copy of a line, the events that it meets, and the table of next states.
#![tactic(auto)]

pub mod events;
mod pairs;
pub mod soundness;
pub mod states;
pub mod table;

pub use events::Event;
pub use soundness::table_is_sound;
pub use states::State;
pub use table::Entry;

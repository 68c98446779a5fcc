// The first line of a trace.
pub use crate::command::FabricLine;

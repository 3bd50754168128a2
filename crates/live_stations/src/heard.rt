//! What is heard of a station.

use live_day::Typed;

/// What is heard of a station.
#[derive(Debug, Drop)]
pub enum Heard {
    /// A line that was typed there.
    Line(Typed),
    /// No more lines come.
    Over,
}

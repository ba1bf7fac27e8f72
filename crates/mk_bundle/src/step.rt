use crate::event::Event;

/// What the bytes that are held give.
#[derive(Drop)]
pub(crate) enum Step {
    /// An event, which is not the last one.
    Told(Event),
    /// A line that has no event of its own.
    Quiet,
    /// The last line.
    Over,
    /// No whole line is held, and one may be still.
    Starved,
    /// No bundle text goes on with what is held.
    Wrong,
    /// Memory was wanted and not found.
    Memory,
}

/// What a counting share permits: nothing, a source that has given out so many readers, or so many readers.
#[derive(Clone, Copy, PartialEq, Eq)]
pub enum Permission {
    Empty,
    Source(u16),
    Readers(u16),
}

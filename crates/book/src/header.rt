use kinds::KindOfShare;

/// What the first eight bytes of a book say.
#[derive(Clone, Copy, PartialEq, Eq, Debug, Drop)]
pub struct Header {
    /// how many events the book has
    pub events: u16,
    pub kind: KindOfShare,
    /// the numbers of the layers Chain and Term
    pub chain: u8,
    pub term: u16,
}

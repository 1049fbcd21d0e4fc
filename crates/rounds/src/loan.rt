/// One loan: what the borrower got, and what the house kept of what it had.
#[derive(Clone, Copy)]
pub struct Loan<S> {
    pub lent: S,
    pub kept: S,
}

/// A resource shared out: the loans in their order, and what the house has left.
#[derive(Drop)]
pub struct SharedOut<S> {
    pub loans: Vec<Loan<S>>,
    pub left: S,
}

/// A resource shared out, and what the house had when every share was back.
#[derive(Drop)]
pub struct Round<S> {
    pub out: SharedOut<S>,
    pub back: S,
}

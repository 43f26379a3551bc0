//! Where a thread may be held back between its steps.

/// What a thread passes at the calls of its list. Its methods answer nothing and return.
pub trait Gate {
    /// Stands before call `call` of list `list`, each counted from 0.
    fn enter(&self, list: u16, call: u64);

    /// Stands behind that call, before its answer is rendered.
    fn drawing(&self, list: u16, call: u64);
}

/// The gate whose calls return at once.
#[derive(Clone, Copy)]
pub struct Open;

impl Gate for Open {
    fn enter(&self, _list: u16, _call: u64) {}

    fn drawing(&self, _list: u16, _call: u64) {}
}

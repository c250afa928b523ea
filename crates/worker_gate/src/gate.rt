//! What is told of the calls of functions.
/// Is told of each call of a function.
pub trait Gate {
    /// A function is about to be called for the attempt with this number.
    fn before_call(&self, ticket: u32);

    /// That function has returned.
    fn after_call(&self, ticket: u32);
}

/// A gate that does nothing.
#[derive(Clone, Copy, Drop)]
pub struct Open;

impl Gate for Open {
    fn before_call(&self, ticket: u32) {
        let _ = ticket;
    }

    fn after_call(&self, ticket: u32) {
        let _ = ticket;
    }
}

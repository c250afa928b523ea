//! Numbers of scopes, nodes and functions.

/// Numbers of a scope, of a node and of a function: the next free ones, or how many are taken.
#[derive(Clone, Copy)]
pub struct At {
    /// Of scopes.
    pub scope: u32,
    /// Of nodes.
    pub node: u32,
    /// Of functions.
    pub func: u32,
}

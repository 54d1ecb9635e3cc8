/// A worker of a node.
#[derive(Clone, Copy, Debug, PartialEq, Eq)]
pub enum Role {
    Handler,
    Patcher,
    Externaliser,
}

/// What a worker asks before each of its steps. It may let the worker wait.
pub trait Gate {
    /// Returns once the worker of that node may make its step of that number, from 0.
    fn pass(&self, node: u8, role: Role, step: u8);
}

/// A gate that returns at once.
#[derive(Clone, Copy, Debug)]
pub struct OpenGate;

impl Gate for OpenGate {
    fn pass(&self, _node: u8, _role: Role, _step: u8) {}
}

use linx_base::Inc;

/// What a link address means.
#[derive(Clone, Copy, Debug, PartialEq, Eq, Hash)]
pub enum Meaning {
    Free,
    /// It stands for an endpoint of the own node.
    Live(Inc),
    /// Its endpoint is closed, and the other side hasn't acknowledged that yet.
    Closing(Inc),
}

use linx_base::{NodeNo, Sequence};
use script_words::Command;

/// Commands in order, with every repeated block written out.
pub type Commands = Sequence<Command>;

/// An actor: the node that it runs on, and what it does there.
#[derive(Drop)]
pub struct ActorScript {
    pub node: NodeNo,
    pub commands: Commands,
}

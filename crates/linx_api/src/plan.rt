//! What no step of a fabric changes.
use linx_base::{LinkDecl, Names, NodeNo};
use std::marker::Model;

/// What no step of a fabric changes: the names, the links and the actors' nodes. No value of it is
/// made; contracts speak of it.
#[derive(Drop)]
pub struct Plan {
    names: Names,
    links: Vec<LinkDecl>,
    actors: Vec<NodeNo>,
}

impl Model for Plan {
    ghost use Rattle.linx_api.specs.Telling.{PlanParts};

    ghost Value = { PlanParts };

    ghost view = { λ p. record {
      names = p.names;
      shape = record { links = p.links.items; actors = p.actors.items };
    } };
}

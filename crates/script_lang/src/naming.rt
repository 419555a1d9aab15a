//! Names of nodes and links as their numbers.

ghost use Rattle.std.specs.Prelude.{◌≡◌, ◌<◌, ◌≤◌, length, position, IfOk, IfSome, IsTrue};
ghost use Rattle.std.specs.Str.{bytes_eq};
ghost use Rattle.script_lang.specs.Limits.{link_limit};
ghost use Rattle.script_words.specs.declared.line_error.LineError.TheVariants as errors;
ghost use Rattle.script_words.specs.Gives.{Gives};
ghost use Rattle.script_lang.specs.Fits.{is_among, is_numbered, is_node, is_link};
ghost use Rattle.script_lang.specs.Naming.{unknown_name, number_among, node_named, link_named};

use crate::script::Script;
use linx_base::{LinkNo, Name, NodeNo};
use script_words::{BadKind, Fault, LineError};

/// No earlier line declares a node or a link of this name, or the link has no end on the actor's
/// node.
pub(crate) fn unknown_name(name: &Name) -> LineError
    ensures { result ≡ errors.Bad (unknown_name name.now) }
{
    LineError::Bad(Fault::about(BadKind::UnknownName, name.bytes()))
}

/// The place of a name among those.
fn place_of_name(names: &[Name], name: &Name) -> Option<usize>
    ensures place { result ≡ position (λ other. bytes_eq other name.now) names.now }
    ensures within { IfSome result (λ k. k < length names.now) }
{
    names.iter().position(|other| other.same(name))
}

/// Whether the name is among those.
pub(crate) fn is_taken(names: &[Name], name: &Name) -> bool
    ensures { result ≡ is_among names.now name.now }
{
    names.iter().any(|other| other.same(name))
}

/// The number, from 1, of a name among those.
fn number_of_name(names: &[Name], name: &Name) -> Result<u32, LineError>
    requires { length names.now ≤ link_limit }
    ensures gives { Gives (λ n. n) result (number_among names.now name.now) }
    ensures numbered { IfOk result (λ n. IsTrue (is_numbered (length names.now) n)) }
{
    match place_of_name(names, name) {
        Some(place) => Ok(place as u32 + 1),
        None => Err(unknown_name(name)),
    }
}

/// The node of this name.
pub(crate) fn node_of_name(script: &Script, name: &Name) -> Result<NodeNo, LineError>
    ensures gives { Gives (λ n. n) result (node_named script.now name.now) }
    ensures declared { IfOk result (λ n. IsTrue (is_node script.now n)) }
{
    let number = number_of_name(script.names().nodes.as_slice(), name)?;
    Ok(NodeNo(number))
}

/// The link of this name.
pub(crate) fn link_of_name(script: &Script, name: &Name) -> Result<LinkNo, LineError>
    ensures gives { Gives (λ l. l) result (link_named script.now name.now) }
    ensures declared { IfOk result (λ l. IsTrue (is_link script.now l)) }
{
    let number = number_of_name(script.names().links.as_slice(), name)?;
    Ok(LinkNo(number))
}

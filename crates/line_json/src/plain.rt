//! Tapes whose tree `serde_json` reads.
ghost use Rattle.std.specs.Prelude.{◌≡◌, map};
ghost use Rattle.json.specs.Tape.{node_token};
ghost use Rattle.line_json.specs.Tape.{is_plain};

use crate::count::count_of;
use json::Node;

/// How many brackets `serde_json` lets be open at once.
const MAX_DEPTH: usize = 127;

/// Whether each number is a count, and no more than 127 brackets are open at once.
pub(crate) fn is_plain(nodes: &[Node<'_>]) -> bool
    ensures { result ≡ is_plain 127 (map node_token nodes.now) }
{
    let mut room = MAX_DEPTH;
    for node in nodes {
        match *node {
            Node::Object(_) | Node::Array(_) => {
                if room == 0 {
                    return false;
                }
                room -= 1;
            }
            Node::EndObject | Node::EndArray => room += 1,
            Node::Number(text) => {
                if count_of(text).is_none() {
                    return false;
                }
            }
            _ => {}
        }
    }
    true
}

//! Lists of host writes that share their beginnings, as nodes of an arena.

ghost use Rattle.std.specs.Prelude.{◌≡◌, ◌≤◌, ◌+◌, ◌++◌, ◌∷◌, [], IfOk, OnOk, OnErr, length};
ghost use Rattle.dr_lost.specs.Nodes.{list_of, AreEarlier};

use std::alloc::{AllocError, Global};

/// A list of host writes that isn't empty: the last one, and the number of the node of those before it.
/// Node 0, the empty list, isn't stored: node 1 is the first of the arena.
#[derive(Clone, Copy)]
pub(crate) struct Node {
    pub(crate) write: u32,
    pub(crate) before: usize,
}

// Adds a node, and gives its number.
pub(crate) fn add_node(
    nodes: &mut Vec<Node>,
    write: u32,
    before: usize,
) -> Result<usize, AllocError>
    ensures number { IfOk result (λ k. k ≡ length nodes.old.items + 1) }
    ensures added { OnOk result (nodes.new.items ≡ nodes.old.items ++ record { write = write; before = before } ∷ []) }
    ensures same { OnErr result (nodes.new.items ≡ nodes.old.items) }
{
    nodes.push(Node { write, before })?;
    Ok(nodes.len())
}

// The writes of a node's list, first to last.
pub(crate) fn writes_of(
    nodes: &[Node],
    alloc: Global,
    number: usize,
) -> Result<Vec<u32>, AllocError>
    requires earlier { AreEarlier nodes.now }
    requires within { number ≤ length nodes.now }
    ensures { IfOk result (λ r. r.items ≡ list_of nodes.now number) }
{
    let mut writes = Vec::new(alloc);
    let mut number = number;
    while number > 0 {
        let node = nodes[number - 1];
        writes.push(node.write)?;
        number = node.before;
    }
    writes.reverse();
    Ok(writes)
}

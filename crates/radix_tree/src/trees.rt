//! A tree: its keys and its table of nodes, which agree as long as it stands.
//! Callers see two lists; only the boxes of the nodes can change.

ghost use Rattle.std.specs.Prelude.{◌≡◌, ◌<◌, length};
ghost use Rattle.radix_tree.specs.Table.{IsTable, put_fit};

use crate::Node;
use fixed_box::Box3;
use morton_key::Key;
use std::marker::Model;

/// The tree of a list of lawful keys.
///
/// There is one node fewer than keys, and none for no key. The root has number 0; of a node with split `s` the left
/// child, if it is inner, has number `s`, and the right one `s + 1`.
#[derive(Debug, Drop)]
pub struct Tree {
    keys: Vec<Key>,
    nodes: Vec<Node>,
}

impl Model for Tree {
    ghost use Rattle.radix_tree.specs.Table.{Contents, IsTable};

    ghost Value = { Contents };

    ghost view = { λ t. record { keys = t.keys.items; nodes = t.nodes.items } };

    ghost invariant = { λ t. IsTable (record { keys = t.keys.items; nodes = t.nodes.items }) };
}

impl Tree {
    /// The tree of these keys and nodes, which are its table.
    pub fn of(keys: Vec<Key>, nodes: Vec<Node>) -> Tree
        requires { IsTable (record { keys = keys.items; nodes = nodes.items }) }
        ensures keys { result.keys ≡ keys.items }
        ensures nodes { result.nodes ≡ nodes.items }
    {
        Tree { keys, nodes }
    }

    /// The keys, in order. It takes no memory.
    pub fn keys(&self) -> &[Key]
        ensures keys { result.now ≡ self.now.keys }
        ensures table { IsTable self.now }
    {
        self.keys.as_slice()
    }

    /// The inner nodes, by number. It takes no memory.
    pub fn nodes(&self) -> &[Node]
        ensures nodes { result.now ≡ self.now.nodes }
        ensures table { IsTable self.now }
    {
        self.nodes.as_slice()
    }

    /// Gives the node of that number another box. Nothing else changes.
    pub fn put(&mut self, number: u32, fit: Box3)
        requires { number < length self.old.nodes }
        ensures keys { self.new.keys ≡ self.old.keys }
        ensures nodes { self.new.nodes ≡ put_fit self.old.nodes number fit }
    {
        self.nodes[number as usize].fit = fit;
    }
}

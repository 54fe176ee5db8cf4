//! The home of the nodes with their weights of all values.

ghost use Rattle.std.specs.Prelude.{◌≡◌, ◌<◌, ℕ, [], length, IfOk, MatchResult, OnOk, slice_index_or};
ghost use Rattle.call_tree.specs.Nodes.{AreAlike, AreSameTables, AreTables, HasNodeMore, IsReweighed, linked, nodes_of};
ghost use Rattle.call_tree.specs.Nodes.{without_weight};
ghost use Rattle.call_tree.specs.Shape.{at};

use crate::node::{Link, Node};
use profile_rows::Width;
use shared_pages::Pages;
use std::alloc::{AllocError, Global};
use std::marker::Model;

/// Nodes in order, in pages that may have other owners. Where they stand and what they weigh are apart: an addition to
/// nodes that are there copies weights alone.
#[derive(Drop)]
pub struct Nodes {
    width: Width,
    links: Pages<Link>,
    /// For each value what each node weighs, and perhaps some zeros more.
    weights: Vec<Pages<u64>>,
}

impl Model for Nodes {
    ghost use Rattle.std.specs.Prelude.{◌≡◌, ◌<◌, List, length, map};
    ghost use Rattle.call_tree.specs.declared.node.Node.{Node};
    ghost use Rattle.call_tree.specs.Nodes.{AreTables, weighed};

    ghost Value = { List (List Node) };

    ghost view = { λ n. map (weighed n.links) n.weights.items };

    ghost invariant = { λ n. (0 < n.width) × (length n.weights.items ≡ n.width)
        × AreTables (length n.links) n.weights.items };
}

impl Nodes {
    /// No nodes.
    pub fn new(alloc: Global, width: Width) -> Result<Nodes, AllocError>
        ensures { IfOk result (λ nodes. (length nodes ≡ width) × ((value : ℕ) → nodes_of nodes value ≡ [])) }
    {
        let mut weights = Vec::new(alloc);
        for _ in 0..width.get() {
            weights.push(Pages::new(alloc)?)?;
        }
        let links = Pages::new(alloc)?;
        Ok(Nodes {
            width,
            links,
            weights,
        })
    }

    /// How many values a node has.
    pub fn width(&self) -> Width
        ensures { result ≡ length self.now }
    {
        self.width
    }

    /// How many nodes there are.
    pub fn len(&self) -> usize
        ensures { result ≡ length (nodes_of self.now 0) }
    {
        self.links.len()
    }

    /// Does nothing; its clause says what all nodes keep true.
    pub fn facts(&self)
        ensures { AreAlike self.now }
    {
        let _ = &self.links;
    }

    /// Where a node stands.
    pub fn link(&self, slot: usize) -> Link
        requires { slot < length (nodes_of self.now 0) }
        ensures { linked result 0 ≡ without_weight (at (nodes_of self.now 0) slot) }
    {
        *self.links.read(slot)
    }

    /// What a node weighs by a value.
    pub fn weight(&self, value: u32, slot: usize) -> u64
        requires value { value < length self.now }
        requires within { slot < length (nodes_of self.now value) }
        ensures { result ≡ (at (nodes_of self.now value) slot).own }
    {
        *self.weights[value as usize].read(slot)
    }

    /// A node with its weight of a value.
    pub fn read(&self, value: u32, slot: usize) -> Node
        requires value { value < length self.now }
        requires within { slot < length (nodes_of self.now value) }
        ensures { result ≡ at (nodes_of self.now value) slot }
    {
        let link = self.links.read(slot);
        Node {
            parent: link.parent,
            name: link.name,
            counts: link.counts,
            own: *self.weights[value as usize].read(slot),
        }
    }

    /// Puts a weight of one value in place of another. Other owners of the pages keep theirs. Nothing changes where
    /// memory runs out.
    pub fn put_weight(&mut self, value: u32, slot: usize, weight: u64) -> Result<(), AllocError>
        requires value { value < length self.old }
        requires within { slot < length (nodes_of self.old value) }
        ensures { MatchResult result (λ _. IsReweighed self.old value slot weight self.new)
            (λ _. self.new ≡ self.old) }
    {
        let table = &mut self.weights[value as usize];
        table.replace(slot, weight)?;
        Ok(())
    }

    /// Another owner of the same pages.
    pub fn share(&self) -> Result<Nodes, AllocError>
        ensures { IfOk result (λ nodes. nodes ≡ self.now) }
    {
        Ok(Nodes {
            width: self.width,
            links: self.links.share()?,
            weights: self.weights.clone()?,
        })
    }

    /// One more node of weight 0, at the end.
    pub fn append(&mut self, link: Link) -> Result<(), AllocError>
        ensures { MatchResult result (λ _. HasNodeMore self.old link self.new) (λ _. self.new ≡ self.old) }
    {
        take_room(&mut self.weights, self.links.len())?;
        self.links.append(link)
    }
}

/// Room for one more node in each table.
fn take_room(tables: &mut Vec<Pages<u64>>, size: usize) -> Result<(), AllocError>
    requires { AreTables size tables.old.items }
    ensures same { AreSameTables size tables.old.items tables.new.items }
    ensures longer { OnOk result
        ((k : ℕ) → k < length tables.new.items → size < length (slice_index_or tables.new.items k [])) }
{
    for index in 0..tables.len() {
        let table = &mut tables[index];
        if table.len() == size {
            table.append(0)?;
        }
    }
    Ok(())
}

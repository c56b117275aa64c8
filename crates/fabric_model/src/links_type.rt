// What is kept of links and nets.
ghost use Rattle.std.specs.Prelude.{◌≡◌, ◌<◌, length};
ghost use Rattle.fabric_model.specs.Links.{class_in, is_read_in};

use std::marker::Model;

/// The links of a database that an image sets, the classes of joined nets, and the nets that are read.
///
/// Contracts see the indexes of the links, and for each net its class and a mark whether it is read. `AreLinks` says that these are what
/// a database and an image configure. No call allocates memory.
#[derive(Drop)]
pub struct Links {
    pub(crate) buffers: Vec<u32>,
    pub(crate) routings: Vec<u32>,
    pub(crate) classes: Vec<u32>,
    pub(crate) reads: Vec<bool>,
}

impl Model for Links {
    ghost use Rattle.std.specs.Prelude.{◌≡◌, length};
    ghost use Rattle.fabric_model.specs.Links.{LinkSet};

    ghost Value = { LinkSet };

    ghost view = { λ links. record { buffers = links.buffers.items; routings = links.routings.items; classes = links.classes.items; reads = links.reads.items } };

    ghost invariant = { λ links. length links.reads.items ≡ length links.classes.items };
}

impl Links {
    /// How many nets there are: those of the database, and inner nets after them.
    pub fn net_count(&self) -> usize
        ensures { result ≡ length self.now.classes }
    {
        self.classes.len()
    }

    /// The indexes of the buffers that are on, among the buffers of the database, in ascending order.
    pub fn buffers(&self) -> &[u32]
        ensures { result.now ≡ self.now.buffers }
    {
        &self.buffers
    }

    /// The indexes of the routings that are on, among the routings of the database, in ascending order.
    pub fn routings(&self) -> &[u32]
        ensures { result.now ≡ self.now.routings }
    {
        &self.routings
    }

    /// The class of joined nets that a net belongs to, named by its least net.
    pub fn class_of(&self, net: u32) -> u32
        requires { net < length self.now.classes }
        ensures { result ≡ class_in self.now net }
    {
        self.classes[net as usize]
    }

    /// Whether a net is the source of a buffer that is on, or an end of a routing that is on.
    pub fn is_read(&self, net: u32) -> bool
        requires { net < length self.now.classes }
        ensures { result ≡ is_read_in self.now net }
    {
        self.reads[net as usize]
    }
}

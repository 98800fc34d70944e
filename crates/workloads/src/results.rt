//! Results, taken into a digest: each kind of result has a number of its own, and all that it carries
//! goes along.
use crate::digest::Digest;
use std::alloc::{AllocError, Global};
use tg_graph::{Graph, Name, Refusal, Reply, Right, Rights, Rule};
use tg_text::write_graph;

// The rights, a bit for each.
fn bits_of(rights: Rights) -> u64 {
    let mut bits = 0_u64;
    for right in &Right::ALL {
        bits = (bits << 1) | u64::from(rights.has(*right));
    }
    bits
}

impl Digest {
    /// Takes a place in, behind the number of its kind.
    pub(crate) fn add_place(&mut self, kind: u64, place: usize) {
        self.add(kind);
        self.add(place as u64);
    }

    /// Takes a name in, behind the number of its kind.
    pub(crate) fn add_name(&mut self, kind: u64, name: Name) {
        self.add(kind);
        self.add_bytes(name.as_bytes());
    }

    /// Takes a place and a name in, behind the number of their kind.
    pub(crate) fn add_place_and_name(&mut self, kind: u64, place: usize, name: Name) {
        self.add_place(kind, place);
        self.add_bytes(name.as_bytes());
    }

    // Takes a rule's names and rights in, behind the number of its kind.
    fn add_parts(&mut self, kind: u64, names: &[Name], rights: Rights) {
        self.add(kind);
        for name in names {
            self.add_bytes(name.as_bytes());
        }
        self.add(bits_of(rights));
    }

    /// Takes a rule in.
    pub(crate) fn add_rule(&mut self, rule: &Rule) {
        match *rule {
            Rule::Take { x, y, z, rights } => self.add_parts(1, &[x, y, z], rights),
            Rule::Grant { x, y, z, rights } => self.add_parts(2, &[x, y, z], rights),
            Rule::Create { x, n, rights } => self.add_parts(3, &[x, n], rights),
            Rule::Remove { x, y, rights } => self.add_parts(4, &[x, y], rights),
        }
    }

    // Takes a refusal in.
    fn add_refusal(&mut self, refusal: &Refusal) {
        match *refusal {
            Refusal::Unknown(name) => self.add_name(21, name),
            Refusal::Taken(name) => self.add_name(22, name),
            Refusal::Empty => self.add(23),
            Refusal::NoTake => self.add(24),
            Refusal::NoGrant => self.add(25),
            Refusal::NotHeld(rights) => self.add_parts(26, &[], rights),
            Refusal::Full => self.add(27),
        }
    }

    /// Takes the reply to a step in.
    pub(crate) fn add_reply(&mut self, reply: &Reply) {
        match reply {
            Reply::Done => self.add(11),
            Reply::Yes => self.add(12),
            Reply::No => self.add(13),
            Reply::Refused(refusal) => self.add_refusal(refusal),
        }
    }

    // Takes the names of the vertices in, in the order of their positions.
    fn add_vertices(&mut self, graph: &Graph) {
        for position in 0..graph.len() {
            if let Some(name) = graph.name_at(position) {
                self.add_bytes(name.as_bytes());
            }
        }
    }

    /// Takes a graph in: its vertices in order, and its canonical text.
    pub(crate) fn add_graph(&mut self, alloc: Global, graph: &Graph) -> Result<(), AllocError> {
        self.add_vertices(graph);
        let written = write_graph(alloc, graph)?;
        self.add_bytes(&written);
        Ok(())
    }
}

//! How much is done.

/// How large the graphs are, and how often each kind of work is done, each time on another input.
#[derive(Clone, Copy)]
pub(crate) struct Size {
    /// The vertices of a graph: a power of two.
    pub(crate) vertices: usize,
    /// The vertices of a large graph: a power of two.
    pub(crate) many: usize,
    /// By how much lists of rules, commits and questions are divided.
    pub(crate) part: usize,
    /// How often the reading of graphs is done.
    pub(crate) readings: u64,
    /// How often rules are carried out.
    pub(crate) rules: u64,
    /// How often graphs are asked.
    pub(crate) asked: u64,
    /// How often tables are made.
    pub(crate) tables: u64,
    /// How often sessions are played.
    pub(crate) plays: u64,
    /// How often sessions that ask are played.
    pub(crate) asking_plays: u64,
}

impl Size {
    /// As users have it.
    pub(crate) fn full() -> Size {
        Size {
            vertices: 1024,
            many: 4096,
            part: 1,
            readings: 8,
            rules: 8,
            asked: 2,
            tables: 4,
            plays: 2,
            asking_plays: 1,
        }
    }

    /// A trial of all that is done, on small graphs.
    pub(crate) fn trial() -> Size {
        Size {
            vertices: 64,
            many: 128,
            part: 64,
            readings: 1,
            rules: 1,
            asked: 1,
            tables: 1,
            plays: 1,
            asking_plays: 1,
        }
    }

    /// So many of what is divided.
    pub(crate) fn part_of(&self, count: usize) -> usize {
        count.checked_div(self.part).unwrap_or(0)
    }
}

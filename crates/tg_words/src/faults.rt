//! What can be wrong with a text.
use std::alloc::AllocFailed;

/// What is wrong with a line, in the order in which it is looked for.
#[derive(Clone, Copy, PartialEq, Eq, Debug)]
pub enum TextKind {
    /// The line has over `MOST_LINE_BYTES` bytes.
    LineTooLong,
    /// The word that says what the line is, is missing or none of those allowed there.
    BadWord,
    /// The line has not the number of words of its form.
    WordCount,
    /// A word for a number is no number, or out of its range.
    BadNumber,
    /// A word for a name is no name.
    BadName,
    /// A word for rights writes none; for an edge and in a policy also the empty set, and for an edge of
    /// version 1 `a` and `d`.
    BadRights,
    /// The vertex was named by an earlier line.
    DuplicateVertex,
    /// `MOST_VERTICES` vertices are there already, in version 1 `MOST_VERTICES_OF_ONE`.
    TooManyVertices,
    /// A source or target is named by no earlier line; in a policy, an operand is no vertex of the graph.
    UnknownVertex,
    /// An operand is a group that no earlier line made.
    UnknownGroup,
    /// An earlier line has the same source and target.
    DuplicateEdge,
    /// `MOST_RULES` rules, `MOST_EVENTS` events, or `MOST_POLICY_LINES` lines of a policy, are there
    /// already.
    TooMany,
    /// The text ends before both header lines.
    NoHeader,
    /// No line of a policy states anything: there are groups at the most.
    NoClaim,
}

/// Why a text was not read.
#[derive(Clone, Copy, PartialEq, Eq, Debug)]
pub enum TextFault {
    /// The first faulty line, counted from 1, and the first thing wrong with it.
    At { line: usize, kind: TextKind },
    /// There was no memory. A later line may be faulty.
    Memory,
}

/// Why a line was not read.
#[derive(Clone, Copy, PartialEq, Eq, Debug)]
pub enum LineFault {
    /// What is wrong with it.
    Kind(TextKind),
    /// There was no memory.
    Memory,
}

impl LineFault {
    ghost use Rattle.std.specs.Prelude.{◌≡◌};
    ghost use Rattle.tg_words.specs.Reading.{fault_on_line};

    /// The fault of the text whose line this is.
    pub(crate) fn on_line(self, line: usize) -> TextFault
        ensures { result ≡ fault_on_line self line }
    {
        match self {
            LineFault::Kind(kind) => TextFault::At { line, kind },
            LineFault::Memory => TextFault::Memory,
        }
    }
}

impl From<TextKind> for LineFault {
    ghost use Rattle.std.specs.Prelude.{◌≡◌};
    ghost use Rattle.tg_words.specs.declared.faults.LineFault.TheVariants.{Kind};

    ghost from_gives = { λ kind fault. fault ≡ Kind kind };

    fn from(kind: TextKind) -> LineFault {
        LineFault::Kind(kind)
    }
}

impl<T: Drop> From<AllocFailed<T>> for LineFault {
    ghost use Rattle.std.specs.Prelude.{◌≡◌};
    ghost use Rattle.tg_words.specs.declared.faults.LineFault.TheVariants.{Memory};

    ghost from_gives = { λ _ fault. fault ≡ Memory };

    fn from(_error: AllocFailed<T>) -> LineFault {
        LineFault::Memory
    }
}

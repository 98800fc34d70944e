//! What the command line asks for.
ghost use Rattle.std.specs.Prelude.{◌≡◌, map};
ghost use Rattle.std.specs.Option.{option_map};
ghost use Rattle.tg_inputs.specs.Calls.{call_of, call_words, command_of, command_words, graph_command, text_command, texts_call, table_command, two_words_call, question, are_kept, cut_command, workers_of, alone, request_of, request_words};
ghost use Rattle.std.specs.Prelude.{◌≤◌, length};
ghost use Rattle.tg_words.specs.Words.{is_digit, with_digits};

// How many workers make a table where the words do not say it.
const USUAL_WORKERS: u64 = 4;

// How many edges may be kept.
const MOST_KEPT: usize = 64;

/// A report to make, with the words of the command line as they were given.
#[derive(Clone, Copy, PartialEq, Eq, Debug)]
pub enum Command<'a> {
    /// A graph and rules in one text, and what the rules lead to.
    Case,
    /// The canonical text of a graph.
    Check,
    /// What rules lead to.
    Apply,
    /// The islands of a graph.
    Islands,
    /// Whether x can come to have the rights over y.
    Share {
        rights: &'a str,
        x: &'a str,
        y: &'a str,
    },
    /// Rules that give x the rights over y.
    Derive {
        rights: &'a str,
        x: &'a str,
        y: &'a str,
    },
    /// Who can come to have the right over whom, found by so many workers.
    Table {
        right: &'a str,
        workers: u64,
    },
    /// What a script leads to.
    Run,
    /// Who can come to have the rights over y.
    Who {
        rights: &'a str,
        y: &'a str,
    },
    /// What x can come to have, and over whom.
    Reach {
        x: &'a str,
    },
    /// Whether the graph keeps a policy, and with `why` how it comes that it does not.
    Verify {
        why: bool,
    },
    /// Which rights have to go so that x can't come to have the right over y. Edges are kept by three words
    /// each: `--keep` and the names of its ends.
    Cut {
        right: &'a str,
        x: &'a str,
        y: &'a str,
        kept: &'a [&'a str],
    },
}

/// Where the texts of a command come from.
#[derive(Clone, Copy, PartialEq, Eq, Debug)]
pub enum Call<'a> {
    /// The one text stands on standard input, and the command is `Case`.
    Input,
    /// The graph stands in a file.
    File(Command<'a>, &'a str),
    /// The graph and a second text stand in files.
    Files(Command<'a>, &'a str, &'a str),
    /// The graph and a script stand in files, and the seats of the script race.
    Race(&'a str, &'a str),
}

/// What the words of a command line ask for.
#[derive(Clone, Copy, PartialEq, Eq, Debug)]
pub enum Request<'a> {
    /// The forms of all command lines.
    Help,
    /// The name and the version of the program.
    Version,
    /// A report.
    Report(Call<'a>),
}

impl<'a> Call<'a> {
    /// The command whose report is asked for; a race has none.
    pub fn command(&self) -> Option<Command<'a>>
        ensures { option_map command_words result ≡ command_of (call_words self.now) }
    {
        match *self {
            Call::Input => Some(Command::Case),
            Call::File(command, _) | Call::Files(command, _, _) => Some(command),
            Call::Race(_, _) => None,
        }
    }
}

fn graph_command(name: &str) -> Option<Command<'static>>
    ensures { option_map command_words result ≡ graph_command name.now }
{
    match name {
        "check" => Some(Command::Check),
        "islands" => Some(Command::Islands),
        _ => None,
    }
}

fn text_command(name: &str) -> Option<Command<'static>>
    ensures { option_map command_words result ≡ text_command name.now }
{
    match name {
        "apply" => Some(Command::Apply),
        "run" => Some(Command::Run),
        "verify" => Some(Command::Verify { why: false }),
        _ => None,
    }
}

fn is_digit(byte: u8) -> bool
    ensures { result ≡ is_digit byte }
{
    b'0' <= byte && byte <= b'9'
}

// The number that digits write, at most four of them.
fn with_digits(digits: &[u8]) -> Option<u64>
    requires { length digits.now ≤ 4 }
    ensures { result ≡ with_digits 0 digits.now }
{
    let mut number = 0;
    for byte in digits {
        if !is_digit(*byte) {
            return None;
        }
        number = 10 * number + u64::from(*byte - b'0');
    }
    Some(number)
}

// The number of workers that one to four digits write.
fn workers_of(word: &[u8]) -> Option<u64>
    ensures { result ≡ workers_of word.now }
{
    match word {
        [] => None,
        [_, rest @ ..] if rest.len() > 3 => None,
        _ => with_digits(word),
    }
}

fn texts_call<'a>(name: &str, graph: &'a str, second: &'a str) -> Option<Call<'a>>
    ensures { option_map call_words result ≡ texts_call name.now graph.now second.now }
{
    match name {
        "race" => Some(Call::Race(graph, second)),
        "table" => Some(Call::File(
            Command::Table {
                right: second,
                workers: USUAL_WORKERS,
            },
            graph,
        )),
        "reach" => Some(Call::File(Command::Reach { x: second }, graph)),
        _ => Some(Call::Files(text_command(name)?, graph, second)),
    }
}

fn table_command<'a>(right: &'a str, option: &str, workers: &str) -> Option<Command<'a>>
    ensures { option_map command_words result ≡ table_command right.now option.now workers.now }
{
    match option {
        "--workers" => {
            let workers = workers_of(workers.as_bytes())?;
            Some(Command::Table { right, workers })
        }
        _ => None,
    }
}

fn question<'a>(name: &str, right: &'a str, x: &'a str, y: &'a str) -> Option<Command<'a>>
    ensures { option_map command_words result ≡ question name.now right.now x.now y.now }
{
    match name {
        "share" => Some(Command::Share {
            rights: right,
            x,
            y,
        }),
        "derive" => Some(Command::Derive {
            rights: right,
            x,
            y,
        }),
        "table" => table_command(right, x, y),
        "cut" => Some(Command::Cut {
            right,
            x,
            y,
            kept: &[],
        }),
        _ => None,
    }
}

// Whether the words keep edges: `--keep` and two names for each, and no more of them than may be.
fn are_kept(words: &[&str]) -> bool
    ensures { result ≡ are_kept (map (λ word. word.now) words.now) }
{
    if words.len() > 3 * MOST_KEPT {
        return false;
    }
    let mut left = words;
    while let [option, _, _, rest @ ..] = left {
        if *option != "--keep" {
            return false;
        }
        left = rest;
    }
    left.is_empty()
}

// A question with words behind y.
fn cut_command<'a>(
    name: &str,
    right: &'a str,
    x: &'a str,
    y: &'a str,
    kept: &'a [&'a str],
) -> Option<Command<'a>>
    ensures { option_map command_words result
        ≡ cut_command name.now right.now x.now y.now (map (λ word. word.now) kept.now) }
{
    match name {
        "cut" if are_kept(kept) => Some(Command::Cut { right, x, y, kept }),
        _ => None,
    }
}

fn two_words_call<'a>(
    name: &str,
    graph: &'a str,
    second: &'a str,
    third: &'a str,
) -> Option<Call<'a>>
    ensures { option_map call_words result
        ≡ two_words_call name.now graph.now second.now third.now }
{
    match (name, third) {
        ("who", y) => Some(Call::File(Command::Who { rights: second, y }, graph)),
        ("verify", "--why") => Some(Call::Files(Command::Verify { why: true }, graph, second)),
        _ => None,
    }
}

// The call that words ask for.
fn call_in<'a>(words: &'a [&'a str]) -> Option<Call<'a>>
    ensures { option_map call_words result ≡ call_of (map (λ word. word.now) words.now) }
{
    match words {
        [] => Some(Call::Input),
        [name, graph] => Some(Call::File(graph_command(name)?, graph)),
        [name, graph, second] => texts_call(name, graph, second),
        [name, graph, second, third] => two_words_call(name, graph, second, third),
        [name, graph, right, x, y] => Some(Call::File(question(name, right, x, y)?, graph)),
        [name, graph, right, x, y, kept @ ..] => {
            Some(Call::File(cut_command(name, right, x, y, kept)?, graph))
        }
        _ => None,
    }
}

// What a word asks for that stands alone.
fn alone(word: &str) -> Option<Request<'static>>
    ensures { option_map request_words result ≡ alone word.now }
{
    match word {
        "--help" | "-h" => Some(Request::Help),
        "--version" | "-V" => Some(Request::Version),
        _ => None,
    }
}

/// What the words of a command line, its own name left out, ask for.
pub fn read_words<'a>(words: &'a [&'a str]) -> Option<Request<'a>>
    ensures { option_map request_words result ≡ request_of (map (λ word. word.now) words.now) }
{
    match words {
        [word] => alone(word),
        _ => Some(Request::Report(call_in(words)?)),
    }
}

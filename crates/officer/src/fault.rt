//! What the program says where it gives no report.
ghost use Rattle.std.specs.Prelude.{◌≡◌};
ghost use Rattle.std.specs.Option.{option_map};
ghost use Rattle.officer.specs.Faults.{form_line_of, line_of, status_of, usage_of};

use crate::forms::Form;

/// Why there is no report.
#[derive(Clone, Copy, PartialEq, Eq, Debug)]
pub enum Cause {
    /// The graph can't be read.
    Graph,
    /// The second file can't be read.
    Second,
    /// An input is too large.
    TooLarge,
    /// There is no memory.
    Memory,
    /// The report can't be written.
    Write,
    /// The words of the command line have no form, and this one is the nearest; or they can't be read.
    Words(Option<Form>),
}

/// The line on standard error, without its end, and the status of the program.
pub fn fault_line(cause: Cause) -> (&'static str, u8)
    ensures line { result.0.now ≡ line_of cause }
    ensures status { result.1 ≡ status_of cause }
{
    match cause {
        Cause::Graph => ("officer: cannot read the graph", 3),
        Cause::Second => ("officer: cannot read the second file", 3),
        Cause::TooLarge => ("officer: input too large", 3),
        Cause::Memory => ("officer: no memory", 3),
        Cause::Write => ("officer: cannot write", 3),
        Cause::Words(_) => ("officer: bad command line", 2),
    }
}

// The line that tells a form.
fn usage(form: Form) -> &'static str
    ensures { result.now ≡ usage_of form }
{
    match form {
        Form::Check => "officer: usage: officer check G",
        Form::Apply => "officer: usage: officer apply G RULES",
        Form::Islands => "officer: usage: officer islands G",
        Form::Share => "officer: usage: officer share G RIGHTS X Y",
        Form::Derive => "officer: usage: officer derive G RIGHTS X Y",
        Form::Table => "officer: usage: officer table G RIGHT [--workers N]",
        Form::Who => "officer: usage: officer who G RIGHTS Y",
        Form::Reach => "officer: usage: officer reach G X",
        Form::Verify => "officer: usage: officer verify G POLICY [--why]",
        Form::Cut => "officer: usage: officer cut G RIGHT X Y [--keep A B ..]",
        Form::Run => "officer: usage: officer run G SCRIPT",
        Form::Race => "officer: usage: officer race G SCRIPT",
    }
}

/// The second line on standard error, without its end: for a bad command line the form that is nearest, or where
/// all forms stand.
pub fn form_line(cause: Cause) -> Option<&'static str>
    ensures { option_map (λ line. line.now) result ≡ form_line_of cause }
{
    match cause {
        Cause::Words(Some(form)) => Some(usage(form)),
        Cause::Words(None) => Some("officer: officer --help lists all forms"),
        Cause::Graph | Cause::Second | Cause::TooLarge | Cause::Memory | Cause::Write => None,
    }
}

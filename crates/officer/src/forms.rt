//! The forms of command lines that begin with a command, and which of them is nearest to words that have none.
ghost use Rattle.std.specs.Prelude.{◌≡◌, map};
ghost use Rattle.officer.specs.Forms.{begins, command_of, common, is_longest, is_nearest, nearest_form, nearest_of};

/// The form of the command lines of a command.
#[derive(Clone, Copy, PartialEq, Eq, Debug)]
pub enum Form {
    Check,
    Apply,
    Islands,
    Share,
    Derive,
    Table,
    Who,
    Reach,
    Verify,
    Cut,
    Run,
    Race,
}

// The forms in their order.
const FORMS: [Form; 12] = [
    Form::Check,
    Form::Apply,
    Form::Islands,
    Form::Share,
    Form::Derive,
    Form::Table,
    Form::Who,
    Form::Reach,
    Form::Verify,
    Form::Cut,
    Form::Run,
    Form::Race,
];

impl Form {
    /// The first word.
    pub fn command(self) -> &'static str
        ensures { result.now ≡ command_of self }
    {
        match self {
            Form::Check => "check",
            Form::Apply => "apply",
            Form::Islands => "islands",
            Form::Share => "share",
            Form::Derive => "derive",
            Form::Table => "table",
            Form::Who => "who",
            Form::Reach => "reach",
            Form::Verify => "verify",
            Form::Cut => "cut",
            Form::Run => "run",
            Form::Race => "race",
        }
    }
}

// How many bytes two words have in common at their beginnings.
fn common(word: &[u8], other: &[u8]) -> usize
    ensures { result ≡ common word.now other.now }
{
    word.iter()
        .zip(other)
        .take_while(|(byte, its)| byte == its)
        .count()
}

// How many bytes a word and the command of a form have in common at their beginnings.
fn begins(word: &[u8], form: Form) -> usize
    ensures { result ≡ begins word.now form }
{
    common(word, form.command().as_bytes())
}

// Whether a word begins like none of these forms for longer.
fn is_longest(forms: &[Form], word: &[u8], length: usize) -> bool
    ensures { result ≡ is_longest forms.now word.now length }
{
    forms.iter().all(|form| begins(word, *form) <= length)
}

// Whether a word begins like the form, and like no other of these forms for longer.
fn is_nearest(forms: &[Form], word: &[u8], form: Form) -> bool
    ensures { result ≡ is_nearest forms.now word.now form }
{
    let length = begins(word, form);
    length > 0 && is_longest(forms, word, length)
}

// The first of these forms that is nearest to a word.
fn nearest_of(forms: &[Form], word: &[u8]) -> Option<Form>
    ensures { result ≡ nearest_of forms.now word.now }
{
    forms
        .iter()
        .copied()
        .find(|form| is_nearest(forms, word, *form))
}

/// The form that is nearest to words: that of the command which has the longest beginning in common with the
/// first of them, and of several such the first; none where no command has a byte in common with it.
pub fn nearest_form(words: &[&str]) -> Option<Form>
    ensures { result ≡ nearest_form (map (λ word. word.now) words.now) }
{
    nearest_of(&FORMS, words.first()?.as_bytes())
}

//! Rules as lines of a report.
ghost use Rattle.std.specs.Prelude.{◌≡◌, ◌++◌, take, OnOk, OnErr};
ghost use Rattle.std.specs.Vec.{vec_len};
ghost use Rattle.tg_text.specs.RoundTrips.{lines_of_rules};
ghost use Rattle.tg_policies.specs.Derived.{derivation_report};

use std::alloc::AllocError;
use tg_graph::Rule;
use tg_text::{append_number, append_rule};

// Appends the lines of rules. After an error the text may have some of them behind what it had.
fn add_rules(text: &mut Vec<u8>, rules: &[Rule]) -> Result<(), AllocError>
    ensures added { OnOk result (text.new.items ≡ text.old.items ++ lines_of_rules rules.now) }
    ensures front { OnErr result (take (vec_len text.old) text.new.items ≡ text.old.items) }
{
    for rule in rules {
        append_rule(text, rule)?;
        text.push(b'\n')?;
    }
    Ok(())
}

// Appends the line with the number of rules, and their lines. After an error the text may have some of them
// behind what it had.
fn add_derivation(text: &mut Vec<u8>, rules: &[Rule]) -> Result<(), AllocError>
    ensures added { OnOk result (text.new.items
        ≡ text.old.items ++ (derivation_report rules.now).bytes) }
    ensures front { OnErr result (take (vec_len text.old) text.new.items ≡ text.old.items) }
{
    text.extend_from_slice(b"# yes ")?;
    append_number(text, rules.len())?;
    text.push(b'\n')?;
    add_rules(text, rules)?;
    Ok(())
}

// Leaves what stands in front of the place alone, where not all was appended.
fn all_or_none(
    text: &mut Vec<u8>,
    place: usize,
    appended: Result<(), AllocError>,
) -> Result<(), AllocError>
    ensures same { result ≡ appended }
    ensures all { OnOk appended (text.new.items ≡ text.old.items) }
    ensures none { OnErr appended (text.new.items ≡ take place text.old.items) }
{
    if appended.is_err() {
        text.truncate(place);
    }
    appended
}

/// Appends the lines of rules.
///
/// The one error is want of memory: the text is as it was then.
pub fn append_rules(text: &mut Vec<u8>, rules: &[Rule]) -> Result<(), AllocError>
    ensures appended { OnOk result (text.new.items ≡ text.old.items ++ lines_of_rules rules.now) }
    ensures kept { OnErr result (text.new.items ≡ text.old.items) }
{
    let len = text.len();
    let appended = add_rules(text, rules);
    all_or_none(text, len, appended)
}

/// Appends a derivation as a text of rules: a line with their number, and then each.
///
/// The one error is want of memory: the text is as it was then.
pub fn append_derivation(text: &mut Vec<u8>, rules: &[Rule]) -> Result<(), AllocError>
    ensures appended { OnOk result (text.new.items
        ≡ text.old.items ++ (derivation_report rules.now).bytes) }
    ensures kept { OnErr result (text.new.items ≡ text.old.items) }
{
    let len = text.len();
    let appended = add_derivation(text, rules);
    all_or_none(text, len, appended)
}

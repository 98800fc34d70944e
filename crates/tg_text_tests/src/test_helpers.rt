//! What several test modules share.
use tg_graph::{Name, NameFault, Rights, Rule};

/// A rule of each kind with these rights, over `a`, `b` and `c`.
pub(crate) fn rules(rights: Rights) -> Result<[Rule; 4], NameFault> {
    let x = Name::parse(b"a")?;
    let y = Name::parse(b"b")?;
    let z = Name::parse(b"c")?;
    Ok([
        Rule::Take { x, y, z, rights },
        Rule::Grant { x, y, z, rights },
        Rule::Create { x, n: y, rights },
        Rule::Remove { x, y, rights },
    ])
}

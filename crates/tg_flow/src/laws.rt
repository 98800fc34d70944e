//! Laws: how many units can go, and which edges cross those that are near.
ghost use Rattle.tg_flow.specs.Cuts.{UnitsCross, SidesPart};

/// Once no more units can go from x to the end, as many edges cross those that are near x as units have gone, none
/// of them kept; no set with x that no kept edge crosses is crossed by fewer; and those that are crossed by as few
/// have all of the near ones.
pub fn units_cross()
    ensures { UnitsCross }
{}

/// Whoever is near is not beyond, and the edges that cross the set of all that are not beyond are among those
/// that cross the near ones.
pub fn sides_part()
    ensures { SidesPart }
{}

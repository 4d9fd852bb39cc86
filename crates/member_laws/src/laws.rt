// Laws of the members of powersets. Each is a fact about the definitions, which a caller learns by calling the function.
ghost use Rattle.member_laws.specs.Bits.{UnionLaw, IntersectionLaw, SymmetricDifferenceLaw, DifferenceLaw, ComplementLaw, MemberLaw};

/// What an operator makes of the members of two powersets of one size has the scalars that it makes of their scalars, and so
/// has the complement; a member is there exactly where the scalars tell it.
pub fn members_law()
    ensures union { UnionLaw }
    ensures intersection { IntersectionLaw }
    ensures symmetric_difference { SymmetricDifferenceLaw }
    ensures difference { DifferenceLaw }
    ensures complement { ComplementLaw }
    ensures member { MemberLaw }
{}

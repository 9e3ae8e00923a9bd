//! Laws of the definitions on which no proof stands: the two that are contracts, each of a function that does nothing, and the
//! worked rows, which are lemmas in `proofs/Rows.antt`.
#![tactic(auto)]

ghost use Rattle.rdlpp_laws.specs.LimitLaws.{LargerLimits};
ghost use Rattle.rdlpp_laws.specs.LiteralLaws.{BodyCovered, LiteralSubstitution};

/// Substitution without its marks is literal substitution: the bytes of the body, with the bytes of each actual in the
/// place of its formal (IEEE 1364-2001, `define`).
pub fn literal_substitution()
    ensures substituted { LiteralSubstitution }
    ensures covered { BodyCovered }
{}

/// An output that no fault of a limit ends is the same with larger limits: of lines and sources, of an actual's bytes, of
/// open bodies, of definitions, of open conditionals, of open sources and of the output (this project's profile).
pub fn larger_limits()
    ensures larger { LargerLimits }
{}

//! What atoms are called plays no part in what models mean: laws, each in the clauses of an empty
//! function; a caller calls it.
//!
//! A renaming permutes numbers. A lasso shows the relations of another renamed where, at every
//! position, each of its relations has just the tuples of the other's, with each atom renamed.
#![tactic(auto)]

ghost use Rattle.core_renaming.specs.Renamings.{FormulasKeepTruth, TermsKeepTuples};

/// A law: where a lasso shows the relations of another renamed and integers stay as they are,
/// formulas hold in both alike and expressions have the same tuples, renamed, under names for atoms
/// renamed alike.
pub fn renaming_keeps_meanings()
    ensures formulas { FormulasKeepTruth }
    ensures terms { TermsKeepTuples }
{}

ghost use Rattle.core_renaming.specs.Environments.{FormulasKeepTruthIn, TermsKeepTuplesIn};

/// A law: the same in every two environments renamed alike, where names may stand for expressions.
pub fn renaming_keeps_meanings_in_environments()
    ensures formulas { FormulasKeepTruthIn }
    ensures terms { TermsKeepTuplesIn }
{}

ghost use Rattle.core_renaming.specs.Targets.{TargetsKeepTruth};
ghost use Rattle.core_renaming.specs.Sigs.{DeclarationsKeepTruth, SatisfactionIsKept, ScopesAreKept};

/// A law: the declarations of a model hold in both lassos alike, and both satisfy a target or neither
/// does. Where the renaming keeps the sigs of the model, both keep its scopes or neither does, and
/// both satisfy it or neither does, with any facts and any command.
pub fn renaming_keeps_models()
    ensures declarations { DeclarationsKeepTruth }
    ensures targets { TargetsKeepTruth }
    ensures scopes { ScopesAreKept }
    ensures satisfied { SatisfactionIsKept }
{}

ghost use Rattle.core_renaming.specs.Composed.{ExchangesKeepSigs, RenamingsCompose, RenamingsGoBack};

/// A law: renamings that keep the sigs of a model can be taken back, and two of them one after
/// another are one. The exchange of two atoms of one top-level sig, neither a literal's, is one.
pub fn renamings_compose()
    ensures back { RenamingsGoBack }
    ensures both { RenamingsCompose }
    ensures exchanges { ExchangesKeepSigs }
{}

ghost use Rattle.core_renaming.specs.Renamed.{LassosHaveRenamed};

/// A law: each lasso over a universe of at most 16,384 atoms has one that shows its relations
/// renamed.
pub fn lassos_have_renamed()
    ensures { LassosHaveRenamed }
{}

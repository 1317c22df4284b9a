//! Laws of tokens and places: a text has one division into tokens, and a tree spells its pieces.
//!
//! `syntax_lexer` says what it gives for a text by a definition that goes from piece to piece, and
//! `syntax_places` speaks of the pieces of a tree, which are its tokens with the places that it
//! keeps. The laws say of these definitions what a reader expects of them. The functions do
//! nothing; a caller that needs a law calls it.
#![tactic(auto)]

ghost use Rattle.std.specs.Prelude.{◌≡◌, ℕ, List, Ok, Err};
ghost use Rattle.base_types.specs.declared.place.Refusal.{Refusal};
ghost use Rattle.syntax_tree.specs.declared.token.Token.{Token};
ghost use Rattle.syntax_lexer.specs.Tokens.{tokens_of};
ghost use Rattle.syntax_laws.specs.Division.{IsDivided, start_of};

/// A law: the tokens of a text are those of its one division, and a text that is refused has none.
///
/// A division cuts the text into pieces that are blanks, whole comments, or each the longest token that begins at its place.
pub fn tokens_are_the_one_division()
    ensures is_divided { (text : ℕ) (z : List ℕ) (tokens : List Token) →
        tokens_of text z ≡ Ok tokens →
        (lengths : List ℕ) × IsDivided (start_of text) z lengths tokens }
    ensures is_one { (text : ℕ) (z : List ℕ) (ns ms : List ℕ) (tokens others : List Token) →
        IsDivided (start_of text) z ns tokens →
        IsDivided (start_of text) z ms others → (ns ≡ ms) × (tokens ≡ others) }
    ensures refused { (text : ℕ) (z : List ℕ) (refusal : Refusal) (ns : List ℕ)
        (tokens : List Token) →
        tokens_of text z ≡ Err refusal → IsDivided (start_of text) z ns tokens → ⊥ }
{}

ghost use Rattle.std.specs.Prelude.{◌≡◌, ◌++◌, Option};
ghost use Rattle.syntax_tree.specs.declared.operator.Multiplicity.{Multiplicity};
ghost use Rattle.syntax_tree.specs.declared.expr.Expr.{Expr};
ghost use Rattle.syntax_tree.specs.declared.module.Module.{Module};
ghost use Rattle.syntax_tree.specs.Words.{multiplicity_words};
ghost use Rattle.syntax_tree.specs.Spelling.{spelling};
ghost use Rattle.syntax_tree.specs.ModuleWords.{module_words};
ghost use Rattle.syntax_places.specs.Pieces.{said, pieces, worded_pieces};
ghost use Rattle.syntax_places.specs.ModulePieces.{module_pieces};

/// A law: the tokens of which a tree keeps places are those that spell it.
pub fn pieces_say_the_spelling()
    ensures trees { (e : Expr) → said (pieces e) ≡ spelling e }
    ensures bounds { (word : Option Multiplicity) (e : Expr) →
        said (worded_pieces word e) ≡ multiplicity_words word ++ spelling e }
    ensures modules { (m : Module) → said (module_pieces m) ≡ module_words m }
{}

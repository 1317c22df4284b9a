//! Laws of the program: what is loaded of a text is one model, and what an expression says of it is one value.
//!
//! `cli_model` says of which loaded model an answer is: one whose texts are those that the libraries
//! tell, whose opens lead where their paths and arguments say, and whose numbers and labels are those
//! of a walk over opens. The laws say that there is no other. It also says what is asked of a model
//! by the text of an expression: the third law says that this is one value. The functions do nothing;
//! a caller that needs a law calls its function.
#![tactic(auto)]

ghost use Rattle.cli_laws.specs.Asked.{AskedValuesAreOne};
ghost use Rattle.cli_laws.specs.Loaded.{LoadedModelsAreOne, GivenModelsAreOne};

use load_laws::{loads_are_unique, texts_have_one_module};
use resolve_laws::values_are_one;
use syntax_single::{tokens_have_one_module, tokens_have_one_tree};

/// A law: where the libraries tell what they hold, at most one model is loaded of a file's text.
pub fn loaded_models_are_one()
    ensures { LoadedModelsAreOne }
{
    tokens_have_one_module();
    loads_are_unique();
}

/// A law: where the libraries tell what they hold, at most one model is loaded of a text that is given, as that of the ring.
pub fn given_models_are_one()
    ensures { GivenModelsAreOne }
{
    texts_have_one_module();
    loads_are_unique();
}

/// A law: the expression that is given says at most one value of a model that was made ready.
pub fn asked_values_are_one()
    ensures { AskedValuesAreOne }
{
    tokens_have_one_tree();
    values_are_one();
}

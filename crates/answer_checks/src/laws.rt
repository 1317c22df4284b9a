//! Laws of what is tested of a model. Each stands in the clause of an empty function; a caller that needs it calls it.

ghost use Rattle.answer_checks.specs.Laws.{TypedModelsAreModels};

/// A law: a model that keeps all but the types of its fields, and whose fields have the types of their declarations, keeps
/// all that resolved models keep.
pub fn typed_models_are_models()
    ensures { TypedModelsAreModels }
{}

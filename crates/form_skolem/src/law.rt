//! What a command asks whose predicate has relation parameters, in the words of the language.

ghost use Rattle.form_skolem.specs.Runs.{AsksForRun};

/// A law: what a command asks of the fields that stand for relation parameters of its predicate
/// holds just where there are atoms for the atom parameters such that these, and the relations that
/// the fields have, lie in the bounds of the parameters at position 0, those of one `disj` list
/// apart, and the body of the predicate holds of them.
pub fn opened_commands_run()
    ensures { AsksForRun }
{}

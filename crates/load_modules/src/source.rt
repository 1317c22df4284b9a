//! Cuts a text into tokens, and parses it.
#![tactic(auto, using(load_state::proofs::Faults::refusal_is_quiet, load_state::proofs::Faults::memory_is_quiet, crate::proofs::Broken::uncut_quiet, crate::proofs::Broken::uncut_refused, crate::proofs::Broken::uncut_memory))]

ghost use Rattle.std.specs.Prelude.{◌≡◌, ◌<◌, ◌≤◌, ◌^◌, length, IfOk, IfErr, IsTrue, Ok};
ghost use Rattle.syntax_tree.specs.Instances.{literals_of};
ghost use Rattle.syntax_lexer.specs.Tokens as lexer;
ghost use Rattle.syntax_tree.specs.ModuleRules.{module_right};
ghost use Rattle.syntax_tree.specs.ModuleWords.{module_words};
ghost use Rattle.syntax_tree.specs.Spelling.{kinds, EndsWell};
ghost use Rattle.load_state.specs.Causes.{IsQuietFault};
ghost use Rattle.load_modules.specs.Reading.{IsModuleOf};
ghost use Rattle.load_modules.specs.Refused.{IsOfText, IsAtToken, IsUncut};
ghost use Rattle.syntax_machine.specs.declared.thread.Root.TheVariants as root;
ghost use Rattle.syntax_parser.specs.Refuses.{IsOfTokens};
ghost use Rattle.syntax_places.specs.ModulePieces.{module_pieces};
ghost use Rattle.syntax_places.specs.Pieces.{at_places};
ghost use Rattle.base_types.specs.declared.limits.TheConstants.{TREE_DEPTH};

use base_types::limits::MODULE_BYTES;
use base_types::{Fault, Name, Rule};
use load_state::{LoadFault, Source, Table, refused, start_of};
use std::alloc::{AllocError, Global};
use syntax_lexer::lex;
use syntax_parser::parse_module;
use syntax_tree::{Module, Text, Token};

/// Reads a text, which is the one of this number in the order of loading.
#[tactic(auto, using(crate::proofs::Broken::large_refused, crate::proofs::Broken::text_uncut, crate::proofs::Broken::text_token, crate::proofs::Broken::text_memory, crate::proofs::Reading::module_of, load_state::proofs::Faults::refusal_is_quiet, load_state::proofs::Faults::memory_is_quiet))]
pub fn read_text(alloc: Global, number: u32, name: &str, bytes: &[u8]) -> Result<Source, LoadFault>
    ensures quiet { IfErr result IsQuietFault }
    ensures named { IfOk result (λ source. source.text.name ≡ name.now) }
    ensures read { IfOk result (λ source. IsModuleOf bytes.now number source.text.tree) }
    ensures refused { IfErr result (IsOfText bytes.now number name.now) }
{
    if bytes.len() > MODULE_BYTES {
        return Err(refused(alloc, Rule::LargeFile, start_of(number), name));
    }
    let tokens = tokens_of(alloc, number, name, bytes)?;
    let tree = tree_of(alloc, name, &tokens)?;
    Ok(with_tree(alloc, name, tree, tokens.len())?)
}

/// The text of this name, which has this tree and so many tokens.
pub fn with_tree(
    alloc: Global,
    name: &str,
    tree: Module,
    tokens: usize,
) -> Result<Source, AllocError>
    requires { length (literals_of tree) ≤ tokens }
    ensures named { IfOk result (λ source. source.text.name ≡ name.now) }
    ensures same { IfOk result (λ source. source.text.tree ≡ tree) }
{
    let table = Table::new(alloc, &tree)?;
    Ok(Source {
        text: Text {
            name: Name::copy(alloc, name)?,
            tree,
        },
        table,
        tokens,
    })
}

/// The tokens of a text.
fn tokens_of(alloc: Global, number: u32, name: &str, bytes: &[u8]) -> Result<Vec<Token>, LoadFault>
    requires { length bytes.now < 2 ^ 31 }
    ensures ends { IfOk result (λ tokens. EndsWell tokens.items) }
    ensures cut { IfOk result (λ tokens. lexer.tokens_of number bytes.now ≡ Ok tokens.items) }
    ensures refused { IfErr result (IsUncut bytes.now number name.now) }
    ensures quiet { IfErr result IsQuietFault }
{
    match lex(alloc, number, bytes) {
        Ok(tokens) => Ok(tokens),
        Err(Fault::Refused(refusal)) => { Err(refused(alloc, refusal.rule, refusal.place, name)) }
        Err(Fault::Memory) => Err(LoadFault::Memory),
    }
}

/// The tree of a text.
#[tactic(auto, using(load_state::proofs::Heavy::few_literals))]
fn tree_of(alloc: Global, name: &str, tokens: &[Token]) -> Result<Module, LoadFault>
    requires { EndsWell tokens.now }
    ensures few { IfOk result (λ tree. length (literals_of tree) ≤ length tokens.now) }
    ensures spells { IfOk result (λ tree. kinds tokens.now ≡ module_words tree) }
    ensures right { IfOk result (λ tree. IsTrue (module_right TREE_DEPTH tree)) }
    ensures placed { IfOk result (λ tree. IsTrue (at_places (module_pieces tree) tokens.now)) }
    ensures refused { IfErr result (IsAtToken tokens.now name.now) }
    ensures quiet { IfErr result IsQuietFault }
{
    match parse_module(alloc, tokens) {
        Ok(tree) => Ok(tree),
        Err(fault) => Err(unparsed(alloc, name, tokens, fault)),
    }
}

/// Why a text has no tree.
#[tactic(auto, using(crate::proofs::Broken::token_memory, load_state::proofs::Faults::memory_is_quiet))]
fn unparsed(alloc: Global, name: &str, tokens: &[Token], fault: Fault) -> LoadFault
    requires { IsOfTokens root.Module tokens.now fault }
    ensures refused { IsAtToken tokens.now name.now result }
    ensures quiet { IsQuietFault result }
{
    // for the proof: only the clauses name the tokens
    let _ = tokens;
    match fault {
        Fault::Refused(refusal) => refused(alloc, refusal.rule, refusal.place, name),
        Fault::Memory => LoadFault::Memory,
    }
}

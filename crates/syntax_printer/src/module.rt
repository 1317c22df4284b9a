//! Spells a module and its paragraphs: their tokens, one after another.
#![tactic(auto, using(crate::proofs::Parts::regrouped))]

ghost use Rattle.std.specs.Prelude.{◌≡◌, ◌++◌, map, OnOk, IfOk};
ghost use Rattle.syntax_tree.specs.Spelling as s;
ghost use Rattle.syntax_tree.specs.ModuleWords as m;

use crate::expr::{decls, expr};
use crate::part::{Part, joined, separated};
use crate::words::{multiplicity, optional, put, symbol, word};
use std::alloc::{AllocError, Global};
use syntax_tree::{
    Bound, Bracket, Claim, Command, Enumeration, Expr, Field, FieldWord, Fun, Header, Module,
    Named, Open, Paragraph, Parameter, Parameters, Parents, Pred, Qualifier, Scope, ScopeEntry,
    ScopeTarget, Sig, SigName, Subject, Symbol, TokenKind, Word,
};

/// The tokens that spell a module as it was written, the end token among them.
pub fn spell(alloc: Global, tree: &Module) -> Result<Vec<TokenKind>, AllocError>
    ensures { IfOk result (λ tokens. tokens.items ≡ m.module_words tree.now) }
{
    let mut words = Vec::new(alloc);
    first(alloc, &tree.header, &mut words)?;
    joined(alloc, tree.opens.as_slice(), &mut words)?;
    joined(alloc, tree.paragraphs.as_slice(), &mut words)?;
    put(TokenKind::End, &mut words)?;
    Ok(words)
}

/// The line that names the module, where it stands.
fn first(
    alloc: Global,
    header: &Option<Header>,
    words: &mut Vec<TokenKind>,
) -> Result<(), AllocError>
    ensures { OnOk result (words.new.items ≡ words.old.items ++ m.first_words header.now) }
{
    match header {
        None => Ok(()),
        Some(header) => {
            word(Word::Module, words)?;
            header.path.spell(alloc, words)?;
            in_brackets(alloc, header.parameters.as_slice(), words)
        }
    }
}

/// One or more parts in square brackets, or nothing.
fn in_brackets<T: Part>(
    alloc: Global,
    parts: &[T],
    words: &mut Vec<TokenKind>,
) -> Result<(), AllocError>
    ensures { OnOk result (words.new.items ≡ words.old.items
        ++ m.in_brackets (map T.spelled parts.now)) }
{
    match parts {
        [] => Ok(()),
        _ => {
            symbol(Symbol::OpenBracket, words)?;
            separated(alloc, Symbol::Comma, parts, words)?;
            symbol(Symbol::CloseBracket, words)
        }
    }
}

/// Parts in braces, with a comma after the last one or not.
fn in_braces<T: Part>(
    alloc: Global,
    parts: &[T],
    has_comma: bool,
    words: &mut Vec<TokenKind>,
) -> Result<(), AllocError>
    ensures { OnOk result (words.new.items ≡ words.old.items
        ++ m.in_braces (map T.spelled parts.now) has_comma) }
{
    symbol(Symbol::OpenBrace, words)?;
    separated(alloc, Symbol::Comma, parts, words)?;
    optional(has_comma, TokenKind::Symbol(Symbol::Comma), words)?;
    symbol(Symbol::CloseBrace, words)
}

impl Part for Parameter {
    ghost use Rattle.syntax_tree.specs.ModuleWords.{parameter_words};

    ghost spelled = { parameter_words };

    fn spell(&self, alloc: Global, words: &mut Vec<TokenKind>) -> Result<(), AllocError> {
        optional(self.is_exact, TokenKind::Word(Word::Exactly), words)?;
        self.name.spell(alloc, words)
    }
}

impl Part for SigName {
    ghost use Rattle.syntax_tree.specs.ModuleWords.{sig_name_words};

    ghost spelled = { sig_name_words };

    fn spell(&self, alloc: Global, words: &mut Vec<TokenKind>) -> Result<(), AllocError> {
        match self {
            SigName::Name(name) => name.spell(alloc, words),
            SigName::Int(_) => word(Word::Int, words),
        }
    }
}

impl Part for Open {
    ghost use Rattle.syntax_tree.specs.ModuleWords.{open_words};

    ghost spelled = { open_words };

    fn spell(&self, alloc: Global, words: &mut Vec<TokenKind>) -> Result<(), AllocError> {
        optional(self.is_private, TokenKind::Word(Word::Private), words)?;
        word(Word::Open, words)?;
        self.path.spell(alloc, words)?;
        in_brackets(alloc, self.arguments.as_slice(), words)?;
        alias(alloc, &self.alias, words)
    }
}

fn alias(alloc: Global, alias: &Option<Named>, words: &mut Vec<TokenKind>) -> Result<(), AllocError>
    ensures { OnOk result (words.new.items ≡ words.old.items ++ m.alias_words alias.now) }
{
    match alias {
        None => Ok(()),
        Some(name) => {
            word(Word::As, words)?;
            name.spell(alloc, words)
        }
    }
}

fn bound(alloc: Global, of: &Bound, words: &mut Vec<TokenKind>) -> Result<(), AllocError>
    ensures { OnOk result (words.new.items ≡ words.old.items ++ m.bound_words of.now) }
{
    multiplicity(of.word, words)?;
    expr(alloc, &of.tree, words)
}

impl Part for Qualifier {
    ghost use Rattle.syntax_tree.specs.ModuleWords.{qualifier_words};

    ghost spelled = { qualifier_words };

    fn spell(&self, _alloc: Global, words: &mut Vec<TokenKind>) -> Result<(), AllocError> {
        match *self {
            Qualifier::Private => word(Word::Private, words),
            Qualifier::Var => word(Word::Var, words),
            Qualifier::Abstract => word(Word::Abstract, words),
            Qualifier::Lone => word(Word::Lone, words),
            Qualifier::One => word(Word::One, words),
            Qualifier::Some => word(Word::Some, words),
        }
    }
}

impl Part for FieldWord {
    ghost use Rattle.syntax_tree.specs.ModuleWords.{field_word_words};

    ghost spelled = { field_word_words };

    fn spell(&self, _alloc: Global, words: &mut Vec<TokenKind>) -> Result<(), AllocError> {
        match *self {
            FieldWord::Private => word(Word::Private, words),
            FieldWord::Var => word(Word::Var, words),
            FieldWord::Disj => word(Word::Disj, words),
        }
    }
}

impl Part for Field {
    ghost use Rattle.syntax_tree.specs.ModuleWords.{field_words};

    ghost spelled = { field_words };

    fn spell(&self, alloc: Global, words: &mut Vec<TokenKind>) -> Result<(), AllocError> {
        joined(alloc, self.words.as_slice(), words)?;
        separated(alloc, Symbol::Comma, self.names.as_slice(), words)?;
        symbol(Symbol::Colon, words)?;
        optional(self.is_disjoint, TokenKind::Word(Word::Disj), words)?;
        bound(alloc, &self.bound, words)
    }
}

fn parents(alloc: Global, of: &Parents, words: &mut Vec<TokenKind>) -> Result<(), AllocError>
    ensures { OnOk result (words.new.items ≡ words.old.items ++ m.parents_words of.now) }
{
    match of {
        Parents::Top => Ok(()),
        Parents::Extends(name) => {
            word(Word::Extends, words)?;
            name.spell(alloc, words)
        }
        Parents::Subset(names) => {
            word(Word::In, words)?;
            separated(alloc, Symbol::Plus, names.as_slice(), words)
        }
    }
}

/// A block, where it stands.
fn block(alloc: Global, of: &Option<Expr>, words: &mut Vec<TokenKind>) -> Result<(), AllocError>
    ensures { OnOk result (words.new.items ≡ words.old.items ++ m.block_words of.now) }
{
    match of {
        None => Ok(()),
        Some(block) => expr(alloc, block, words),
    }
}

fn sig(alloc: Global, of: &Sig, words: &mut Vec<TokenKind>) -> Result<(), AllocError>
    ensures { OnOk result (words.new.items ≡ words.old.items ++ m.sig_words of.now) }
{
    joined(alloc, of.qualifiers.as_slice(), words)?;
    word(Word::Sig, words)?;
    separated(alloc, Symbol::Comma, of.names.as_slice(), words)?;
    parents(alloc, &of.parents, words)?;
    in_braces(alloc, of.fields.as_slice(), of.has_comma, words)?;
    block(alloc, &of.block, words)
}

fn enumeration(
    alloc: Global,
    of: &Enumeration,
    words: &mut Vec<TokenKind>,
) -> Result<(), AllocError>
    ensures { OnOk result (words.new.items ≡ words.old.items ++ m.enum_words of.now) }
{
    word(Word::Enum, words)?;
    of.name.spell(alloc, words)?;
    in_braces(alloc, of.members.as_slice(), of.has_comma, words)
}

/// A name, where it stands.
fn title(alloc: Global, of: &Option<Named>, words: &mut Vec<TokenKind>) -> Result<(), AllocError>
    ensures { OnOk result (words.new.items ≡ words.old.items ++ m.title_words of.now) }
{
    match of {
        None => Ok(()),
        Some(name) => name.spell(alloc, words),
    }
}

fn claim(
    alloc: Global,
    keyword: Word,
    of: &Claim,
    words: &mut Vec<TokenKind>,
) -> Result<(), AllocError>
    ensures { OnOk result (words.new.items ≡ words.old.items ++ m.claim_words keyword of.now) }
{
    word(keyword, words)?;
    title(alloc, &of.name, words)?;
    expr(alloc, &of.block, words)
}

fn opening(bracket: Bracket) -> TokenKind
    ensures { result ≡ m.opening bracket }
{
    match bracket {
        Bracket::Square => TokenKind::Symbol(Symbol::OpenBracket),
        Bracket::Round => TokenKind::Symbol(Symbol::OpenParenthesis),
    }
}

fn closing(bracket: Bracket) -> TokenKind
    ensures { result ≡ m.closing bracket }
{
    match bracket {
        Bracket::Square => TokenKind::Symbol(Symbol::CloseBracket),
        Bracket::Round => TokenKind::Symbol(Symbol::CloseParenthesis),
    }
}

#[tactic(auto, using(crate::proofs::Parts::decls_spelled, crate::proofs::Parts::regrouped))]
fn parameters(
    alloc: Global,
    of: &Option<Parameters>,
    words: &mut Vec<TokenKind>,
) -> Result<(), AllocError>
    ensures { OnOk result (words.new.items ≡ words.old.items ++ m.parameters_words of.now) }
{
    match of {
        None => Ok(()),
        Some(parameters) => {
            put(opening(parameters.bracket), words)?;
            decls(alloc, parameters.decls.as_slice(), words)?;
            put(closing(parameters.bracket), words)
        }
    }
}

/// The sig before the dot, with it.
fn receiver(
    alloc: Global,
    of: &Option<SigName>,
    words: &mut Vec<TokenKind>,
) -> Result<(), AllocError>
    ensures { OnOk result (words.new.items ≡ words.old.items ++ m.receiver_words of.now) }
{
    match of {
        None => Ok(()),
        Some(name) => {
            name.spell(alloc, words)?;
            symbol(Symbol::Dot, words)
        }
    }
}

fn pred(alloc: Global, of: &Pred, words: &mut Vec<TokenKind>) -> Result<(), AllocError>
    ensures { OnOk result (words.new.items ≡ words.old.items ++ m.pred_words of.now) }
{
    optional(of.is_private, TokenKind::Word(Word::Private), words)?;
    word(Word::Pred, words)?;
    receiver(alloc, &of.receiver, words)?;
    of.name.spell(alloc, words)?;
    parameters(alloc, &of.parameters, words)?;
    expr(alloc, &of.block, words)
}

fn fun(alloc: Global, of: &Fun, words: &mut Vec<TokenKind>) -> Result<(), AllocError>
    ensures { OnOk result (words.new.items ≡ words.old.items ++ m.fun_words of.now) }
{
    optional(of.is_private, TokenKind::Word(Word::Private), words)?;
    word(Word::Fun, words)?;
    receiver(alloc, &of.receiver, words)?;
    of.name.spell(alloc, words)?;
    parameters(alloc, &of.parameters, words)?;
    symbol(Symbol::Colon, words)?;
    bound(alloc, &of.result, words)?;
    symbol(Symbol::OpenBrace, words)?;
    expr(alloc, &of.value, words)?;
    symbol(Symbol::CloseBrace, words)
}

impl Part for ScopeEntry {
    ghost use Rattle.syntax_tree.specs.ModuleWords.{entry_words};

    ghost spelled = { entry_words };

    fn spell(&self, alloc: Global, words: &mut Vec<TokenKind>) -> Result<(), AllocError> {
        optional(self.is_exact, TokenKind::Word(Word::Exactly), words)?;
        put(TokenKind::Number(self.number.value), words)?;
        match &self.target {
            ScopeTarget::Sig(name) => name.spell(alloc, words),
            ScopeTarget::Bits(_) => word(Word::IntScope, words),
        }
    }
}

fn scope(alloc: Global, of: &Scope, words: &mut Vec<TokenKind>) -> Result<(), AllocError>
    ensures { OnOk result (words.new.items ≡ words.old.items ++ m.scope_words of.now) }
{
    match of {
        Scope::Overall(number) => put(TokenKind::Number(number.value), words),
        Scope::But(number, entries) => {
            put(TokenKind::Number(number.value), words)?;
            word(Word::But, words)?;
            separated(alloc, Symbol::Comma, entries.as_slice(), words)
        }
        Scope::Entries(entries) => separated(alloc, Symbol::Comma, entries.as_slice(), words),
    }
}

/// `for` and the numbers, where they stand.
fn scopes(alloc: Global, of: &Option<Scope>, words: &mut Vec<TokenKind>) -> Result<(), AllocError>
    ensures { OnOk result (words.new.items ≡ words.old.items ++ m.for_words of.now) }
{
    match of {
        None => Ok(()),
        Some(of) => {
            word(Word::For, words)?;
            scope(alloc, of, words)
        }
    }
}

/// `expect` and a number, where they stand.
fn expected(of: Option<u32>, words: &mut Vec<TokenKind>) -> Result<(), AllocError>
    ensures { OnOk result (words.new.items ≡ words.old.items ++ m.expect_words of) }
{
    match of {
        None => Ok(()),
        Some(number) => {
            word(Word::Expect, words)?;
            put(TokenKind::Number(number), words)
        }
    }
}

fn subject(alloc: Global, of: &Subject, words: &mut Vec<TokenKind>) -> Result<(), AllocError>
    ensures { OnOk result (words.new.items ≡ words.old.items ++ m.subject_words of.now) }
{
    match of {
        Subject::Name(name) => name.spell(alloc, words),
        Subject::Block(block) => expr(alloc, block, words),
        Subject::Labelled(name, block) => {
            name.spell(alloc, words)?;
            expr(alloc, block, words)
        }
    }
}

/// A name and a colon, where they stand.
fn label(alloc: Global, of: &Option<Named>, words: &mut Vec<TokenKind>) -> Result<(), AllocError>
    ensures { OnOk result (words.new.items ≡ words.old.items ++ m.label_words of.now) }
{
    match of {
        None => Ok(()),
        Some(name) => {
            name.spell(alloc, words)?;
            symbol(Symbol::Colon, words)
        }
    }
}

fn keyword(is_check: bool) -> Word
    ensures { result ≡ m.keyword_of is_check }
{
    if is_check { Word::Check } else { Word::Run }
}

fn command(alloc: Global, of: &Command, words: &mut Vec<TokenKind>) -> Result<(), AllocError>
    ensures { OnOk result (words.new.items ≡ words.old.items ++ m.command_words of.now) }
{
    label(alloc, &of.label, words)?;
    word(keyword(of.is_check), words)?;
    subject(alloc, &of.subject, words)?;
    scopes(alloc, &of.scope, words)?;
    expected(of.expected, words)
}

impl Part for Paragraph {
    ghost use Rattle.syntax_tree.specs.ModuleWords.{paragraph_words};

    ghost spelled = { paragraph_words };

    fn spell(&self, alloc: Global, words: &mut Vec<TokenKind>) -> Result<(), AllocError> {
        match self {
            Paragraph::Sig(of) => sig(alloc, of, words),
            Paragraph::Enum(of) => enumeration(alloc, of, words),
            Paragraph::Fact(of) => claim(alloc, Word::Fact, of, words),
            Paragraph::Assert(of) => claim(alloc, Word::Assert, of, words),
            Paragraph::Pred(of) => pred(alloc, of, words),
            Paragraph::Fun(of) => fun(alloc, of, words),
            Paragraph::Command(of) => command(alloc, of, words),
        }
    }
}

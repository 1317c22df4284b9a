//! Walks the tokens of a module and its paragraphs, and compares the places that they keep.
#![tactic(auto, using(crate::proofs::Parts::walk_append, crate::proofs::Parts::walk_optional))]

ghost use Rattle.std.specs.Prelude.{◌≡◌, map};
ghost use Rattle.syntax_places.specs.ModulePieces as m;
ghost use Rattle.syntax_places.specs.Walk as v;

use crate::expr::{decls, expr, worded};
use crate::part::{Part, joined, separated};
use crate::walk::Walk;
use crate::words::optional;
use syntax_tree::{
    Bound, Claim, Command, Enumeration, Expr, Field, FieldWord, Fun, Header, Module, Named, Open,
    Paragraph, Parameter, Parameters, Parents, Pred, Qualifier, Scope, ScopeEntry, ScopeTarget,
    Sig, SigName, Subject, Symbol, Word,
};

/// A module, the end token among its tokens.
pub fn module(tree: &Module, walk: &mut Walk<'_>)
    ensures { walk.new ≡ v.walk walk.old (m.module_pieces tree.now) }
{
    first(&tree.header, walk);
    joined(tree.opens.as_slice(), walk);
    joined(tree.paragraphs.as_slice(), walk);
    walk.past();
}

/// The line that names the module, where it stands.
fn first(header: &Option<Header>, walk: &mut Walk<'_>)
    ensures { walk.new ≡ v.walk walk.old (m.first_pieces header.now) }
{
    match header {
        None => {}
        Some(header) => {
            walk.here(header.place);
            walk.past();
            header.path.go(walk);
            in_brackets(header.parameters.as_slice(), walk);
        }
    }
}

/// One or more parts in square brackets, or nothing.
fn in_brackets<T: Part>(parts: &[T], walk: &mut Walk<'_>)
    ensures { walk.new ≡ v.walk walk.old (m.in_brackets (map T.kept parts.now)) }
{
    match parts {
        [] => {}
        _ => {
            walk.past();
            separated(Symbol::Comma, parts, walk);
            walk.past();
        }
    }
}

/// Parts in braces, with a comma after the last one or not.
fn in_braces<T: Part>(parts: &[T], has_comma: bool, walk: &mut Walk<'_>)
    ensures { walk.new ≡ v.walk walk.old (m.in_braces (map T.kept parts.now) has_comma) }
{
    walk.past();
    separated(Symbol::Comma, parts, walk);
    optional(has_comma, walk);
    walk.past();
}

impl Part for Parameter {
    ghost use Rattle.syntax_places.specs.ModulePieces.{parameter_pieces};

    ghost kept = { parameter_pieces };

    fn go(&self, walk: &mut Walk<'_>) {
        optional(self.is_exact, walk);
        self.name.go(walk);
    }
}

impl Part for SigName {
    ghost use Rattle.syntax_places.specs.ModulePieces.{sig_name_pieces};

    ghost kept = { sig_name_pieces };

    fn go(&self, walk: &mut Walk<'_>) {
        match self {
            SigName::Name(name) => name.go(walk),
            SigName::Int(place) => {
                walk.here(*place);
                walk.past();
            }
        }
    }
}

impl Part for Open {
    ghost use Rattle.syntax_places.specs.ModulePieces.{open_pieces};

    ghost kept = { open_pieces };

    fn go(&self, walk: &mut Walk<'_>) {
        walk.here(self.place);
        optional(self.is_private, walk);
        walk.past();
        self.path.go(walk);
        in_brackets(self.arguments.as_slice(), walk);
        alias(&self.alias, walk);
    }
}

fn alias(alias: &Option<Named>, walk: &mut Walk<'_>)
    ensures { walk.new ≡ v.walk walk.old (m.alias_pieces alias.now) }
{
    match alias {
        None => {}
        Some(name) => {
            walk.past();
            name.go(walk);
        }
    }
}

fn bound(of: &Bound, walk: &mut Walk<'_>)
    ensures { walk.new ≡ v.walk walk.old (m.bound_pieces of.now) }
{
    walk.here(of.place);
    worded(of.word, &of.tree, walk);
}

impl Part for Qualifier {
    ghost use Rattle.syntax_places.specs.ModulePieces.{qualifier_pieces};

    ghost kept = { qualifier_pieces };

    fn go(&self, walk: &mut Walk<'_>) {
        walk.past();
    }
}

impl Part for FieldWord {
    ghost use Rattle.syntax_places.specs.ModulePieces.{field_word_pieces};

    ghost kept = { field_word_pieces };

    fn go(&self, walk: &mut Walk<'_>) {
        walk.past();
    }
}

impl Part for Field {
    ghost use Rattle.syntax_places.specs.ModulePieces.{field_pieces};

    ghost kept = { field_pieces };

    fn go(&self, walk: &mut Walk<'_>) {
        walk.here(self.place);
        joined(self.words.as_slice(), walk);
        separated(Symbol::Comma, self.names.as_slice(), walk);
        walk.past();
        optional(self.is_disjoint, walk);
        bound(&self.bound, walk);
    }
}

fn parents(of: &Parents, walk: &mut Walk<'_>)
    ensures { walk.new ≡ v.walk walk.old (m.parents_pieces of.now) }
{
    match of {
        Parents::Top => {}
        Parents::Extends(name) => {
            walk.past();
            name.go(walk);
        }
        Parents::Subset(names) => {
            walk.past();
            separated(Symbol::Plus, names.as_slice(), walk);
        }
    }
}

/// A block, where it stands.
fn block(of: &Option<Expr>, walk: &mut Walk<'_>)
    ensures { walk.new ≡ v.walk walk.old (m.block_pieces of.now) }
{
    match of {
        None => {}
        Some(block) => expr(block, walk),
    }
}

fn sig(of: &Sig, walk: &mut Walk<'_>)
    ensures { walk.new ≡ v.walk walk.old (m.sig_pieces of.now) }
{
    walk.here(of.place);
    joined(of.qualifiers.as_slice(), walk);
    walk.past();
    separated(Symbol::Comma, of.names.as_slice(), walk);
    parents(&of.parents, walk);
    in_braces(of.fields.as_slice(), of.has_comma, walk);
    block(&of.block, walk);
}

fn enumeration(of: &Enumeration, walk: &mut Walk<'_>)
    ensures { walk.new ≡ v.walk walk.old (m.enum_pieces of.now) }
{
    walk.here(of.place);
    walk.past();
    of.name.go(walk);
    in_braces(of.members.as_slice(), of.has_comma, walk);
}

/// A name, where it stands.
fn title(of: &Option<Named>, walk: &mut Walk<'_>)
    ensures { walk.new ≡ v.walk walk.old (m.title_pieces of.now) }
{
    match of {
        None => {}
        Some(name) => name.go(walk),
    }
}

fn claim(keyword: Word, of: &Claim, walk: &mut Walk<'_>)
    ensures { walk.new ≡ v.walk walk.old (m.claim_pieces keyword of.now) }
{
    walk.here(of.place);
    walk.past();
    title(&of.name, walk);
    expr(&of.block, walk);
}

fn parameters(of: &Option<Parameters>, walk: &mut Walk<'_>)
    ensures { walk.new ≡ v.walk walk.old (m.parameters_pieces of.now) }
{
    match of {
        None => {}
        Some(parameters) => {
            walk.past();
            decls(parameters.decls.as_slice(), walk);
            walk.past();
        }
    }
}

/// The sig before the dot, with it.
fn receiver(of: &Option<SigName>, walk: &mut Walk<'_>)
    ensures { walk.new ≡ v.walk walk.old (m.receiver_pieces of.now) }
{
    match of {
        None => {}
        Some(name) => {
            name.go(walk);
            walk.past();
        }
    }
}

fn pred(of: &Pred, walk: &mut Walk<'_>)
    ensures { walk.new ≡ v.walk walk.old (m.pred_pieces of.now) }
{
    walk.here(of.place);
    optional(of.is_private, walk);
    walk.past();
    receiver(&of.receiver, walk);
    of.name.go(walk);
    parameters(&of.parameters, walk);
    expr(&of.block, walk);
}

fn fun(of: &Fun, walk: &mut Walk<'_>)
    ensures { walk.new ≡ v.walk walk.old (m.fun_pieces of.now) }
{
    walk.here(of.place);
    optional(of.is_private, walk);
    walk.past();
    receiver(&of.receiver, walk);
    of.name.go(walk);
    parameters(&of.parameters, walk);
    walk.past();
    bound(&of.result, walk);
    walk.past();
    expr(&of.value, walk);
    walk.past();
}

fn target(of: &ScopeTarget, walk: &mut Walk<'_>)
    ensures { walk.new ≡ v.walk walk.old (m.target_pieces of.now) }
{
    match of {
        ScopeTarget::Sig(name) => name.go(walk),
        ScopeTarget::Bits(place) => {
            walk.here(*place);
            walk.past();
        }
    }
}

impl Part for ScopeEntry {
    ghost use Rattle.syntax_places.specs.ModulePieces.{entry_pieces};

    ghost kept = { entry_pieces };

    fn go(&self, walk: &mut Walk<'_>) {
        optional(self.is_exact, walk);
        walk.here(self.number.place);
        walk.past();
        target(&self.target, walk);
    }
}

fn scope(of: &Scope, walk: &mut Walk<'_>)
    ensures { walk.new ≡ v.walk walk.old (m.scope_pieces of.now) }
{
    match of {
        Scope::Overall(number) => {
            walk.here(number.place);
            walk.past();
        }
        Scope::But(number, entries) => {
            walk.here(number.place);
            walk.past();
            walk.past();
            separated(Symbol::Comma, entries.as_slice(), walk);
        }
        Scope::Entries(entries) => separated(Symbol::Comma, entries.as_slice(), walk),
    }
}

/// `for` and the numbers, where they stand.
fn scopes(of: &Option<Scope>, walk: &mut Walk<'_>)
    ensures { walk.new ≡ v.walk walk.old (m.for_pieces of.now) }
{
    match of {
        None => {}
        Some(of) => {
            walk.past();
            scope(of, walk);
        }
    }
}

/// `expect` and a number, where they stand.
fn expected(of: Option<u32>, walk: &mut Walk<'_>)
    ensures { walk.new ≡ v.walk walk.old (m.expect_pieces of) }
{
    if of.is_some() {
        walk.past();
        walk.past();
    }
}

fn subject(of: &Subject, walk: &mut Walk<'_>)
    ensures { walk.new ≡ v.walk walk.old (m.subject_pieces of.now) }
{
    match of {
        Subject::Name(name) => name.go(walk),
        Subject::Block(block) => expr(block, walk),
        Subject::Labelled(name, block) => {
            name.go(walk);
            expr(block, walk);
        }
    }
}

/// A name and a colon, where they stand.
fn label(of: &Option<Named>, walk: &mut Walk<'_>)
    ensures { walk.new ≡ v.walk walk.old (m.label_pieces of.now) }
{
    match of {
        None => {}
        Some(name) => {
            name.go(walk);
            walk.past();
        }
    }
}

fn command(of: &Command, walk: &mut Walk<'_>)
    ensures { walk.new ≡ v.walk walk.old (m.command_pieces of.now) }
{
    walk.here(of.place);
    label(&of.label, walk);
    walk.here(of.keyword);
    walk.past();
    subject(&of.subject, walk);
    scopes(&of.scope, walk);
    expected(of.expected, walk);
}

impl Part for Paragraph {
    ghost use Rattle.syntax_places.specs.ModulePieces.{paragraph_pieces};

    ghost kept = { paragraph_pieces };

    fn go(&self, walk: &mut Walk<'_>) {
        match self {
            Paragraph::Sig(of) => sig(of, walk),
            Paragraph::Enum(of) => enumeration(of, walk),
            Paragraph::Fact(of) => claim(Word::Fact, of, walk),
            Paragraph::Assert(of) => claim(Word::Assert, of, walk),
            Paragraph::Pred(of) => pred(of, walk),
            Paragraph::Fun(of) => fun(of, walk),
            Paragraph::Command(of) => command(of, walk),
        }
    }
}

//! A table says what names stand for in a text: its sigs, enums and parameters.

ghost use Rattle.std.specs.Prelude.{◌≡◌, ◌+◌, ◌++◌, ◌∷◌, [], ℕ, List, IfOk, IfSome, OnOk, Some, length, map, slice_get};
ghost use Rattle.std.specs.HashMap.{get_by_text};
ghost use Rattle.std.specs.List.{list_any};
ghost use Rattle.std.specs.Map.{update};
ghost use Rattle.std.specs.Str.{bytes_eq};
ghost use Rattle.load_state.specs.Counts.{AddsParameter, AddsSig, IsMore, TellsAll, TestsAll, Stays, known_or};
ghost use Rattle.load_state.specs.declared.table.DeclaredSig.{DeclaredSig as SigDeclared};
ghost use Rattle.syntax_tree.specs.Instances.{sigs_in};
ghost use Rattle.load_state.specs.Opens.{enum_in, enums_of};
ghost use Rattle.load_state.specs.Sigs as declares;

use base_types::{Name, Position};
use std::alloc::{AllocError, Global};
use std::collections::HashMap;
use syntax_tree::{Header, Module, Named, Paragraph, Parameter, Qualifier};

/// What a name stands for in a text: how many sigs and parameters have it, and the number of the last of each.
#[derive(Clone, Copy, Debug)]
pub struct Known {
    /// Sigs of this name.
    pub sigs: u32,
    pub sig: u32,
    /// Those of them that aren't private.
    pub public_sigs: u32,
    pub public_sig: u32,
    /// Parameters of this name.
    pub parameters: u32,
    pub parameter: usize,
}

impl Known {
    /// A name that no sig and no parameter has.
    const NOTHING: Known = Known {
        sigs: 0,
        sig: 0,
        public_sigs: 0,
        public_sig: 0,
        parameters: 0,
        parameter: 0,
    };

    /// Takes in that the parameter of this number has the name.
    fn add_parameter(&mut self, number: usize)
        ensures { AddsParameter number self.old self.new }
    {
        self.parameters = more(self.parameters);
        self.parameter = number;
    }

    /// Takes in that the sig of this number has the name.
    fn add_sig(&mut self, number: u32, is_private: bool)
        ensures { AddsSig number is_private self.old self.new }
    {
        self.sigs = more(self.sigs);
        self.sig = number;
        if is_private {
            return;
        }
        self.public_sigs = more(self.public_sigs);
        self.public_sig = number;
    }
}

/// The count after one more.
fn more(count: u32) -> u32
    ensures { IsMore count result }
{
    match count.checked_add(1) {
        Some(count) => count,
        None => count,
    }
}

/// What is known of a name.
fn known_of(known: &HashMap<String, Known>, name: &str) -> Known
    ensures { result ≡ known_or (get_by_text known.now name.now) }
{
    match known.get(name) {
        Some(found) => *found,
        None => Known::NOTHING,
    }
}

/// Puts what is known of a name.
fn put_known(
    alloc: Global,
    known: &mut HashMap<String, Known>,
    name: &str,
    found: Known,
) -> Result<(), AllocError>
    ensures { OnOk result ((other : List ℕ) → get_by_text known.new other
        ≡ update bytes_eq (get_by_text known.old) name.now (Some found) other) }
{
    let key = String::from_str(alloc, name)?;
    known.insert(key, found)?;
    Ok(())
}

/// Takes in that the parameter of this number has this name.
fn note_parameter(
    alloc: Global,
    known: &mut HashMap<String, Known>,
    name: &str,
    number: usize,
) -> Result<(), AllocError>
    ensures { OnOk result ((parameters : List (List ℕ)) →
        TellsAll parameters [] (get_by_text known.old) → number ≡ length parameters →
        TellsAll (parameters ++ name.now ∷ []) [] (get_by_text known.new)) }
{
    let mut found = known_of(known, name);
    found.add_parameter(number);
    put_known(alloc, known, name, found)?;
    Ok(())
}

/// Takes in that the sig of this number has this name.
fn note_sig(
    alloc: Global,
    known: &mut HashMap<String, Known>,
    name: &str,
    number: u32,
    is_private: bool,
) -> Result<(), AllocError>
    ensures { OnOk result ((parameters : List (List ℕ)) (sigs : List SigDeclared) →
        TellsAll parameters sigs (get_by_text known.old) → number ≡ length sigs →
        TellsAll parameters (sigs ++ record { name = name.now; is_private = is_private } ∷ [])
        (get_by_text known.new)) }
{
    let mut found = known_of(known, name);
    found.add_sig(number, is_private);
    put_known(alloc, known, name, found)?;
    Ok(())
}

/// An enum, which implies an open that orders its members.
#[derive(Clone, Copy, Debug)]
pub struct Enumerated {
    /// The place of its name.
    pub place: Position,
    /// Its number among the sigs of the text.
    pub sig: u32,
}

/// A sig that a text declares.
#[derive(Drop)]
pub struct DeclaredSig {
    pub name: Name,
    pub is_private: bool,
}

/// The names of the sigs and parameters of a text, its sigs and its enums.
#[derive(Drop)]
pub struct Table {
    known: HashMap<String, Known>,
    enums: Vec<Enumerated>,
    declared: Vec<DeclaredSig>,
    sigs: u32,
}

impl Table {
    /// The table of a module.
    #[tactic(auto, using(crate::proofs::Opens::enums_next, crate::proofs::Counts::none_told))]
    pub fn new(alloc: Global, tree: &Module) -> Result<Table, AllocError>
        ensures enums { IfOk result (λ table. table.enums.items ≡ enums_of tree.now) }
        ensures declared { IfOk result (λ table. table.declared.items ≡ declares.sigs_of tree.now) }
        ensures tells { IfOk result (λ table. TestsAll (declares.parameters_of tree.now)
            (declares.sigs_of tree.now) (get_by_text table.known)) }
    {
        let mut table = Table {
            known: HashMap::new(alloc),
            enums: Vec::new(alloc),
            declared: Vec::new(alloc),
            sigs: 0,
        };
        add_header(alloc, &mut table.known, &tree.header)?;
        for paragraph in tree.paragraphs.as_slice() {
            table.add_paragraph(alloc, paragraph)?;
        }
        Ok(table)
    }

    /// What the name stands for.
    pub fn known(&self, name: &str) -> Known
        ensures { result ≡ known_or (get_by_text self.now.known name.now) }
    {
        known_of(&self.known, name)
    }

    /// The enums of the text, in their order.
    pub fn enums(&self) -> &[Enumerated]
        ensures { result.now ≡ self.now.enums.items }
    {
        &self.enums
    }

    /// The enum of this place among them.
    pub fn enum_at(&self, place: usize) -> Option<Enumerated>
        ensures { result ≡ slice_get self.now.enums.items place }
    {
        self.enums.get(place).copied()
    }

    /// The sig of this number.
    pub fn sig_at(&self, number: u32) -> Option<&DeclaredSig>
        ensures { IfSome result (λ sig. slice_get self.now.declared.items number ≡ Some sig.now) }
    {
        self.declared.get(number as usize)
    }

    /// Adds what a paragraph declares of sigs and enums.
    #[tactic(auto, using(crate::proofs::Counts::stays_itself))]
    fn add_paragraph(&mut self, alloc: Global, paragraph: &Paragraph) -> Result<(), AllocError>
        ensures enums { OnOk result (self.new.enums.items ≡ self.old.enums.items
            ++ enum_in self.old.sigs paragraph.now) }
        ensures declared { OnOk result (self.new.declared.items ≡ self.old.declared.items
            ++ declares.declared_in paragraph.now) }
        ensures sigs { OnOk result (self.new.sigs ≡ self.old.sigs + sigs_in paragraph.now) }
        ensures tells { OnOk result (Stays (get_by_text self.old.known) self.old.declared.items
            self.old.sigs (get_by_text self.new.known) self.new.declared.items self.new.sigs) }
    {
        match paragraph {
            Paragraph::Sig(sig) => {
                let is_private = has_private(sig.qualifiers.as_slice());
                self.add_sigs(alloc, sig.names.as_slice(), is_private)
            }
            Paragraph::Enum(e) => {
                self.enums.push(Enumerated {
                    place: e.name.place,
                    sig: self.sigs,
                })?;
                self.add_sig(alloc, &e.name, false)?;
                self.add_sigs(alloc, e.members.as_slice(), false)?;
                Ok(())
            }
            _ => Ok(()),
        }
    }

    /// Adds sigs in turn.
    fn add_sigs(
        &mut self,
        alloc: Global,
        names: &[Named],
        is_private: bool,
    ) -> Result<(), AllocError>
        ensures enums { self.new.enums.items ≡ self.old.enums.items }
        ensures declared { OnOk result (self.new.declared.items ≡ self.old.declared.items
            ++ map (declares.declared_as is_private) names.now) }
        ensures sigs { OnOk result (self.new.sigs ≡ self.old.sigs + length names.now) }
        ensures tells { OnOk result (Stays (get_by_text self.old.known) self.old.declared.items
            self.old.sigs (get_by_text self.new.known) self.new.declared.items self.new.sigs) }
    {
        for named in names {
            self.add_sig(alloc, named, is_private)?;
        }
        Ok(())
    }

    /// Adds the next sig of the text.
    fn add_sig(&mut self, alloc: Global, named: &Named, is_private: bool) -> Result<(), AllocError>
        ensures enums { self.new.enums.items ≡ self.old.enums.items }
        ensures declared { OnOk result (self.new.declared.items ≡ self.old.declared.items
            ++ declares.declared_as is_private named.now ∷ []) }
        ensures sigs { OnOk result (self.new.sigs ≡ self.old.sigs + 1) }
        ensures tells { OnOk result (Stays (get_by_text self.old.known) self.old.declared.items
            self.old.sigs (get_by_text self.new.known) self.new.declared.items self.new.sigs) }
    {
        let number = self.sigs;
        let next = number.checked_add(1).ok_or(AllocError)?;
        note_sig(
            alloc,
            &mut self.known,
            named.name.text(),
            number,
            is_private,
        )?;
        let name = Name::copy(alloc, named.name.text())?;
        self.declared.push(DeclaredSig { name, is_private })?;
        self.sigs = next;
        Ok(())
    }
}

/// Adds the parameters of a text to what is known of no name yet.
fn add_header(
    alloc: Global,
    known: &mut HashMap<String, Known>,
    header: &Option<Header>,
) -> Result<(), AllocError>
    ensures { OnOk result (TellsAll [] [] (get_by_text known.old) →
        TellsAll (declares.header_names header.now) [] (get_by_text known.new)) }
{
    match header {
        Some(header) => {
            add_parameters(alloc, known, header.parameters.as_slice())?;
            Ok(())
        }
        None => Ok(()),
    }
}

/// Adds parameters in turn.
fn add_parameters(
    alloc: Global,
    known: &mut HashMap<String, Known>,
    parameters: &[Parameter],
) -> Result<(), AllocError>
    ensures { OnOk result (TellsAll [] [] (get_by_text known.old) →
        TellsAll (map (λ p. p.name.name) parameters.now) [] (get_by_text known.new)) }
{
    for number in 0..parameters.len() {
        note_parameter(alloc, known, parameters[number].name.name.text(), number)?;
    }
    Ok(())
}

/// Whether one of these is `private`.
fn has_private(qualifiers: &[Qualifier]) -> bool
    ensures { result ≡ list_any declares.is_private qualifiers.now }
{
    qualifiers.iter().any(|q| is_private(q))
}

/// Whether this is `private`.
fn is_private(qualifier: &Qualifier) -> bool
    ensures { result ≡ declares.is_private qualifier.now }
{
    matches!(qualifier, Qualifier::Private)
}

//! The sigs that opens give to `exactly` parameters, each with the first open that does.

ghost use Rattle.std.specs.Prelude.{◌≡◌, [], ◌∷◌, Some, slice_get, IfOk, OnOk};
ghost use Rattle.resolve_names.specs.Gathered.{module_of, parameters_of};
ghost use Rattle.resolve_told_opens.specs.Told.{gifts, gifts_among, gifts_by, gifts_for, gifts_in, gifts_to, gifts_with};
ghost use Rattle.resolve_told_opens.specs.Firsts.{AreAdded};

use crate::places::open_places;
use base_types::Position;
use core_tree::Origin;
use resolve_names::Names;
use std::alloc::{AllocError, Global};
use syntax_tree::{Header, Instance, Loaded, Module, Opened, Parameter, SigRef, Text};

/// Notes the open that gives a sig, where none is noted yet.
fn put(table: &mut Vec<Option<Origin>>, sig: u32, open_at: Origin)
    ensures { AreAdded (record { sig = sig; open_at = open_at } ∷ []) table.old.items
        table.new.items }
{
    let place = sig as usize;
    if place >= table.len() {
        return;
    }
    match table[place] {
        Some(_) => {}
        None => table[place] = Some(open_at),
    }
}

/// The parameters of a module.
fn parameters_of(header: &Option<Header>) -> &[Parameter]
    ensures { result.now ≡ parameters_of header.now }
{
    match header {
        None => &[],
        Some(header) => header.parameters.as_slice(),
    }
}

/// The module of an instance.
fn module_of<'a>(texts: &'a [Text], instance: &Instance) -> Result<&'a Module, AllocError>
    ensures { IfOk result (λ m. m.now ≡ module_of texts.now instance.now) }
{
    let place = instance.text as usize;
    if place >= texts.len() {
        // Each instance has a text.
        return Err(AllocError);
    }
    Ok(&texts[place].tree)
}

/// Adds what an open gives to a parameter.
fn add_argument(
    names: &Names,
    parameter: &Parameter,
    argument: Option<SigRef>,
    open_at: Origin,
    table: &mut Vec<Option<Origin>>,
) -> Result<(), AllocError>
    ensures { OnOk result (AreAdded (gifts_for names.now.scopes open_at (Some parameter.now)
        (Some argument)) table.old.items table.new.items) }
{
    if !parameter.is_exact {
        return Ok(());
    }
    match argument {
        None => Ok(()),
        Some(sig) => match names.sig_number(sig) {
            // Each argument is a sig of its instance.
            None => Err(AllocError),
            Some(number) => {
                put(table, number, open_at);
                Ok(())
            }
        },
    }
}

/// Adds what an open gives to the parameter of this place.
fn add_at(
    names: &Names,
    parameters: &[Parameter],
    place: usize,
    argument: Option<SigRef>,
    open_at: Origin,
    table: &mut Vec<Option<Origin>>,
) -> Result<(), AllocError>
    ensures { OnOk result (AreAdded (gifts_for names.now.scopes open_at
        (slice_get parameters.now place) (Some argument)) table.old.items table.new.items) }
{
    match parameters.get(place) {
        None => Ok(()),
        Some(parameter) => {
            add_argument(names, parameter, argument, open_at, table)?;
            Ok(())
        }
    }
}

/// Adds what an open with these arguments gives to the parameters.
fn add_arguments(
    names: &Names,
    parameters: &[Parameter],
    arguments: &[Option<SigRef>],
    open_at: Origin,
    table: &mut Vec<Option<Origin>>,
) -> Result<(), AllocError>
    ensures { OnOk result (AreAdded (gifts_with names.now.scopes open_at parameters.now
        arguments.now) table.old.items table.new.items) }
{
    for place in 0..arguments.len() {
        add_at(names, parameters, place, arguments[place], open_at, table)?;
    }
    Ok(())
}

/// Adds what an open of the instance of this number gives.
fn add_opened(
    loaded: &Loaded,
    names: &Names,
    opened: u32,
    open_at: Origin,
    table: &mut Vec<Option<Origin>>,
) -> Result<(), AllocError>
    ensures { OnOk result (AreAdded (gifts_to loaded.now.texts loaded.now.instances
        names.now.scopes open_at (slice_get loaded.now.instances opened)) table.old.items
        table.new.items) }
{
    match loaded.instances.as_slice().get(opened as usize) {
        None => Ok(()),
        Some(instance) => {
            let module = module_of(loaded.texts.as_slice(), instance)?;
            let parameters = parameters_of(&module.header);
            add_arguments(
                names,
                parameters,
                instance.arguments.as_slice(),
                open_at,
                table,
            )?;
            Ok(())
        }
    }
}

/// Adds what an open of an instance gives, whose place is that of this number.
fn add_open(
    loaded: &Loaded,
    names: &Names,
    instance: u32,
    places: &[Position],
    place: usize,
    opened: &Opened,
    table: &mut Vec<Option<Origin>>,
) -> Result<(), AllocError>
    ensures { OnOk result (AreAdded (gifts_by loaded.now.texts loaded.now.instances
        names.now.scopes instance (slice_get places.now place) (Some opened.now))
        table.old.items table.new.items) }
{
    match places.get(place) {
        None => Ok(()),
        Some(at) => {
            let open_at = Origin {
                instance,
                place: *at,
            };
            add_opened(loaded, names, opened.instance, open_at, table)?;
            Ok(())
        }
    }
}

/// Adds what opens of an instance give, which have these places.
fn add_opens(
    loaded: &Loaded,
    names: &Names,
    instance: u32,
    places: &[Position],
    opens: &[Opened],
    table: &mut Vec<Option<Origin>>,
) -> Result<(), AllocError>
    ensures { OnOk result (AreAdded (gifts_among loaded.now.texts loaded.now.instances
        names.now.scopes instance places.now opens.now) table.old.items table.new.items) }
{
    for place in 0..opens.len() {
        add_open(loaded, names, instance, places, place, &opens[place], table)?;
    }
    Ok(())
}

/// Adds what the opens of an instance give.
fn add_instance(
    alloc: Global,
    loaded: &Loaded,
    names: &Names,
    number: u32,
    instance: &Instance,
    table: &mut Vec<Option<Origin>>,
) -> Result<(), AllocError>
    ensures { OnOk result (AreAdded (gifts_in loaded.now.texts loaded.now.instances
        names.now.scopes number (Some instance.now)) table.old.items table.new.items) }
{
    let module = module_of(loaded.texts.as_slice(), instance)?;
    let places = open_places(alloc, module)?;
    let opens = instance.opens.as_slice();
    add_opens(loaded, names, number, places.as_slice(), opens, table)?;
    Ok(())
}

/// The number of an instance.
fn number(place: usize) -> Result<u32, AllocError>
    ensures { IfOk result (λ n. n ≡ place) }
{
    match u32::try_from(place) {
        Ok(number) => Ok(number),
        Err(_) => Err(AllocError),
    }
}

/// Adds what the opens of all instances give.
pub fn add_gifts(
    alloc: Global,
    loaded: &Loaded,
    names: &Names,
    table: &mut Vec<Option<Origin>>,
) -> Result<(), AllocError>
    ensures { OnOk result (AreAdded (gifts loaded.now.texts loaded.now.instances
        names.now.scopes) table.old.items table.new.items) }
{
    let instances = loaded.instances.as_slice();
    for place in 0..instances.len() {
        let number = number(place)?;
        add_instance(alloc, loaded, names, number, &instances[place], table)?;
    }
    Ok(())
}

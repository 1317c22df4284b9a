//! The instances of a model, their labels and opens.
use crate::shelf::{ORDERING, library, one};
use load_modules::{load, load_text};
use std::alloc::{AllocError, Global};
use std::test::Fail;
use syntax_tree::Loaded;

/// Whether an instance has this label and this text's name.
fn is_instance(loaded: &Loaded, number: usize, label: &str, text: &str) -> bool {
    let Some(instance) = loaded.instances.as_slice().get(number) else {
        return false;
    };
    let Some(found) = loaded.texts.as_slice().get(instance.text as usize) else {
        return false;
    };
    instance.label.text() == label && found.name.text() == text
}

/// The model of the root of this name among these files, if it can be loaded.
fn model(alloc: Global, files: &[(&str, &str)], root: &str) -> Result<Option<Loaded>, AllocError> {
    let mut libraries = one(alloc, files)?;
    Ok(load(alloc, &mut libraries, root).ok())
}

#[test]
fn the_order_of_an_enum(rt: HostRuntime) -> Result<(), Fail> {
    let files = [
        ("m.als", "open b as x\nopen b as y\nenum E { F, G }\n"),
        ("b.als", "enum H { I }\n"),
        ("util/ordering.als", ORDERING),
    ];
    let loaded = model(rt.alloc(), &files, "m.als")?.ok_or("refused")?;
    assert_eq!(rt; loaded.instances.len(), 4);
    assert!(rt; is_instance(&loaded, 2, "x/ordering", "util/ordering.als"));
    assert!(rt; is_instance(&loaded, 3, "ordering", "util/ordering.als"));
    Ok(())
}

/// How many instances the model of `m.als` has, where the first library has another text of `b.als` than the second.
fn instances_of_two(alloc: Global) -> Result<usize, AllocError> {
    let mut libraries = Vec::new(alloc);
    libraries.push(library(alloc, &[("b.als", "module b[x]\n")])?)?;
    libraries.push(library(
        alloc,
        &[("b.als", "sig B {}\n"), ("m.als", "open b[A]\nsig A {}\n")],
    )?)?;
    match load(alloc, &mut libraries, "m.als") {
        Ok(loaded) => Ok(loaded.instances.len()),
        Err(_) => Ok(0),
    }
}

#[test]
fn the_first_library_counts(rt: HostRuntime) -> Result<(), Fail> {
    assert_eq!(rt; instances_of_two(rt.alloc())?, 2);
    Ok(())
}

#[test]
fn the_folder_of_the_root_counts_first(rt: HostRuntime) -> Result<(), Fail> {
    let files = [
        ("d/m.als", "open b\n"),
        ("b.als", "$"),
        ("d/b.als", "sig B {}\n"),
    ];
    let loaded = model(rt.alloc(), &files, "d/m.als")?.ok_or("refused")?;
    assert!(rt; is_instance(&loaded, 1, "b", "d/b.als"));
    Ok(())
}

/// How many texts a model has whose root is given, though a library has another text of its name.
fn texts_of_given(alloc: Global) -> Result<usize, AllocError> {
    let mut libraries = one(alloc, &[("m.als", "open gone\n")])?;
    match load_text(alloc, &mut libraries, "m.als", b"sig A {}\n") {
        Ok(loaded) => Ok(loaded.texts.len()),
        Err(_) => Ok(0),
    }
}

#[test]
fn a_given_root(rt: HostRuntime) -> Result<(), Fail> {
    assert_eq!(rt; texts_of_given(rt.alloc())?, 1);
    Ok(())
}

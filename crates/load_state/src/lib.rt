//! What has been loaded of a model so far, and how the model is put together at the end.
//!
//! Loaded are texts, instances and their opens: what an open asks for, and where it leads.
#![tactic(auto)]

mod argument;
mod assembly;
mod check;
mod count;
mod fault;
mod label;
mod leads;
mod loading;
mod named;
mod names;
mod placing;
mod reach;
mod refuse;
mod request;
mod source;
mod table;

pub use argument::Opener;
pub use assembly::finished_model;
pub use fault::LoadFault;
pub use label::{longer_path, new_label};
pub use loading::{
    Asked, Doors, Finished, Key, Loading, answer_to, instance_with, is_being_opened, is_finished,
    key_at, public_reach, source_of,
};
pub use names::{file_name, folder_of, path_text};
pub use placing::{
    Target, add_open, finish, note, open_count, parameter_count, placed, refused_open, request_at,
};
pub use reach::{InstanceSet, Reach};
pub use refuse::{refused, small, start_of, unread};
pub use request::Request;
pub use source::Source;
pub use table::{DeclaredSig, Enumerated, Known, Table};

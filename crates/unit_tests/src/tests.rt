//! A module for each crate that is tested.

mod class_files;
mod devices;
mod records;
mod runs;
mod stores;

//! Devices by classes.

use crate::device::ApiDevice;
use mon_base::Bytes;

/// A device, and the class whose methods it answers for.
#[derive(Drop)]
pub struct SlotOf<D> {
    pub class: Bytes,
    pub device: D,
}

/// A slot with any device.
pub type Slot = SlotOf<Box<dyn ApiDevice + Send>>;

/// The devices that answer a program's calls. Of two of one class the first is asked. Their boxes are made by the caller,
/// and dropped with the shelf.
#[derive(Drop)]
pub struct Shelf {
    pub devices: Vec<Slot>,
}

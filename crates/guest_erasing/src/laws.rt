//! What a woven program has in common with its client.

ghost use Rattle.guest_erasing.specs.Adding.{AddedStateIsNotSeen, LinkedClientsAreNamed};
ghost use Rattle.guest_erasing.specs.Mirrors.{MirrorsAreErased};
ghost use Rattle.guest_erasing.specs.Starting.{StartsMirror};
ghost use Rattle.guest_erasing.specs.Steps.{ClientStepsAreAlike};

/// Of the names of its client a woven program tells the same: which class or method they are of, what is above it, and which
/// fields its objects have.
pub fn programs_tell_alike()
    ensures alike { AddedStateIsNotSeen }
{}

/// What a compiler's files link to, over a listing that was read, has such names.
pub fn linked_clients_are_named()
    ensures named { LinkedClientsAreNamed }
{}

/// A machine of a woven program that mirrors one of its client is that machine, once what weaving added is erased.
pub fn mirrors_are_erased()
    ensures { MirrorsAreErased }
{}

/// A step of the client at an instruction without a block is a step of the woven program: the library sees the same, the machines
/// mirror each other again, and what conspec/State holds, and who has its monitor, stays.
pub fn client_steps_are_alike()
    ensures { ClientStepsAreAlike }
{}

/// Where arguments fit what a client begins, and the static fields at the start are its own and those of conspec/State, the machine
/// of its woven program at the start mirrors its own.
pub fn machines_start_alike()
    ensures { StartsMirror }
{}

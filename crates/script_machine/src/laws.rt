//! A law of disks and schemas: a contract of a function that does nothing.
ghost use Rattle.script_machine.specs.Images.{DiskLaw};

/// A disk that holds an image of a schema is what [`Machine::down`](crate::Machine::down) asks for.
pub fn disk_law()
    ensures { DiskLaw }
{}

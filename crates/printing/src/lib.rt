// What a program prints for a form's bytes, whatever the text of a build is, is in specs/. In code: how long the slices are in which the build of every form has room (rule 2).

#![tactic(auto)]

pub mod parts;

// Two numbers to a vertex.
pub const VERTICES: usize = 2 * (7 * form::TRIANGLES + 5 * form::HULL + 4);

pub const INDEXES: usize = 12 * form::TRIANGLES + 8 * form::HULL + 4;

pub const OFFSETS: usize = form::SITES + 1;

pub const COUNTS: usize = 9;

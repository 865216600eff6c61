// The arguments of `why`: what all of them ask for.
pub mod words; // words.rt: how they are read

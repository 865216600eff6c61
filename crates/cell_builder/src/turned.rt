// All cells of a build: the tries at the hull's places in their order, then those at the half-edges, turn by turn.
pub mod marks; // marks.rt: the cells that are made last
pub mod turns; // turns.rt: one half-edge of the rest
pub mod retries; // retries.rt: what of a hull site's try is known
pub mod loops; // loops.rt: all of them

// What stands ready before a cell is clipped: the circumcenters, the corners' owners, the hull's extensions.
pub mod circumcenters;
pub mod extensions;
pub mod ownership;

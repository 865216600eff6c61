// A piece is written along the walk and then turned round, so that it runs as a build's cells do.
ghost use Rattle.std.specs.Prelude.{◌≡◌, ◌≤◌, length};
ghost use Rattle.cutting_writer.specs.turn.Turned.{turned_round};

// The entries from `from` up to `to` the other way round.
pub fn turn_round(indexes: &mut [u32], from: usize, to: usize)
    requires { (from ≤ to) × (to ≤ length indexes.old) }
    ensures { indexes.new ≡ turned_round from to indexes.old }
{
    indexes[from..to].reverse();
}

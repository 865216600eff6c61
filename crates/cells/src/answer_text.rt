// Shows a build's answer as the text of `cells`: the line of a refusal by its number, or the listing of the build's lent slices.
ghost use Rattle.std.specs.Prelude.{◌≡◌, ◌≤◌, length};
ghost use Rattle.printing.specs.Printed.{ShownIn, shown};
ghost use Rattle.cells.specs.answer_text.Shown.{Laid, box_lines};

// The text of a build in a box that was answered by this number, put at the beginning of `out`; how many bytes it has.
pub fn show(
    out: &mut [u8],
    number: u32,
    sites: u32,
    triangles: u32,
    offsets: &[u32],
    indexes: &[u32],
    counts: &[u32],
) -> usize
    requires { (number ≡ 0 → Laid sites offsets.now indexes.now (length out.old)) × (9 ≤ length counts.now) × (65536 ≤ length out.old) }
    ensures { ShownIn (shown (box_lines sites triangles offsets.now indexes.now counts.now) number) out.new (length out.old) result }
{
    if number != 0 {
        return printing::parts::refusal(out, number);
    }
    let owners = [counts[1], counts[2], counts[3], counts[4]];
    crate::listing::listing(
        out, sites, triangles, counts[0], offsets, indexes, owners, counts[5], counts[6],
        counts[7], counts[8],
    )
}

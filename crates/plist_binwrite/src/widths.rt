//! The widths in bytes of a file's integers, references, and offsets in the offset table.

ghost use Rattle.std.specs.Prelude.{◌≡◌, ◌≤◌, ◌<◌, ◌^◌};
ghost use Rattle.plist_binwrite.specs.Forms.{least_width, reference_width};

/// Returns the smallest of the widths 1, 2, 4 and 8 into which a number fits, in bytes.
#[tactic(auto, unfolding(crate::specs::Forms::least_width))]
pub fn least_width(number: u64) -> usize
    ensures value { result ≡ least_width number }
    ensures range { (1 ≤ result) × (result ≤ 8) }
    ensures fits { number < 256 ^ result }
{
    if number < 1 << 8 {
        1
    } else if number < 1 << 16 {
        2
    } else if number < 1 << 32 {
        4
    } else {
        8
    }
}

/// Returns the width in bytes of a reference in a file with `count` objects.
pub fn reference_width(count: u64) -> usize
    ensures value { result ≡ reference_width count }
    ensures range { (1 ≤ result) × (result ≤ 8) }
    ensures fits { count ≤ 256 ^ result }
{
    least_width(count.saturating_sub(1))
}

/// Returns the width in bytes of an offset in the offset table, if the table lies at the byte
/// offset `table`.
pub fn offset_width(table: u64) -> usize
    ensures value { result ≡ least_width table }
    ensures range { (1 ≤ result) × (result ≤ 8) }
    ensures fits { table < 256 ^ result }
{
    least_width(table)
}

//! How a gap between the slots is closed.

ghost use Rattle.std.specs.Prelude.{◌≡◌, ◌<◌, ◌≤◌, length};
ghost use Rattle.image.specs.Cut.{bytes_of, cells};
ghost use Rattle.table.specs.Tables.{closed};

use image::Image;

/// Moves the slots behind a place, up to a count, down by one, and clears the last of them.
pub(crate) fn close(image: &mut Image, place: usize, count: usize)
    requires place { place < count }
    requires count { count ≤ length (cells image.old) }
    ensures slots { cells image.new ≡ closed (cells image.old) place count }
    ensures kept { length (bytes_of image.new) ≡ length (bytes_of image.old) }
{
    image.copy_within(place + 1..count, place);
    image.clear(count - 1);
}

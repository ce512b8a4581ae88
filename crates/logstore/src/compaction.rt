//! How the slots of the listed records come to the front of an image.

ghost use Rattle.std.specs.Prelude.{◌≡◌, length};
ghost use Rattle.image.specs.Cut.{bytes_of, cells, cleared};
ghost use Rattle.logstore.specs.Cells.{Ahead, gathered};

use image::Image;

/// Leaves in front the slots of these numbers, and behind them only free ones.
pub(crate) fn compact(image: &mut Image, places: &[usize])
    requires { Ahead (length (cells image.old)) places.now }
    ensures slots { cells image.new ≡ cleared (gathered (cells image.old) places.now) (length places.now) }
    ensures kept { length (bytes_of image.new) ≡ length (bytes_of image.old) }
{
    gather(image, places);
    image.clear_from(places.len());
}

/// Copies the slots of these numbers to the front, in order.
fn gather(image: &mut Image, places: &[usize])
    requires { Ahead (length (cells image.old)) places.now }
    ensures slots { cells image.new ≡ gathered (cells image.old) places.now }
    ensures kept { length (bytes_of image.new) ≡ length (bytes_of image.old) }
{
    for (j, place) in places.iter().enumerate() {
        image.copy(*place, j);
    }
}

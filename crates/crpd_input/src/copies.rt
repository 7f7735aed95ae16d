// Copies of images, for files that several tasks name.
ghost use Rattle.std.specs.Prelude.{◌≡◌, IfOk};

use crpd_base::Image;
use std::alloc::AllocError;

/// A copy of an image, which shares its segments and symbols. In constant time. The only error is
/// out of memory.
pub fn copy_image(image: &Image) -> Result<Image, AllocError>
    ensures { IfOk result (λ copy. copy ≡ image.now) }
{
    let segments = image.segments.share()?;
    let symbols = image.symbols.share()?;
    Ok(Image {
        entry: image.entry,
        segments,
        symbols,
    })
}

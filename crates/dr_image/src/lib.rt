//! Plant images: the devices of a plant as a text, which is read and written here.
//!
//! `read_image` answers what the grammar of images says of a text: the image, or the number of the first bad line
//! (`reads`). A text that reads is the text of the image, and that image is a proper one (`image`); a text with a bad
//! line is the text of no proper image (`bad`), and the line is the first one with which the lines so far don't begin
//! an image's text any more (`first`), or that of the first volume whose relationship has no source. `write_image`
//! writes the text of an image (`text`); where it reads, it reads as this image (`reads`), and that of a proper image
//! does (`proper`). `ImageReader` gives the same for every way to cut a text: `new` and `feed` say what the text will
//! read as, whatever comes (`reads`), and `finish` says what it did; it answers want of memory exactly where a `feed`
//! had none. `Image` is a list of volumes with their blocks: `len`, `volume`, `block` read it, `push_volume` and
//! `push_block` change it (`ok`, `err`). `push_id`, `push_number`, `push_decimal`, `push_kept` and `trimmed` are the pieces of
//! its lines, for texts that name volumes and blocks in the same way. The word `recover` of the program reads images by `ImageReader`.
#![tactic(auto)]

mod fault;
mod held;
mod image;
mod reader;
mod said;
mod source;
mod state;
mod words;
mod writer;

pub use fault::ImageFault;
pub use held::zero_block;
pub use image::{Image, ImageVolume};
pub use reader::{ImageReader, read_image};
pub use writer::{push_decimal, push_id, push_kept, push_number, trimmed, write_image};

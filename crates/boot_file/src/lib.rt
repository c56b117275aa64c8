//! Boot files: several images in one file, after headers with the address of each image.
//!
//! [`join`] makes a boot file. [`split`] reads one back: it gives the images that the entries name, and the address of each. `Means` (in
//! `specs/Meaning.antt`) says what a boot file means, and `split_fault` (in `specs/Faults.antt`) why it means nothing. The clause of
//! [`joined_file_means_its_images`] is the law about the files that [`join`] makes: such a file means the images that were joined.
#![tactic(auto)]

mod file;
mod header;
mod headers;
mod images;
mod joining;
mod law;
mod multi_fault;
mod options;
mod parts;
mod places;
mod split_fault;
mod splitting;

pub use file::{BootFile, BootImage};
pub use joining::{check, join};
pub use law::joined_file_means_its_images;
pub use multi_fault::MultiFault;
pub use options::Options;
pub use split_fault::SplitFault;
pub use splitting::split;

// What the signatures show.
pub use bin_stream::BinFault;
pub use ice_image::AnyImage;

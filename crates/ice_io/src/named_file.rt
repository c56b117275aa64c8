/// A file for `MemFiles`. No tool of this project needs it: it is for tests, and for users of the library.
#[derive(Drop)]
pub struct NamedFile {
    pub name: String,
    pub bytes: Vec<u8>,
}

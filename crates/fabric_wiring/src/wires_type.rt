// Which classes of joined nets have a driver, and which classes each reads, as it is kept.

/// For each class of joined nets, whether it has a driver, and the classes that it reads.
#[derive(Drop)]
pub struct Wires {
    pub driven: Vec<bool>,
    pub reads: Vec<Vec<u32>>,
}

// What a worker passes on its way to the kernel.

/// What a worker passes behind each burst, before what the burst came to is committed. The worker holds no lock there, so a
/// gate may hold it back for as long as it likes: a test orders the workers so. Our own choice.
pub trait Gate: Sync {
    /// Lets a worker pass, which is about to commit for an instance.
    fn pass(&self, worker: u32, instance: u32);
}

/// A gate that holds nobody.
#[derive(Clone, Copy)]
pub struct OpenGate;

impl Gate for OpenGate {
    fn pass(&self, _worker: u32, _instance: u32) {}
}

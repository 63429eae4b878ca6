/// What can be counted of a subject.
#[repr(C)]
#[derive(Clone, Copy)]
pub struct Counts {
    /// How many observers are held.
    pub observers: u32,
    /// How many joins were accepted: the number of the next observer.
    pub joins: u32,
    /// How many notes were given and not taken yet.
    pub given: usize,
    /// How many events were refused for want of memory.
    pub misses: u64,
}

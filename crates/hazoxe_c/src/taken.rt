/// How many notes a program in C took by one call, and how many bytes their texts have.
#[repr(C)]
#[derive(Clone, Copy)]
pub struct Taken {
    pub notes: usize,
    pub bytes: usize,
}

// The start hour that is written for an absent step.
pub const ABSENT: u16 = 65_535;

// A step with its start hour. The kind says which vessels serve it.
#[derive(Clone, Copy)]
pub struct Placed {
    pub start: u16,
    pub duration: u16,
    pub kind: u8,
}

// The window of a step: the hours from first to last at which it may start, given the starts placed already.
#[derive(Clone, Copy)]
pub struct Window {
    pub first: i32,
    pub last: i32,
}
